// The options of `run`.
ghost use Rattle.std.specs.Prelude.{◌≡◌, [], ◌∷◌, map, string_bytes};
ghost use Rattle.blink_run.specs.Options.{from_one_to, limits_of, limits_made, number_within, option_number, rows_option, blocks_option};

use blink_base::{Limits, MOST_BLOCKS, whole_number};
use blink_lists::MOST_ROWS;

/// How many digits the number of an option may have.
const MOST_OPTION_DIGITS: usize = 9;

// A whole number from 1 to the most.
fn from_one_to(most: u64, number: Option<i64>) -> Option<u64>
    ensures { result ≡ from_one_to most number }
{
    match number {
        Some(number) if number >= 1 => {
            let number = number as u64;
            if number <= most { Some(number) } else { None }
        }
        _ => None,
    }
}

// A number of one to nine digits, from 1 to the most.
fn number_within(most: u64, word: &[u8]) -> Option<u64>
    ensures { result ≡ number_within most word.now }
{
    if word.len() <= MOST_OPTION_DIGITS {
        from_one_to(most, whole_number(word))
    } else {
        None
    }
}

// The number of an option, where the word is the option's.
fn option_number(option: &str, most: u64, word: &str, number: &str) -> Option<u64>
    ensures { result ≡ option_number option.now most word.now number.now }
{
    if word == option {
        number_within(most, number.as_bytes())
    } else {
        None
    }
}

// The number of `--rows`.
fn rows(word: &str, number: &str) -> Option<u64>
    ensures { result ≡ rows_option word.now number.now }
{
    option_number("--rows", MOST_ROWS, word, number)
}

// The number of `--blocks`.
fn blocks(word: &str, number: &str) -> Option<u64>
    ensures { result ≡ blocks_option word.now number.now }
{
    option_number("--blocks", MOST_BLOCKS, word, number)
}

// The limits of both numbers, where both are there.
fn limits(rows: Option<u64>, blocks: Option<u64>) -> Option<Limits>
    ensures { result ≡ limits_made rows blocks }
{
    Some(Limits {
        rows: rows?,
        blocks: blocks?,
    })
}

// The limits that one option says.
fn one_option(word: &str, number: &str) -> Option<Limits>
    ensures { result ≡ limits_of (word.now ∷ number.now ∷ []) }
{
    match limits(rows(word, number), Some(MOST_BLOCKS)) {
        Some(limits) => Some(limits),
        None => limits(Some(MOST_ROWS), blocks(word, number)),
    }
}

// The limits that both options say, in any order.
fn both_options(first: &str, number: &str, second: &str, other: &str) -> Option<Limits>
    ensures { result ≡ limits_of (first.now ∷ number.now ∷ second.now ∷ other.now ∷ []) }
{
    match limits(rows(first, number), blocks(second, other)) {
        Some(limits) => Some(limits),
        None => limits(rows(second, other), blocks(first, number)),
    }
}

// The limits that the arguments behind `run` say: each option at most once, in any order.
pub(crate) fn limits_of(args: &[String]) -> Option<Limits>
    ensures { result ≡ limits_of (map string_bytes args.now) }
{
    match args {
        [] => limits(Some(MOST_ROWS), Some(MOST_BLOCKS)),
        [word, number] => one_option(word.as_str(), number.as_str()),
        [first, number, second, other] => both_options(
            first.as_str(),
            number.as_str(),
            second.as_str(),
            other.as_str(),
        ),
        _ => None,
    }
}
