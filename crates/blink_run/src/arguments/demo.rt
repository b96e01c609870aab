// The numbers of `demo`.
ghost use Rattle.std.specs.Prelude.{◌≡◌, ◌≤◌, IfSome};
ghost use Rattle.blink_base.specs.Numbers.{has_minus};
ghost use Rattle.blink_gen.specs.declared.limits.TheConstants.{MOST_DEMO_ROWS, MOST_SEED};
ghost use Rattle.blink_run.specs.DemoNumbers.{demo_number, from_to, rows_of, seed_of, within};

use blink_base::whole_number;
use blink_gen::{MOST_DEMO_ROWS, MOST_SEED};

/// How many digits a number of a demonstration may have.
const MOST_DEMO_DIGITS: usize = 10;

// Whether a minus stands in front.
fn has_minus(word: &[u8]) -> bool
    ensures { result ≡ has_minus word.now }
{
    matches!(word, [b'-', ..])
}

// A number from the least to the most.
fn within(least: u32, most: u32, number: u64) -> Option<u32>
    ensures number { result ≡ within least most number }
    ensures within { IfSome result (λ number. number ≤ most) }
{
    if u64::from(least) <= number && number <= u64::from(most) {
        Some(number as u32)
    } else {
        None
    }
}

// A whole number from the least to the most.
fn from_to(least: u32, most: u32, number: Option<i64>) -> Option<u32>
    ensures number { result ≡ from_to least most number }
    ensures within { IfSome result (λ number. number ≤ most) }
{
    match number {
        Some(number) if number >= 0 => within(least, most, number as u64),
        _ => None,
    }
}

// A number of one to ten digits, from the least to the most.
fn demo_number(least: u32, most: u32, word: &[u8]) -> Option<u32>
    ensures number { result ≡ demo_number least most word.now }
    ensures within { IfSome result (λ number. number ≤ most) }
{
    if word.len() <= MOST_DEMO_DIGITS && !has_minus(word) {
        from_to(least, most, whole_number(word))
    } else {
        None
    }
}

// The seed of a demonstration.
pub(crate) fn seed_of(word: &str) -> Option<u32>
    ensures seed { result ≡ seed_of word.now }
    ensures within { IfSome result (λ seed. seed ≤ MOST_SEED) }
{
    demo_number(0, MOST_SEED, word.as_bytes())
}

// The number of orders of a demonstration.
pub(crate) fn rows_of(word: &str) -> Option<u32>
    ensures rows { result ≡ rows_of word.now }
    ensures within { IfSome result (λ rows. rows ≤ MOST_DEMO_ROWS) }
{
    demo_number(1, MOST_DEMO_ROWS, word.as_bytes())
}
