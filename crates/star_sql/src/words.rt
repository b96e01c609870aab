// Which words are names, and which words are kinds.
ghost use Rattle.std.specs.Prelude.{◌≡◌, not};
ghost use Rattle.std.specs.List.{list_all, list_any};
ghost use Rattle.std.specs.Str.{bytes_eq};
ghost use Rattle.std.specs.Char.{is_ascii_uppercase};
ghost use Rattle.blink_base.specs.Identifiers.{is_name_byte, is_kept_word, is_reserved, is_name};
ghost use Rattle.star_sql.specs.Parsers.{kind_of_word};

use blink_base::{Kind, LONGEST_INPUT};
use star_lex::{begins_name, is_name_byte};

fn are_name_bytes(bytes: &[u8]) -> bool
    ensures { result ≡ list_all is_name_byte bytes.now }
{
    bytes.iter().all(|b| is_name_byte(*b))
}

fn has_no_capital(bytes: &[u8]) -> bool
    ensures { result ≡ list_all (λ b. not (is_ascii_uppercase b)) bytes.now }
{
    bytes.iter().all(|b| !b.is_ascii_uppercase())
}

fn is_kept_word(bytes: &[u8]) -> bool
    ensures { result ≡ is_kept_word bytes.now }
{
    match bytes {
        [] => false,
        [first, behind @ ..] => {
            begins_name(*first)
                && are_name_bytes(behind)
                && has_no_capital(bytes)
                && bytes.len() as u64 <= LONGEST_INPUT
        }
    }
}

// The words that have a meaning of their own wherever they stand.
const RESERVED: [&str; 18] = [
    "and", "as", "asc", "between", "by", "desc", "from", "group", "in", "is", "like", "limit",
    "not", "null", "or", "order", "select", "where",
];

fn is_among(word: &str, words: &[&str]) -> bool
    ensures { result ≡ list_any (λ w. bytes_eq word.now w.now) words.now }
{
    for other in words {
        if word == *other {
            return true;
        }
    }
    false
}

fn is_reserved(word: &str) -> bool
    ensures { result ≡ is_reserved word.now }
{
    is_among(word, &RESERVED)
}

pub(crate) fn is_name(word: &str) -> bool
    ensures { result ≡ is_name word.now }
{
    is_kept_word(word.as_bytes()) && !is_reserved(word)
}

#[tactic(auto, unfolding(crate::specs::Parsers::kind_of_word))]
pub(crate) fn kind_of_word(word: &str) -> Option<Kind>
    ensures { result ≡ kind_of_word word.now }
{
    match word {
        "int" => Some(Kind::Int),
        "text" => Some(Kind::Text),
        "date" => Some(Kind::Date),
        _ => None,
    }
}
