// How far what begins at the front of some bytes goes.
ghost use Rattle.std.specs.Prelude.{◌≡◌, ◌≤◌, ◌<◌, ◌==◌, [], ◌∷◌, IfSome, length};
ghost use Rattle.std.specs.List.{prefix_len};
ghost use Rattle.std.specs.Char.{is_ascii_digit};
ghost use Rattle.blink_base.specs.Identifiers.{is_name_byte};
ghost use Rattle.blink_base.specs.declared.limits.TheConstants.{LONGEST_INPUT};
ghost use Rattle.star_lex.specs.Forms.{mark_of_bytes};
ghost use Rattle.star_lex.specs.Lex.{closed_length, other_length, front_length};

use crate::Mark;
use crate::name_bytes::{begins_name, is_name_byte};
use crate::piece_spans::{behind, comment_length};

// How many letters, digits and underscores stand in front.
fn name_bytes(bytes: &[u8]) -> usize
    ensures value { result ≡ prefix_len is_name_byte bytes.now }
    ensures within { result ≤ length bytes.now }
{
    for (at, b) in bytes.iter().enumerate() {
        if !is_name_byte(*b) {
            return at;
        }
    }
    bytes.len()
}

// How many digits stand in front.
fn digits(bytes: &[u8]) -> usize
    ensures value { result ≡ prefix_len is_ascii_digit bytes.now }
    ensures within { result ≤ length bytes.now }
{
    for (at, b) in bytes.iter().enumerate() {
        if !b.is_ascii_digit() {
            return at;
        }
    }
    bytes.len()
}

// How many bytes stand behind a text's first quote up to the quote that closes it, where one does.
fn closed_length(bytes: &[u8]) -> Option<usize>
    ensures value { result ≡ closed_length bytes.now }
    ensures within { IfSome result (λ closed. closed ≤ length bytes.now) }
{
    let mut at = 0;
    while at < bytes.len() {
        if bytes[at] != b'\'' {
            at += 1;
        } else if at + 1 < bytes.len() && bytes[at + 1] == b'\'' {
            at += 2;
        } else {
            return Some(at + 1);
        }
    }
    None
}

// The mark of one byte.
fn short_mark(byte: u8) -> Option<Mark>
    ensures { result ≡ mark_of_bytes (byte ∷ []) }
{
    match byte {
        b'(' => Some(Mark::Left),
        b')' => Some(Mark::Right),
        b',' => Some(Mark::Comma),
        b'.' => Some(Mark::Dot),
        b'*' => Some(Mark::Star),
        b'+' => Some(Mark::Plus),
        b'-' => Some(Mark::Minus),
        b'=' => Some(Mark::Equal),
        b'<' => Some(Mark::Less),
        b'>' => Some(Mark::Greater),
        _ => None,
    }
}

// The mark of two bytes.
fn long_mark(first: u8, second: u8) -> Option<Mark>
    ensures { result ≡ mark_of_bytes (first ∷ second ∷ []) }
{
    match (first, second) {
        (b'<', b'=') => Some(Mark::LessEqual),
        (b'>', b'=') => Some(Mark::GreaterEqual),
        (b'<', b'>') => Some(Mark::Unequal),
        _ => None,
    }
}

// The mark that the bytes are.
pub(crate) fn mark_of_bytes(bytes: &[u8]) -> Option<Mark>
    ensures { result ≡ mark_of_bytes bytes.now }
{
    match bytes {
        [byte] => short_mark(*byte),
        [first, second] => long_mark(*first, *second),
        _ => None,
    }
}

// The length of a comment or of a mark of two bytes at the front, and else one byte.
fn other_length(left: &[u8]) -> usize
    requires { length left.now ≤ LONGEST_INPUT }
    ensures value { result ≡ other_length left.now }
    ensures within { result ≤ length left.now }
{
    match left {
        [] => 0,
        [_] => 1,
        [b'-', b'-', comment @ ..] => 2 + comment_length(comment),
        [first, second, ..] => {
            if long_mark(*first, *second).is_some() {
                2
            } else {
                1
            }
        }
    }
}

// The length of what begins at the front, where something does.
pub(crate) fn front_length(left: &[u8]) -> usize
    requires { length left.now ≤ LONGEST_INPUT }
    ensures value { result ≡ front_length left.now }
    ensures within { result ≤ length left.now }
{
    if left.is_empty() {
        return 0;
    }
    let first = left[0];
    let rest = behind(left, 1);
    if begins_name(first) {
        1 + name_bytes(rest)
    } else if first.is_ascii_digit() {
        1 + digits(rest)
    } else if first == b'\'' {
        match closed_length(rest) {
            Some(closed) => closed + 1,
            None => 0,
        }
    } else {
        other_length(left)
    }
}
