// The pieces of a script.
ghost use Rattle.std.specs.Prelude.{◌≡◌, ◌≤◌, ◌<◌, ◌==◌, ◌+◌, IfOk, length, drop, take};
ghost use Rattle.std.specs.List.{position_or_len};
ghost use Rattle.blink_base.specs.declared.limits.TheConstants.{LONGEST_INPUT};
ghost use Rattle.star_lex.specs.Pieces.{pieces_of, part_length, quote, line_feed};

use crate::Place;
use blink_base::List;
use std::alloc::{AllocError, Global};

// The bytes from a place on.
pub(crate) fn behind(text: &[u8], at: usize) -> &[u8]
    requires { at ≤ length text.now }
    ensures { result.now ≡ drop at text.now }
{
    &text[at..]
}

// Where a byte first stands, or the number of bytes where it doesn't.
fn index_of(byte: u8, bytes: &[u8]) -> usize
    ensures value { result ≡ position_or_len (λ b. b == byte) bytes.now }
    ensures within { result ≤ length bytes.now }
{
    for (at, b) in bytes.iter().enumerate() {
        if *b == byte {
            return at;
        }
    }
    bytes.len()
}

// How far a text goes on behind its first quote, the quote that ends it included.
fn text_length(bytes: &[u8]) -> usize
    ensures value { result ≡ length (take (position_or_len (λ b. b == quote) bytes.now + 1) bytes.now) }
    ensures within { result ≤ length bytes.now }
{
    bytes.len().min(index_of(b'\'', bytes) + 1)
}

// How far a comment goes on behind its dashes.
pub(crate) fn comment_length(bytes: &[u8]) -> usize
    ensures value { result ≡ position_or_len (λ b. b == line_feed) bytes.now }
    ensures within { result ≤ length bytes.now }
{
    index_of(b'\n', bytes)
}

// The length of the text, the comment or the other byte at the front.
fn part_length(script: &[u8]) -> usize
    requires { length script.now ≤ LONGEST_INPUT }
    ensures value { result ≡ part_length script.now }
    ensures within { result ≤ length script.now }
{
    match script {
        [] => 0,
        [b'\'', behind @ ..] => 1 + text_length(behind),
        [b'-', b'-', behind @ ..] => 2 + comment_length(behind),
        _ => 1,
    }
}

/// Where the pieces of a script stand: what lies between its semicolons outside texts and comments.
///
/// A text runs from a `'` to the next one, or to the end of the script. A comment runs from `--`, outside a text, to
/// the next line feed or the end. There is one piece more than there are such semicolons, and no piece holds one.
/// A script has at most 67,108,864 bytes. Source: this project's own.
pub fn pieces(alloc: Global, text: &[u8]) -> Result<List<Place>, AllocError>
    requires { length text.now ≤ LONGEST_INPUT }
    ensures { IfOk result (λ places. places ≡ pieces_of text.now) }
{
    let mut places = List::new(alloc);
    let mut start = 0u32;
    let mut at = 0u32;
    while (at as usize) < text.len() {
        if text[at as usize] == b';' {
            places.push(Place { start, end: at })?;
            at += 1;
            start = at;
        } else {
            at += part_length(behind(text, at as usize)) as u32;
        }
    }
    places.push(Place { start, end: at })?;
    Ok(places)
}
