// The first token of a text, and the white space before it.
ghost use Rattle.std.specs.Prelude.{◌≡◌, ◌≤◌, ◌<◌, ◌∷◌, false, true, IfOk, List, drop, length};
ghost use Rattle.std.specs.Str.{bytes_eq, str_to_ascii_lowercase};
ghost use Rattle.blink_base.specs.declared.limits.TheConstants.{LONGEST_INPUT};
ghost use Rattle.star_lex.specs.declared.token.TokenKind.{TokenKind};
ghost use Rattle.star_lex.specs.Forms.{is_blank_byte};
ghost use Rattle.star_lex.specs.Kinds.{first_mark, is_word};
ghost use Rattle.star_lex.specs.Lex.{front_length};
ghost use Rattle.star_lex.specs.TextKinds.{SaysFirst, begins_blank, begins_comment, blank_length, kinds_in};

use crate::lengths::{front_length, mark_of_bytes};
use crate::lexer::front_content;
use crate::name_bytes::begins_name;
use crate::piece_spans::{behind, comment_length};
use crate::{Mark, TokenKind};
use std::alloc::{AllocError, Global};

// Whether a byte is white space.
fn is_blank_byte(byte: u8) -> bool
    ensures { result ≡ is_blank_byte byte }
{
    matches!(byte, b' ' | b'\t' | b'\n' | b'\r')
}

// Whether two dashes stand in front.
fn begins_comment(text: &[u8]) -> bool
    ensures value { result ≡ begins_comment text.now }
    ensures within { result ≡ true → 2 ≤ length text.now }
{
    matches!(text, [b'-', b'-', ..])
}

// The length of the white space in front: one byte, or a comment.
fn blank_length(text: &[u8]) -> usize
    requires { length text.now ≤ LONGEST_INPUT }
    ensures value { result ≡ blank_length text.now }
    ensures within { result ≤ length text.now }
{
    if text.is_empty() {
        return 0;
    }
    if is_blank_byte(text[0]) {
        return 1;
    }
    if begins_comment(text) {
        return 2 + comment_length(behind(text, 2));
    }
    0
}

// The text from its first token on.
pub(crate) fn from_first(text: &[u8]) -> &[u8]
    requires { length text.now ≤ LONGEST_INPUT }
    ensures said { kinds_in result.now ≡ kinds_in text.now }
    ensures begun { begins_blank result.now ≡ false }
    ensures within { length result.now ≤ length text.now }
{
    let mut at = 0;
    loop {
        let left = behind(text, at);
        let size = blank_length(left);
        if size == 0 {
            return left;
        }
        at += size;
    }
}

// The text from its second token on.
pub(crate) fn behind_first(text: &[u8]) -> &[u8]
    requires { length text.now ≤ LONGEST_INPUT }
    ensures said { kinds_in result.now ≡ kinds_in (drop (front_length text.now) text.now) }
    ensures begun { begins_blank result.now ≡ false }
    ensures within { length result.now ≤ length text.now }
{
    from_first(behind(text, front_length(text)))
}

// The mark that a text begins with.
pub(crate) fn mark_in_front(text: &[u8]) -> Option<Mark>
    requires { length text.now ≤ LONGEST_INPUT }
    ensures { (kind : TokenKind) (more : List TokenKind) → SaysFirst text.now kind → result ≡ first_mark (kind ∷ more) }
{
    if text.is_empty() {
        return None;
    }
    let first = text[0];
    if begins_name(first) || first.is_ascii_digit() || first == b'\'' {
        return None;
    }
    mark_of_bytes(&text[..front_length(text)])
}

// Whether bytes with letters A to Z made small are this word.
fn is_lowered(bytes: &[u8], word: &[u8]) -> bool
    ensures { result ≡ bytes_eq (str_to_ascii_lowercase bytes.now) word.now }
{
    if bytes.len() != word.len() {
        return false;
    }
    for (at, b) in bytes.iter().enumerate() {
        if b.to_ascii_lowercase() != word[at] {
            return false;
        }
    }
    true
}

// Whether a text begins with a name that is this word.
pub(crate) fn is_word_in_front(text: &[u8], word: &str) -> bool
    requires { length text.now ≤ LONGEST_INPUT }
    ensures { (kind : TokenKind) → SaysFirst text.now kind → result ≡ is_word word.now kind }
{
    if text.is_empty() {
        return false;
    }
    if !begins_name(text[0]) {
        return false;
    }
    is_lowered(&text[..front_length(text)], word.as_bytes())
}

// What the first token of a text says.
pub(crate) fn kind_in_front(alloc: Global, text: &[u8]) -> Result<TokenKind, AllocError>
    requires short { length text.now ≤ LONGEST_INPUT }
    requires some { 0 < length text.now }
    requires begun { begins_blank text.now ≡ false }
    ensures { IfOk result (λ kind. SaysFirst text.now kind) }
{
    match front_content(alloc, text, front_length(text), 0) {
        Ok(Some(kind)) => Ok(kind),
        Ok(None) => unreachable!(),
        Err(_) => Err(AllocError),
    }
}
