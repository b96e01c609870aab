// The tokens of a piece.
ghost use Rattle.std.specs.Prelude.{◌≡◌, ◌≢◌, ◌≤◌, ◌<◌, Err, IfOk, length};
ghost use Rattle.blink_base.specs.declared.limits.TheConstants.{LONGEST_INPUT};
ghost use Rattle.star_lex.specs.declared.token.LexFault.TheVariants.{Memory};
ghost use Rattle.star_lex.specs.Lex.{Lexes, lexed, front_length, front_content};

use crate::contents::{name, other, text};
use crate::lengths::front_length;
use crate::name_bytes::begins_name;
use crate::numbers::number;
use crate::piece_spans::behind;
use crate::{LexFault, Token, TokenKind};
use blink_base::List;
use std::alloc::Global;

// The content of what begins at the front of the bytes from a place on: none of white space, or a token's kind.
pub(crate) fn front_content(
    alloc: Global,
    left: &[u8],
    size: usize,
    at: u32,
) -> Result<Option<TokenKind>, LexFault>
    requires some { 0 < length left.now }
    requires within { size ≤ length left.now }
    requires front { size ≡ front_length left.now }
    ensures { result ≢ Err Memory → result ≡ front_content size at left.now }
{
    let front = &left[..size];
    let first = left[0];
    if begins_name(first) {
        return Ok(Some(name(alloc, front)?));
    }
    if first.is_ascii_digit() {
        return number(front, at);
    }
    if first != b'\'' {
        return other(front, at);
    }
    if size == 0 {
        return Err(LexFault::OpenText { at });
    }
    text(alloc, front, at)
}

/// The tokens of a piece of at most 67,108,864 bytes, each the longest form at its place, or its first fault.
///
/// White space is a space, a tab, a line feed, a carriage return, and a comment: `--` and what follows up to the next
/// line feed or the end. A text's quotes are doubled inside it, and it ends at a quote that no quote follows.
/// [`LexFault::OpenText`] comes exactly where the first fault is a text that isn't closed, [`LexFault::LongNumber`]
/// where it is a number with too many digits, and [`LexFault::BadByte`] where it is any other byte, `;` too, that
/// begins no token, or a text that is no UTF-8. [`LexFault::Memory`] comes for want of memory alone. There are no more
/// tokens than bytes.
/// Source: ISO/IEC 9075 (lexical elements), in this project's own profile.
pub fn tokens(alloc: Global, text: &[u8]) -> Result<List<Token>, LexFault>
    requires { length text.now ≤ LONGEST_INPUT }
    ensures lexes { result ≢ Err Memory → Lexes text.now 0 result }
    ensures computed { result ≢ Err Memory → result ≡ lexed text.now }
    ensures few { IfOk result (λ tokens. length tokens ≤ length text.now) }
{
    let mut tokens = List::new(alloc);
    let mut at = 0u32;
    while (at as usize) < text.len() {
        let left = behind(text, at as usize);
        let size = front_length(left);
        let end = at + size as u32;
        if let Some(kind) = front_content(alloc, left, size, at)? {
            tokens.push(Token {
                kind,
                start: at,
                end,
            })?;
        }
        at = end;
    }
    Ok(tokens)
}
