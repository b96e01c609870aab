// How many tokens a piece has.
ghost use Rattle.std.specs.Prelude.{◌≡◌, ◌≢◌, ◌≤◌, ◌<◌, Err, IfOk, length};
ghost use Rattle.blink_base.specs.declared.limits.TheConstants.{LONGEST_INPUT};
ghost use Rattle.star_lex.specs.declared.token.LexFault.TheVariants.{Memory};
ghost use Rattle.star_lex.specs.Lex.{front_content, front_length, lexed};
ghost use Rattle.star_lex.specs.TextKinds.{count_or_fault, counted_or_fault};

use crate::LexFault;
use crate::lengths::front_length;
use crate::lexer::front_content;
use crate::piece_spans::behind;
use std::alloc::Global;

// One where a token begins at the front of the bytes from a place on, none where white space does, or the fault there.
fn counted(alloc: Global, left: &[u8], size: usize, at: u32) -> Result<usize, LexFault>
    requires some { 0 < length left.now }
    requires within { size ≤ length left.now }
    requires front { size ≡ front_length left.now }
    ensures counts { result ≢ Err Memory → result ≡ counted_or_fault (front_content size at left.now) }
    ensures most { IfOk result (λ counted. counted ≤ 1) }
{
    match front_content(alloc, left, size, at) {
        Ok(None) => Ok(0),
        Ok(Some(_)) => Ok(1),
        Err(fault) => Err(fault),
    }
}

// How many tokens a piece has, or its first fault.
pub(crate) fn count(alloc: Global, text: &[u8]) -> Result<usize, LexFault>
    requires { length text.now ≤ LONGEST_INPUT }
    ensures counts { result ≢ Err Memory → result ≡ count_or_fault (lexed text.now) }
    ensures few { IfOk result (λ count. count ≤ length text.now) }
{
    let mut count = 0;
    let mut at = 0u32;
    while (at as usize) < text.len() {
        let left = behind(text, at as usize);
        let size = front_length(left);
        count += counted(alloc, left, size, at)?;
        at += size as u32;
    }
    Ok(count)
}
