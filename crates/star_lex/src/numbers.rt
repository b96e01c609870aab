// Numbers from their digits.
ghost use Rattle.std.specs.Prelude.{◌≡◌, ◌<◌, IsTrue, length, option_map};
ghost use Rattle.std.specs.List.{list_all};
ghost use Rattle.std.specs.Char.{is_ascii_digit};
ghost use Rattle.blink_base.specs.ReadValue.{whole_number};
ghost use Rattle.star_lex.specs.Forms.{content_of, a_number};
ghost use Rattle.star_lex.specs.declared.token.TokenKind.TheVariants.{Number};

use crate::{LexFault, TokenKind};
use blink_base::whole_number;

// The whole number that bytes say, as a token.
fn number_token(bytes: &[u8]) -> Option<TokenKind>
    ensures { result ≡ option_map Number (whole_number bytes.now) }
{
    match whole_number(bytes) {
        Some(number) => Some(TokenKind::Number(number)),
        None => None,
    }
}

// The content of a number that begins at a place.
pub(crate) fn number(digits: &[u8], at: u32) -> Result<Option<TokenKind>, LexFault>
    requires some { 0 < length digits.now }
    requires all { IsTrue (list_all is_ascii_digit digits.now) }
    ensures { result ≡ content_of a_number digits.now at }
{
    match number_token(digits) {
        Some(token) => Ok(Some(token)),
        None => Err(LexFault::LongNumber { at }),
    }
}
