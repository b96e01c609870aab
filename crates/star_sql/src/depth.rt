// How many parentheses are open at once.
ghost use Rattle.std.specs.Prelude.{◌≡◌};
ghost use Rattle.star_sql.specs.ParseResult.{is_deep};

use blink_base::MOST_OPEN;
use star_lex::{Mark, Tokens};

// Whether more parentheses are open at once than may be.
pub(crate) fn is_deep(tokens: &Tokens<'_>) -> bool
    ensures { result ≡ is_deep tokens.now }
{
    let mut opened = 0usize;
    let mut closed = 0usize;
    let mut rest = tokens.copy();
    for _ in 0..tokens.len() {
        match rest.mark() {
            Some(Mark::Left) => opened += 1,
            Some(Mark::Right) => closed += 1,
            _ => {}
        }
        if MOST_OPEN < opened.saturating_sub(closed) {
            return true;
        }
        rest = rest.behind();
    }
    false
}
