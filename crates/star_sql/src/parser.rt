// The trait of what is parsed.
ghost use Rattle.star_sql.specs.Parsers.{Gives};

use crate::ParseFault;
use star_lex::Tokens;
use std::alloc::Global;

/// What can stand first in some tokens. Source: this project's own.
pub(crate) trait Parse: Sized {
    ghost use Rattle.std.specs.Prelude.{Option};
    ghost use Rattle.star_sql.specs.Spelling.{Spelled};

    /// What stands first in some tokens, and the tokens behind it.
    ghost parses: { Spelled → Option (Self × Spelled) };

    /// Takes it from the tokens.
    fn parse<'a>(alloc: Global, tokens: &Tokens<'a>) -> Result<(Self, Tokens<'a>), ParseFault>
        ensures { Gives (λ x. x) result (parses tokens.now) };
}
