// Why tokens are no statement.
ghost use Rattle.std.specs.Prelude.{◌≡◌};
ghost use Rattle.star_sql.specs.declared.fault.ParseFault.TheVariants.{Memory};

use std::alloc::AllocError;
use thiserror::Error;

/// Why tokens are no statement. Source: this project's own.
#[derive(Clone, Copy, Debug, PartialEq, Eq, Error)]
pub enum ParseFault {
    /// In some prefix `(` stands more than 32 times oftener than `)`.
    #[error("too many parentheses are open at once")]
    Deep,
    /// No statement has this spelling.
    #[error("no statement is spelled so")]
    Syntax,
    /// There was not enough memory.
    #[error("not enough memory")]
    Memory,
}

impl From<AllocError> for ParseFault {
    ghost from_gives = { λ _ e. e ≡ Memory };

    fn from(_error: AllocError) -> ParseFault {
        ParseFault::Memory
    }
}
