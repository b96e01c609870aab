// What a token of a list says.
ghost use Rattle.std.specs.Prelude.{◌≡◌, ◌∷◌, IfOk, List};
ghost use Rattle.star_lex.specs.declared.token.TokenKind.{TokenKind};
ghost use Rattle.star_lex.specs.Kinds.{first_mark, is_word};

use crate::{Mark, TokenKind};
use std::alloc::{AllocError, Global};

// The mark that a token is.
pub(crate) fn mark_of(kind: &TokenKind) -> Option<Mark>
    ensures { (more : List TokenKind) → result ≡ first_mark (kind.now ∷ more) }
{
    match kind {
        TokenKind::Symbol(mark) => Some(*mark),
        _ => None,
    }
}

// Whether a token is this word.
pub(crate) fn is_word(word: &str, kind: &TokenKind) -> bool
    ensures { result ≡ is_word word.now kind.now }
{
    match kind {
        TokenKind::Name(name) => name.as_str() == word,
        _ => false,
    }
}

// What a token says, once more.
pub(crate) fn copied(alloc: Global, kind: &TokenKind) -> Result<TokenKind, AllocError>
    ensures { IfOk result (λ copy. copy ≡ kind.now) }
{
    match kind {
        TokenKind::Name(name) => Ok(TokenKind::Name(name.copy(alloc)?)),
        TokenKind::Number(number) => Ok(TokenKind::Number(*number)),
        TokenKind::Text(text) => Ok(TokenKind::Text(text.copy(alloc)?)),
        TokenKind::Symbol(mark) => Ok(TokenKind::Symbol(*mark)),
    }
}
