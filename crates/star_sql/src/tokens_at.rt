// What stands first in some tokens, and the tokens behind it: words, marks, names, texts and kinds.
ghost use Rattle.std.specs.Prelude.{◌≡◌};
ghost use Rattle.star_lex.specs.Kinds.{is_word, begins_with};
ghost use Rattle.star_sql.specs.Parsers.{Finds, Gives, behind, is_mark, text_at, kind_at, key_at};

use crate::ParseFault;
use crate::parser::Parse;
use crate::words::{is_name, kind_of_word};
use blink_base::{Kind, Word};
use star_lex::{Mark, TokenKind, Tokens};
use std::alloc::Global;

#[tactic(auto, using(crate::proofs::FrontLemmas::begun, crate::proofs::FrontLemmas::not_begun))]
pub(crate) fn found_word<'a>(word: &str, tokens: &Tokens<'a>) -> Option<Tokens<'a>>
    ensures { Finds (λ r. r) result (behind (is_word word.now) tokens.now) }
{
    if tokens.is_word(word) {
        Some(tokens.behind())
    } else {
        None
    }
}

pub(crate) fn word<'a>(word: &str, tokens: &Tokens<'a>) -> Result<Tokens<'a>, ParseFault>
    ensures { Gives (λ r. r) result (behind (is_word word.now) tokens.now) }
{
    found_word(word, tokens).ok_or(ParseFault::Syntax)
}

// Whether this mark stands first.
fn is_mark(mark: Mark, tokens: &Tokens<'_>) -> bool
    ensures { result ≡ begins_with (is_mark mark) tokens.now }
{
    match tokens.mark() {
        Some(found) => mark == found,
        None => false,
    }
}

#[tactic(auto, using(crate::proofs::FrontLemmas::begun, crate::proofs::FrontLemmas::not_begun))]
pub(crate) fn found_mark<'a>(mark: Mark, tokens: &Tokens<'a>) -> Option<Tokens<'a>>
    ensures { Finds (λ r. r) result (behind (is_mark mark) tokens.now) }
{
    if is_mark(mark, tokens) {
        Some(tokens.behind())
    } else {
        None
    }
}

pub(crate) fn mark<'a>(mark: Mark, tokens: &Tokens<'a>) -> Result<Tokens<'a>, ParseFault>
    ensures { Gives (λ r. r) result (behind (is_mark mark) tokens.now) }
{
    found_mark(mark, tokens).ok_or(ParseFault::Syntax)
}

impl Parse for Word {
    ghost use Rattle.star_sql.specs.Parsers.{name_at};

    ghost parses = { name_at };

    #[tactic(auto, unfolding(crate::specs::Parsers::name_at))]
    fn parse<'a>(alloc: Global, tokens: &Tokens<'a>) -> Result<(Word, Tokens<'a>), ParseFault> {
        let Some((kind, rest)) = tokens.next(alloc)? else {
            return Err(ParseFault::Syntax);
        };
        match kind {
            TokenKind::Name(word) => {
                if is_name(word.as_str()) {
                    Ok((word, rest))
                } else {
                    Err(ParseFault::Syntax)
                }
            }
            _ => Err(ParseFault::Syntax),
        }
    }
}

#[tactic(auto, unfolding(crate::specs::Parsers::text_at))]
pub(crate) fn text<'a>(alloc: Global, tokens: &Tokens<'a>) -> Result<(Word, Tokens<'a>), ParseFault>
    ensures { Gives (λ x. x) result (text_at tokens.now) }
{
    let Some((kind, rest)) = tokens.next(alloc)? else {
        return Err(ParseFault::Syntax);
    };
    match kind {
        TokenKind::Text(word) => Ok((word, rest)),
        _ => Err(ParseFault::Syntax),
    }
}

#[tactic(auto, unfolding(crate::specs::Parsers::kind_at))]
pub(crate) fn kind<'a>(alloc: Global, tokens: &Tokens<'a>) -> Result<(Kind, Tokens<'a>), ParseFault>
    ensures { Gives (λ x. x) result (kind_at tokens.now) }
{
    let Some((kind, rest)) = tokens.next(alloc)? else {
        return Err(ParseFault::Syntax);
    };
    match kind {
        TokenKind::Name(word) => match kind_of_word(word.as_str()) {
            Some(kind) => Ok((kind, rest)),
            None => Err(ParseFault::Syntax),
        },
        _ => Err(ParseFault::Syntax),
    }
}

#[tactic(auto, unfolding(crate::specs::Parsers::key_at))]
pub(crate) fn key<'a>(tokens: &Tokens<'a>) -> Result<(bool, Tokens<'a>), ParseFault>
    ensures { Gives (λ x. x) result (key_at tokens.now) }
{
    match found_word("primary", tokens) {
        Some(rest) => Ok((true, word("key", &rest)?)),
        None => Ok((false, tokens.copy())),
    }
}
