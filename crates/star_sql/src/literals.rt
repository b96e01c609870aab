// Numbers, texts and dates as they are written.
ghost use Rattle.std.specs.Prelude.{◌≡◌, true};
ghost use Rattle.star_sql.specs.Parsers.{Gives, number_at, date_at, plain_at};
ghost use Rattle.star_sql.specs.WellFormed.{is_written_number};

use crate::parser::Parse;
use crate::sequences::enclosed;
use crate::tokens_at::{found_mark, text};
use crate::{Literal, ParseFault};
use blink_base::{List, NUMBER_BOUND};
use star_lex::{Mark, TokenKind, Tokens};
use std::alloc::Global;

fn is_written_number(value: i64) -> bool
    ensures { result ≡ is_written_number value }
{
    0 <= value && value < NUMBER_BOUND
}

// A number behind a minus.
#[tactic(auto, unfolding(crate::specs::Parsers::number_at))]
fn negative<'a>(alloc: Global, tokens: &Tokens<'a>) -> Result<(Literal, Tokens<'a>), ParseFault>
    ensures { Gives (λ x. x) result (number_at true tokens.now) }
{
    let Some((kind, rest)) = tokens.next(alloc)? else {
        return Err(ParseFault::Syntax);
    };
    match kind {
        TokenKind::Number(value) if is_written_number(value) => {
            Ok((Literal::Number { minus: true, value }, rest))
        }
        _ => Err(ParseFault::Syntax),
    }
}

#[tactic(auto, unfolding(crate::specs::Parsers::date_at))]
fn date<'a>(alloc: Global, tokens: &Tokens<'a>) -> Result<(Literal, Tokens<'a>), ParseFault>
    ensures { Gives (λ x. x) result (date_at tokens.now) }
{
    let (date, rest) = text(alloc, tokens)?;
    Ok((Literal::Date(date), rest))
}

// A literal without minus.
#[tactic(auto, unfolding(crate::specs::Parsers::plain_at, crate::specs::Parsers::number_at))]
fn plain<'a>(alloc: Global, tokens: &Tokens<'a>) -> Result<(Literal, Tokens<'a>), ParseFault>
    ensures { Gives (λ x. x) result (plain_at tokens.now) }
{
    let Some((kind, rest)) = tokens.next(alloc)? else {
        return Err(ParseFault::Syntax);
    };
    match kind {
        TokenKind::Name(word) => {
            if word.as_str() == "date" {
                date(alloc, &rest)
            } else {
                Err(ParseFault::Syntax)
            }
        }
        TokenKind::Number(value) => {
            if is_written_number(value) {
                Ok((
                    Literal::Number {
                        minus: false,
                        value,
                    },
                    rest,
                ))
            } else {
                Err(ParseFault::Syntax)
            }
        }
        TokenKind::Text(word) => Ok((Literal::Text(word), rest)),
        TokenKind::Symbol(_) => Err(ParseFault::Syntax),
    }
}

impl Parse for Literal {
    ghost use Rattle.star_sql.specs.Parsers.{literal_at};

    ghost parses = { literal_at };

    #[tactic(auto, unfolding(crate::specs::Parsers::literal_at))]
    fn parse<'a>(alloc: Global, tokens: &Tokens<'a>) -> Result<(Literal, Tokens<'a>), ParseFault> {
        match found_mark(Mark::Minus, tokens) {
            Some(rest) => negative(alloc, &rest),
            None => plain(alloc, tokens),
        }
    }
}

impl Parse for List<Literal> {
    ghost use Rattle.star_sql.specs.Parsers.{enclosed_at, literal_at};

    ghost parses = { enclosed_at literal_at };

    fn parse<'a>(
        alloc: Global,
        tokens: &Tokens<'a>,
    ) -> Result<(List<Literal>, Tokens<'a>), ParseFault> {
        enclosed(alloc, tokens)
    }
}

// The number of LIMIT.
impl Parse for u64 {
    ghost use Rattle.star_sql.specs.Parsers.{limit_at};

    ghost parses = { limit_at };

    #[tactic(auto, unfolding(crate::specs::Parsers::limit_at))]
    fn parse<'a>(alloc: Global, tokens: &Tokens<'a>) -> Result<(u64, Tokens<'a>), ParseFault> {
        let Some((kind, rest)) = tokens.next(alloc)? else {
            return Err(ParseFault::Syntax);
        };
        match kind {
            TokenKind::Number(value) if 0 <= value && value < NUMBER_BOUND => {
                Ok((value as u64, rest))
            }
            _ => Err(ParseFault::Syntax),
        }
    }
}
