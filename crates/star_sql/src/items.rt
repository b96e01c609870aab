// The items of SELECT.
ghost use Rattle.star_sql.specs.Parsers.{Gives};
ghost use Rattle.star_sql.specs.QueryParsers.{joined_at, aggregate_at, what_at};

use crate::parser::Parse;
use crate::sequences::{inside, optional};
use crate::tokens_at::{found_mark, mark};
use crate::{ColumnName, Expr, Item, ParseFault, What};
use blink_base::{Boxed, Word};
use star_lex::{Mark, TokenKind, Tokens};
use std::alloc::Global;

// An expression that begins with this column.
#[tactic(auto, unfolding(crate::specs::QueryParsers::joined_at))]
fn joined<'a>(
    alloc: Global,
    first: ColumnName,
    tokens: &Tokens<'a>,
) -> Result<(Expr, Tokens<'a>), ParseFault>
    ensures { Gives (λ x. x) result (joined_at first tokens.now) }
{
    if let Some(behind) = found_mark(Mark::Star, tokens) {
        let (second, rest) = ColumnName::parse(alloc, &behind)?;
        return Ok((Expr::Times(first, second), rest));
    }
    if let Some(behind) = found_mark(Mark::Plus, tokens) {
        let (second, rest) = ColumnName::parse(alloc, &behind)?;
        return Ok((Expr::Plus(first, second), rest));
    }
    if let Some(behind) = found_mark(Mark::Minus, tokens) {
        let (second, rest) = ColumnName::parse(alloc, &behind)?;
        return Ok((Expr::Minus(first, second), rest));
    }
    Ok((Expr::One(first), tokens.copy()))
}

impl Parse for Expr {
    ghost use Rattle.star_sql.specs.QueryParsers.{expr_at};

    ghost parses = { expr_at };

    #[tactic(auto, unfolding(crate::specs::QueryParsers::expr_at))]
    fn parse<'a>(alloc: Global, tokens: &Tokens<'a>) -> Result<(Expr, Tokens<'a>), ParseFault> {
        let (first, rest) = ColumnName::parse(alloc, tokens)?;
        joined(alloc, first, &rest)
    }
}

// What stands behind the word of an aggregate.
#[tactic(auto, unfolding(crate::specs::QueryParsers::aggregate_at, crate::specs::QueryParsers::star_at))]
fn aggregate<'a>(
    alloc: Global,
    word: &str,
    tokens: &Tokens<'a>,
) -> Result<(What, Tokens<'a>), ParseFault>
    ensures { Gives (λ x. x) result (aggregate_at word.now tokens.now) }
{
    match word {
        "count" => {
            let rest = mark(Mark::Star, &mark(Mark::Left, tokens)?)?;
            Ok((What::Count, mark(Mark::Right, &rest)?))
        }
        "sum" => {
            let (expr, rest) = inside::<Expr>(alloc, tokens)?;
            Ok((What::Sum(Boxed::new(alloc, expr)?), rest))
        }
        "avg" => {
            let (expr, rest) = inside::<Expr>(alloc, tokens)?;
            Ok((What::Avg(Boxed::new(alloc, expr)?), rest))
        }
        "min" => {
            let (column, rest) = inside::<ColumnName>(alloc, tokens)?;
            Ok((What::Min(column), rest))
        }
        "max" => {
            let (column, rest) = inside::<ColumnName>(alloc, tokens)?;
            Ok((What::Max(column), rest))
        }
        _ => Err(ParseFault::Syntax),
    }
}

// A column or an aggregate.
#[tactic(auto, unfolding(crate::specs::QueryParsers::what_at), using(crate::proofs::FrontLemmas::what_plain))]
fn what<'a>(alloc: Global, tokens: &Tokens<'a>) -> Result<(What, Tokens<'a>), ParseFault>
    ensures { Gives (λ x. x) result (what_at tokens.now) }
{
    let behind = tokens.behind();
    if found_mark(Mark::Left, &behind).is_some() {
        let Some((kind, _)) = tokens.next(alloc)? else {
            return Err(ParseFault::Syntax);
        };
        return match kind {
            TokenKind::Name(word) => aggregate(alloc, word.as_str(), &behind),
            _ => Err(ParseFault::Syntax),
        };
    }
    let (column, rest) = ColumnName::parse(alloc, tokens)?;
    Ok((What::Column(column), rest))
}

impl Parse for Item {
    ghost use Rattle.star_sql.specs.QueryParsers.{item_at};

    ghost parses = { item_at };

    #[tactic(auto, unfolding(crate::specs::QueryParsers::item_at))]
    fn parse<'a>(alloc: Global, tokens: &Tokens<'a>) -> Result<(Item, Tokens<'a>), ParseFault> {
        let (what, rest) = what(alloc, tokens)?;
        let (name, rest) = optional::<Word>(alloc, "as", &rest)?;
        Ok((Item { what, name }, rest))
    }
}
