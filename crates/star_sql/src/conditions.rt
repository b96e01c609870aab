// Conditions, which are made of tests.
ghost use Rattle.std.specs.Prelude.{suc};
ghost use Rattle.star_sql.specs.Parsers.{Gives};
ghost use Rattle.star_sql.specs.ConditionParsers.{primary_at, conj_at, cond_at};

use crate::parser::Parse;
use crate::predicates::test;
use crate::sequences::list_of_one;
use crate::tokens_at::{found_mark, found_word, mark};
use crate::{Cond, Conj, ParseFault, Primary};
use blink_base::Boxed;
use star_lex::{Mark, Tokens};
use std::alloc::Global;

// A test, or a condition in parentheses, in which `depth` more parentheses may be open at once.
#[cycle(condition)]
#[tactic(auto, unfolding(crate::specs::ConditionParsers::primary_at, crate::specs::ConditionParsers::cond_at))]
fn primary<'a>(
    alloc: Global,
    depth: usize,
    tokens: &Tokens<'a>,
) -> Result<(Primary, Tokens<'a>), ParseFault>
    ensures { Gives (λ x. x) result (primary_at (cond_at depth) tokens.now) }
{
    let Some(behind) = found_mark(Mark::Left, tokens) else {
        let (test, rest) = test(alloc, tokens)?;
        return Ok((Primary::Test(test), rest));
    };
    if depth == 0 {
        return Err(ParseFault::Syntax);
    }
    let (inner, rest) = condition(alloc, depth - 1, &behind)?;
    let rest = mark(Mark::Right, &rest)?;
    Ok((Primary::Group(Boxed::new(alloc, inner)?), rest))
}

// Primaries with AND between them.
#[cycle(condition)]
#[tactic(auto, unfolding(crate::specs::ConditionParsers::conj_at, crate::specs::Parsers::separated_at))]
fn conjunction<'a>(
    alloc: Global,
    depth: usize,
    tokens: &Tokens<'a>,
) -> Result<(Conj, Tokens<'a>), ParseFault>
    ensures { Gives (λ x. x) result (conj_at (cond_at depth) tokens.now) }
{
    let (first, behind_first) = primary(alloc, depth, tokens)?;
    let mut all = list_of_one(alloc, first)?;
    let most = behind_first.len();
    let mut rest = behind_first;
    for _ in 0..most {
        let Some(behind) = found_word("and", &rest) else {
            return Ok((Conj { all }, rest));
        };
        let (item, after) = primary(alloc, depth, &behind)?;
        all.push(item)?;
        rest = after;
    }
    Ok((Conj { all }, rest))
}

// Conjunctions with OR between them.
#[cycle(condition)]
#[tactic(auto, unfolding(crate::specs::ConditionParsers::cond_at, crate::specs::Parsers::separated_at))]
fn condition<'a>(
    alloc: Global,
    depth: usize,
    tokens: &Tokens<'a>,
) -> Result<(Cond, Tokens<'a>), ParseFault>
    ensures { Gives (λ x. x) result (cond_at (suc depth) tokens.now) }
{
    let (first, behind_first) = conjunction(alloc, depth, tokens)?;
    let mut any = list_of_one(alloc, first)?;
    let most = behind_first.len();
    let mut rest = behind_first;
    for _ in 0..most {
        let Some(behind) = found_word("or", &rest) else {
            return Ok((Cond { any }, rest));
        };
        let (item, after) = conjunction(alloc, depth, &behind)?;
        any.push(item)?;
        rest = after;
    }
    Ok((Cond { any }, rest))
}

impl Parse for Cond {
    ghost use Rattle.star_sql.specs.ConditionParsers.{condition_at};

    ghost parses = { condition_at };

    // No more parentheses can be open than there are tokens.
    #[tactic(auto, unfolding(crate::specs::ConditionParsers::condition_at))]
    fn parse<'a>(alloc: Global, tokens: &Tokens<'a>) -> Result<(Cond, Tokens<'a>), ParseFault> {
        condition(alloc, tokens.len(), tokens)
    }
}
