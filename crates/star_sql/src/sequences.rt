// Lists with a comma between each two members.
ghost use Rattle.std.specs.Prelude.{◌≡◌, [], ◌∷◌, IfOk, length};
ghost use Rattle.star_sql.specs.Parsers.{Gives, is_mark, with_first, more_at, listed_at, inside_at, enclosed_at, optional_at, by_at};

use crate::ParseFault;
use crate::parser::Parse;
use crate::tokens_at::{found_mark, found_word, mark, word};
use blink_base::List;
use star_lex::{Mark, Tokens};
use std::alloc::{AllocError, Global};

// The list of one item, with room for no more: most lists of a statement have one.
pub(crate) fn list_of_one<T: Drop>(alloc: Global, item: T) -> Result<List<T>, AllocError>
    ensures { IfOk result (λ list. list ≡ item ∷ []) }
{
    let mut items = Vec::with_capacity(alloc, 1)?;
    items.push(item)?;
    Ok(List::from_vec(items))
}

// The first member, and the further ones, each behind a comma.
fn more<'a, T: Parse + Drop>(
    alloc: Global,
    first: T,
    tokens: &Tokens<'a>,
) -> Result<(List<T>, Tokens<'a>), ParseFault>
    ensures { Gives (λ x. x) result (with_first first (more_at (is_mark Mark.Comma) T.parses (length tokens.now) tokens.now)) }
{
    let mut items = list_of_one(alloc, first)?;
    let mut rest = tokens.copy();
    for _ in 0..tokens.len() {
        let Some(behind) = found_mark(Mark::Comma, &rest) else {
            return Ok((items, rest));
        };
        let (item, after) = T::parse(alloc, &behind)?;
        items.push(item)?;
        rest = after;
    }
    Ok((items, rest))
}

#[tactic(auto, unfolding(crate::specs::Parsers::separated_at))]
pub(crate) fn listed<'a, T: Parse + Drop>(
    alloc: Global,
    tokens: &Tokens<'a>,
) -> Result<(List<T>, Tokens<'a>), ParseFault>
    ensures { Gives (λ x. x) result (listed_at T.parses tokens.now) }
{
    let (first, rest) = T::parse(alloc, tokens)?;
    more(alloc, first, &rest)
}

pub(crate) fn enclosed<'a, T: Parse + Drop>(
    alloc: Global,
    tokens: &Tokens<'a>,
) -> Result<(List<T>, Tokens<'a>), ParseFault>
    ensures { Gives (λ x. x) result (enclosed_at T.parses tokens.now) }
{
    let inside = mark(Mark::Left, tokens)?;
    let (items, rest) = listed(alloc, &inside)?;
    Ok((items, mark(Mark::Right, &rest)?))
}

// What stands in parentheses.
pub(crate) fn inside<'a, T: Parse + Drop>(
    alloc: Global,
    tokens: &Tokens<'a>,
) -> Result<(T, Tokens<'a>), ParseFault>
    ensures { Gives (λ x. x) result (inside_at T.parses tokens.now) }
{
    let (item, rest) = T::parse(alloc, &mark(Mark::Left, tokens)?)?;
    Ok((item, mark(Mark::Right, &rest)?))
}

// A word and what stands behind it, where the word is there.
pub(crate) fn optional<'a, T: Parse + Drop>(
    alloc: Global,
    first: &str,
    tokens: &Tokens<'a>,
) -> Result<(Option<T>, Tokens<'a>), ParseFault>
    ensures { Gives (λ x. x) result (optional_at first.now T.parses tokens.now) }
{
    match found_word(first, tokens) {
        Some(behind) => {
            let (item, rest) = T::parse(alloc, &behind)?;
            Ok((Some(item), rest))
        }
        None => Ok((None, tokens.copy())),
    }
}

// A list behind a word and BY, where the word is there.
pub(crate) fn listed_by<'a, T: Parse + Drop>(
    alloc: Global,
    first: &str,
    tokens: &Tokens<'a>,
) -> Result<(List<T>, Tokens<'a>), ParseFault>
    ensures { Gives (λ x. x) result (by_at first.now T.parses tokens.now) }
{
    match found_word(first, tokens) {
        Some(behind) => listed(alloc, &word("by", &behind)?),
        None => Ok((List::new(alloc), tokens.copy())),
    }
}
