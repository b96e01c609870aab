// SELECT.
ghost use Rattle.std.specs.Prelude.{◌≡◌, Some};
ghost use Rattle.star_sql.specs.Parsers.{Gives};
ghost use Rattle.star_sql.specs.QueryParsers.{way_at, select_at};

use crate::parser::Parse;
use crate::sequences::{listed, listed_by, optional};
use crate::tokens_at::{found_word, word};
use crate::{ColumnName, Cond, Item, OrderKey, ParseFault, Select, Way};
use blink_base::Word;
use star_lex::Tokens;
use std::alloc::Global;

// What stands behind the key.
#[tactic(auto, unfolding(crate::specs::QueryParsers::way_at))]
fn way<'a>(tokens: &Tokens<'a>) -> (Way, Tokens<'a>)
    ensures { way_at tokens.now ≡ Some (result.0, result.1) }
{
    if let Some(rest) = found_word("asc", tokens) {
        return (Way::Asc, rest);
    }
    match found_word("desc", tokens) {
        Some(rest) => (Way::Desc, rest),
        None => (Way::Plain, tokens.copy()),
    }
}

impl Parse for OrderKey {
    ghost use Rattle.star_sql.specs.QueryParsers.{order_at};

    ghost parses = { order_at };

    #[tactic(auto, unfolding(crate::specs::QueryParsers::order_at))]
    fn parse<'a>(alloc: Global, tokens: &Tokens<'a>) -> Result<(OrderKey, Tokens<'a>), ParseFault> {
        let (column, rest) = ColumnName::parse(alloc, tokens)?;
        let (way, rest) = way(&rest);
        Ok((OrderKey { column, way }, rest))
    }
}

// What stands behind the word SELECT.
#[tactic(auto, unfolding(crate::specs::QueryParsers::select_at, crate::specs::QueryParsers::end_at))]
pub(crate) fn select<'a>(
    alloc: Global,
    tokens: &Tokens<'a>,
) -> Result<(Select, Tokens<'a>), ParseFault>
    ensures { Gives (λ x. x) result (select_at tokens.now) }
{
    let (items, rest) = listed::<Item>(alloc, tokens)?;
    let (tables, rest) = listed::<Word>(alloc, &word("from", &rest)?)?;
    let (condition, rest) = optional::<Cond>(alloc, "where", &rest)?;
    let (groups, rest) = listed_by::<ColumnName>(alloc, "group", &rest)?;
    let (order, rest) = listed_by::<OrderKey>(alloc, "order", &rest)?;
    let (limit, rest) = optional::<u64>(alloc, "limit", &rest)?;
    Ok((
        Select {
            items,
            tables,
            condition,
            groups,
            order,
            limit,
        },
        rest,
    ))
}
