// Columns as they are named.
ghost use Rattle.star_sql.specs.Parsers.{Gives};
ghost use Rattle.star_sql.specs.PredicateParsers.{column_behind};

use crate::parser::Parse;
use crate::tokens_at::found_mark;
use crate::{ColumnName, ParseFault};
use blink_base::Word;
use star_lex::{Mark, Tokens};
use std::alloc::Global;

// A column behind its first name.
#[tactic(auto, unfolding(crate::specs::PredicateParsers::column_behind))]
fn column_behind<'a>(
    alloc: Global,
    first: Word,
    tokens: &Tokens<'a>,
) -> Result<(ColumnName, Tokens<'a>), ParseFault>
    ensures { Gives (λ x. x) result (column_behind first tokens.now) }
{
    match found_mark(Mark::Dot, tokens) {
        Some(behind) => {
            let (column, rest) = Word::parse(alloc, &behind)?;
            Ok((
                ColumnName {
                    table: Some(first),
                    column,
                },
                rest,
            ))
        }
        None => Ok((
            ColumnName {
                table: None,
                column: first,
            },
            tokens.copy(),
        )),
    }
}

impl Parse for ColumnName {
    ghost use Rattle.star_sql.specs.PredicateParsers.{column_at};

    ghost parses = { column_at };

    #[tactic(auto, unfolding(crate::specs::PredicateParsers::column_at))]
    fn parse<'a>(
        alloc: Global,
        tokens: &Tokens<'a>,
    ) -> Result<(ColumnName, Tokens<'a>), ParseFault> {
        let (first, rest) = Word::parse(alloc, tokens)?;
        column_behind(alloc, first, &rest)
    }
}
