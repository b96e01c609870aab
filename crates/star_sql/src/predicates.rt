// Tests of columns.
ghost use Rattle.std.specs.Prelude.{◌≡◌};
ghost use Rattle.star_sql.specs.Parsers.{Gives};
ghost use Rattle.star_sql.specs.PredicateParsers.{op_of, compared_at, bounds_at, worded_at, tested_at, test_at};

use crate::parser::Parse;
use crate::sequences::enclosed;
use crate::tokens_at::{text, word};
use crate::{ColumnName, Literal, ParseFault, TestWords};
use blink_base::Op;
use star_lex::{Mark, TokenKind, Tokens};
use std::alloc::Global;

// The comparison that a mark says.
fn op_of(mark: Mark) -> Option<Op>
    ensures { result ≡ op_of mark }
{
    match mark {
        Mark::Equal => Some(Op::Equal),
        Mark::Unequal => Some(Op::Unequal),
        Mark::Less => Some(Op::Less),
        Mark::LessEqual => Some(Op::LessEqual),
        Mark::Greater => Some(Op::Greater),
        Mark::GreaterEqual => Some(Op::GreaterEqual),
        _ => None,
    }
}

// A comparison with a literal, where one stands there, or else with a column.
#[tactic(auto, unfolding(crate::specs::PredicateParsers::compared_at))]
fn compared<'a>(
    alloc: Global,
    left: ColumnName,
    op: Op,
    tokens: &Tokens<'a>,
) -> Result<(TestWords, Tokens<'a>), ParseFault>
    ensures { Gives (λ x. x) result (compared_at left op tokens.now) }
{
    match Literal::parse(alloc, tokens) {
        Ok((literal, rest)) => Ok((
            TestWords::Compare {
                column: left,
                op,
                literal,
            },
            rest,
        )),
        Err(ParseFault::Syntax) => {
            let (right, rest) = ColumnName::parse(alloc, tokens)?;
            Ok((TestWords::Columns { left, op, right }, rest))
        }
        Err(fault) => Err(fault),
    }
}

// Two literals with AND between them.
#[tactic(auto, unfolding(crate::specs::PredicateParsers::bounds_at))]
fn bounds<'a>(
    alloc: Global,
    tokens: &Tokens<'a>,
) -> Result<(Literal, Literal, Tokens<'a>), ParseFault>
    ensures { Gives (λ x. ((x.0, x.1), x.2)) result (bounds_at tokens.now) }
{
    let (low, rest) = Literal::parse(alloc, tokens)?;
    let (high, rest) = Literal::parse(alloc, &word("and", &rest)?)?;
    Ok((low, high, rest))
}

// What stands behind the word of a test.
#[tactic(auto, unfolding(crate::specs::PredicateParsers::worded_at))]
fn worded<'a>(
    alloc: Global,
    column: ColumnName,
    word: &str,
    tokens: &Tokens<'a>,
) -> Result<(TestWords, Tokens<'a>), ParseFault>
    ensures { Gives (λ x. x) result (worded_at column word.now tokens.now) }
{
    match word {
        "between" => {
            let (low, high, rest) = bounds(alloc, tokens)?;
            Ok((TestWords::Between { column, low, high }, rest))
        }
        "in" => {
            let (list, rest) = enclosed::<Literal>(alloc, tokens)?;
            Ok((TestWords::Among { column, list }, rest))
        }
        "like" => {
            let (pattern, rest) = text(alloc, tokens)?;
            Ok((TestWords::Like { column, pattern }, rest))
        }
        _ => Err(ParseFault::Syntax),
    }
}

// A test behind its column.
#[tactic(auto, unfolding(crate::specs::PredicateParsers::tested_at))]
fn tested<'a>(
    alloc: Global,
    column: ColumnName,
    tokens: &Tokens<'a>,
) -> Result<(TestWords, Tokens<'a>), ParseFault>
    ensures { Gives (λ x. x) result (tested_at column tokens.now) }
{
    let Some((kind, rest)) = tokens.next(alloc)? else {
        return Err(ParseFault::Syntax);
    };
    match kind {
        TokenKind::Name(word) => worded(alloc, column, word.as_str(), &rest),
        TokenKind::Symbol(mark) => match op_of(mark) {
            Some(op) => compared(alloc, column, op, &rest),
            None => Err(ParseFault::Syntax),
        },
        _ => Err(ParseFault::Syntax),
    }
}

#[tactic(auto, unfolding(crate::specs::PredicateParsers::test_at))]
pub(crate) fn test<'a>(
    alloc: Global,
    tokens: &Tokens<'a>,
) -> Result<(TestWords, Tokens<'a>), ParseFault>
    ensures { Gives (λ x. x) result (test_at tokens.now) }
{
    let (column, rest) = ColumnName::parse(alloc, tokens)?;
    tested(alloc, column, &rest)
}
