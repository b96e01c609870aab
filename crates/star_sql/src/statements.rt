// The statements, by their first words.
ghost use Rattle.star_sql.specs.declared.ast.Statement.TheVariants as statement;
ghost use Rattle.star_sql.specs.Parsers.{Gives, made_of};
ghost use Rattle.star_sql.specs.StatementParsers.{named_at, filed_at, create_at, insert_at, of_both, behind_word, statement_at};

use crate::parser::Parse;
use crate::select::select;
use crate::sequences::{enclosed, listed};
use crate::tokens_at::{key, kind, text, word};
use crate::{ColumnDef, Literal, ParseFault, Statement};
use blink_base::{List, Word};
use star_lex::{TokenKind, Tokens};
use std::alloc::Global;

impl Parse for ColumnDef {
    ghost use Rattle.star_sql.specs.StatementParsers.{definition_at};

    ghost parses = { definition_at };

    #[tactic(auto, unfolding(crate::specs::StatementParsers::definition_at))]
    fn parse<'a>(
        alloc: Global,
        tokens: &Tokens<'a>,
    ) -> Result<(ColumnDef, Tokens<'a>), ParseFault> {
        let (name, rest) = Word::parse(alloc, tokens)?;
        let (kind, rest) = kind(alloc, &rest)?;
        let (key, rest) = key(&rest)?;
        Ok((ColumnDef { name, kind, key }, rest))
    }
}

#[tactic(auto, unfolding(crate::specs::StatementParsers::named_at))]
fn named<'a>(
    alloc: Global,
    first: &str,
    tokens: &Tokens<'a>,
) -> Result<(Word, Tokens<'a>), ParseFault>
    ensures { Gives (λ x. x) result (named_at first.now tokens.now) }
{
    Word::parse(alloc, &word(first, tokens)?)
}

#[tactic(auto, unfolding(crate::specs::StatementParsers::filed_at))]
fn filed<'a>(
    alloc: Global,
    first: &str,
    second: &str,
    tokens: &Tokens<'a>,
) -> Result<(Word, Word, Tokens<'a>), ParseFault>
    ensures { Gives (λ x. ((x.0, x.1), x.2)) result (filed_at first.now second.now tokens.now) }
{
    let (name, rest) = named(alloc, first, tokens)?;
    let (file, rest) = text(alloc, &word(second, &rest)?)?;
    Ok((name, file, rest))
}

#[tactic(auto, unfolding(crate::specs::StatementParsers::create_at))]
fn create<'a>(alloc: Global, tokens: &Tokens<'a>) -> Result<(Statement, Tokens<'a>), ParseFault>
    ensures { Gives (λ x. x) result (made_of (of_both statement.Create) (create_at tokens.now)) }
{
    let (name, rest) = named(alloc, "table", tokens)?;
    let (columns, rest) = enclosed::<ColumnDef>(alloc, &rest)?;
    Ok((Statement::Create { name, columns }, rest))
}

#[tactic(auto, unfolding(crate::specs::StatementParsers::insert_at))]
fn insert<'a>(alloc: Global, tokens: &Tokens<'a>) -> Result<(Statement, Tokens<'a>), ParseFault>
    ensures { Gives (λ x. x) result (made_of (of_both statement.Insert) (insert_at tokens.now)) }
{
    let (name, rest) = named(alloc, "into", tokens)?;
    let (rows, rest) = listed::<List<Literal>>(alloc, &word("values", &rest)?)?;
    Ok((Statement::Insert { name, rows }, rest))
}

// What stands behind the first word of a statement.
#[tactic(auto, unfolding(crate::specs::StatementParsers::behind_word))]
fn behind_word<'a>(
    alloc: Global,
    verb: &str,
    tokens: &Tokens<'a>,
) -> Result<(Statement, Tokens<'a>), ParseFault>
    ensures { Gives (λ x. x) result (behind_word verb.now tokens.now) }
{
    match verb {
        "create" => create(alloc, tokens),
        "drop" => {
            let (name, rest) = named(alloc, "table", tokens)?;
            Ok((Statement::Drop { name }, rest))
        }
        "load" => {
            let (name, file, rest) = filed(alloc, "into", "from", tokens)?;
            Ok((Statement::Load { name, file }, rest))
        }
        "append" => {
            let (name, file, rest) = filed(alloc, "into", "from", tokens)?;
            Ok((Statement::Append { name, file }, rest))
        }
        "insert" => insert(alloc, tokens),
        "reorganize" => {
            let (name, rest) = named(alloc, "table", tokens)?;
            Ok((Statement::Reorganize { name }, rest))
        }
        "select" => {
            let (query, rest) = select(alloc, tokens)?;
            Ok((Statement::Select(query), rest))
        }
        "describe" => {
            let (name, rest) = Word::parse(alloc, tokens)?;
            Ok((Statement::Describe { name }, rest))
        }
        "explain" => {
            let (query, rest) = select(alloc, &word("select", tokens)?)?;
            Ok((Statement::Explain(query), rest))
        }
        "export" => {
            let (name, file, rest) = filed(alloc, "table", "to", tokens)?;
            Ok((Statement::Export { name, file }, rest))
        }
        "import" => {
            let (name, file, rest) = filed(alloc, "table", "from", tokens)?;
            Ok((Statement::Import { name, file }, rest))
        }
        _ => Err(ParseFault::Syntax),
    }
}

#[tactic(auto, unfolding(crate::specs::StatementParsers::statement_at))]
pub(crate) fn statement<'a>(
    alloc: Global,
    tokens: &Tokens<'a>,
) -> Result<(Statement, Tokens<'a>), ParseFault>
    ensures { Gives (λ x. x) result (statement_at tokens.now) }
{
    let Some((kind, rest)) = tokens.next(alloc)? else {
        return Err(ParseFault::Syntax);
    };
    match kind {
        TokenKind::Name(verb) => behind_word(alloc, verb.as_str(), &rest),
        _ => Err(ParseFault::Syntax),
    }
}
