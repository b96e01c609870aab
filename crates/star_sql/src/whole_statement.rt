// The parser.
ghost use Rattle.std.specs.Prelude.{◌≡◌, false, true, IfOk, Err};
ghost use Rattle.star_lex.specs.Kinds.{kinds_of};
ghost use Rattle.star_sql.specs.declared.ast.Statement.{Statement};
ghost use Rattle.star_sql.specs.declared.fault.ParseFault.TheVariants.{Deep, Syntax};
ghost use Rattle.star_sql.specs.ParseResult.{is_deep, IsSpelled};
ghost use Rattle.star_sql.specs.Parsers.{Gives};
ghost use Rattle.star_sql.specs.StatementParsers.{whole};

use crate::depth::is_deep;
use crate::statements::statement;
use crate::{ParseFault, Statement};
use blink_base::List;
use star_lex::{Token, Tokens};
use std::alloc::Global;

// The statement that all of the tokens are.
#[tactic(auto, unfolding(crate::specs::StatementParsers::whole))]
fn whole(alloc: Global, tokens: &Tokens<'_>) -> Result<Statement, ParseFault>
    ensures { Gives (λ s. s) result (whole tokens.now) }
{
    let (statement, rest) = statement(alloc, tokens)?;
    match rest.len() {
        0 => Ok(statement),
        _ => Err(ParseFault::Syntax),
    }
}

/// The statement that some tokens say: the well formed one that they are the spelling of. No list of the tokens need
/// stand in memory: those of a text are cut as they are asked for.
///
/// Source: ISO/IEC 9075, in this project's own profile.
//
// No clause speaks of time and of the stack: the body goes over the tokens from the first to the last, once for the
// depth and once for the statement, and only a condition in parentheses is read by recursion.
#[tactic(auto, using(crate::proofs::StatementLemmas::gives_no_depth))]
pub fn statement_of(alloc: Global, tokens: &Tokens<'_>) -> Result<Statement, ParseFault>
    // The tokens are the spelling of the statement, which is well formed.
    ensures spelled { IfOk result (λ s. IsSpelled tokens.now s) }
    // Not too many parentheses are open at once.
    ensures shallow { IfOk result (λ s. is_deep tokens.now ≡ false) }
    // Too many parentheses are open at once.
    ensures deep { result ≡ Err Deep → is_deep tokens.now ≡ true }
    // Not too many are, and no well formed statement has this spelling.
    ensures syntax { result ≡ Err Syntax → (is_deep tokens.now ≡ false) × ((s : Statement) → IsSpelled tokens.now s → ⊥) }
{
    if is_deep(tokens) {
        return Err(ParseFault::Deep);
    }
    whole(alloc, tokens)
}

/// The statement that some tokens say: the well formed one that they are the spelling of.
///
/// Source: ISO/IEC 9075, in this project's own profile.
pub fn parse(alloc: Global, tokens: &List<Token>) -> Result<Statement, ParseFault>
    // The tokens are the spelling of the statement, which is well formed.
    ensures spelled { IfOk result (λ s. IsSpelled (kinds_of tokens.now) s) }
    // Not too many parentheses are open at once.
    ensures shallow { IfOk result (λ s. is_deep (kinds_of tokens.now) ≡ false) }
    // Too many parentheses are open at once.
    ensures deep { result ≡ Err Deep → is_deep (kinds_of tokens.now) ≡ true }
    // Not too many are, and no well formed statement has this spelling.
    ensures syntax { result ≡ Err Syntax → (is_deep (kinds_of tokens.now) ≡ false) × ((s : Statement) → IsSpelled (kinds_of tokens.now) s → ⊥) }
{
    statement_of(alloc, &Tokens::of_list(tokens.as_slice()))
}
