// What a piece of a script says.
ghost use Rattle.std.specs.Prelude.{◌≡◌, ◌≤◌, true, false, length, Ok, IfOk, IfSome, IfNone};
ghost use Rattle.blink_base.specs.declared.limits.TheConstants.{LONGEST_INPUT};
ghost use Rattle.star_sql.specs.PieceStatement.{Says, is_passed_over};
ghost use Rattle.star_sql.specs.declared.ast.Statement.{Statement as Stated};
ghost use Rattle.star_sql.specs.Spelling.{HasFewTokens};

use blink_base::Refusal;
use star_lex::{LexFault, Tokens};
use star_sql::{ParseFault, Statement, statement_of};
use std::alloc::{AllocError, Global};

// A statement, or the refusal of a text.
pub(crate) type Said = Result<Statement, Refusal>;

// What a piece says, where it isn't passed over: first its first place at fault decides, then its depth, then its spelling. No
// list of its tokens stands in memory.
pub(crate) fn said_by(alloc: Global, text: &[u8]) -> Result<Option<Said>, AllocError>
    requires { length text.now ≤ LONGEST_INPUT }
    ensures passed { IfOk result (λ said. IfNone said (is_passed_over text.now ≡ true)) }
    ensures says { IfOk result (λ said. IfSome said (λ s. (is_passed_over text.now ≡ false) × Says text.now s)) }
    ensures few { IfOk result (λ said. IfSome said (λ r. (s : Stated) → r ≡ Ok s → HasFewTokens s)) }
{
    let tokens = match Tokens::of_piece(alloc, text) {
        Ok(tokens) => tokens,
        Err(LexFault::Memory) => return Err(AllocError),
        Err(LexFault::LongNumber { at: _ }) => return Ok(Some(Err(Refusal::NumberTooLong))),
        Err(LexFault::BadByte { at: _ } | LexFault::OpenText { at: _ }) => {
            return Ok(Some(Err(Refusal::Syntax)));
        }
    };
    if tokens.len() == 0 {
        return Ok(None);
    }
    match statement_of(alloc, &tokens) {
        Ok(statement) => Ok(Some(Ok(statement))),
        Err(ParseFault::Deep) => Ok(Some(Err(Refusal::TooDeep))),
        Err(ParseFault::Syntax) => Ok(Some(Err(Refusal::Syntax))),
        Err(ParseFault::Memory) => Err(AllocError),
    }
}
