// The statement that asks the tables.
ghost use Rattle.std.specs.Prelude.{IsTrue};
ghost use Rattle.star_sql.specs.Spelling.{HasFewTokens};
ghost use Rattle.star_sql.specs.WellFormed.{is_well_formed};
ghost use Rattle.star_sql.specs.declared.ast.Statement.TheVariants as statement;
ghost use Rattle.star_engine.specs.State.{State};
ghost use Rattle.star_engine.specs.EngineRepr.{HasTables, IsEngineOf};
ghost use Rattle.blink_run.specs.StatementOutput.{IsReply};

use crate::output::{Output, Stop, done, refused_by};
use report_text::answer_text;
use star_engine::Engine;
use star_sql::Select;
use std::alloc::Global;
use word_pool::{Ledger, Steps};

// Answers SELECT.
pub(crate) fn select<M: Ledger>(
    alloc: Global,
    engine: &Engine<M>,
    query: &Select,
    decodes: &mut Steps<M>,
) -> Result<Output, Stop>
    requires sound { HasTables engine.now }
    requires formed { IsTrue (is_well_formed (statement.Select query.now)) }
    requires few { HasFewTokens (statement.Select query.now) }
    ensures { (state : State) → IsEngineOf state.tables engine.now → IsReply engine.now.limits state (statement.Select query.now) result engine.now }
{
    match engine.select(alloc, query, decodes) {
        Ok(answer) => done(answer_text(alloc, &answer)),
        Err(why) => refused_by(alloc, &why),
    }
}
