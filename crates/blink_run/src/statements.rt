// What a statement does, and what it prints.
ghost use Rattle.std.specs.Prelude.{◌≡◌, false, IsTrue, is_some};
ghost use Rattle.star_sql.specs.WellFormed.{is_well_formed};
ghost use Rattle.star_sql.specs.Spelling.{HasFewTokens};
ghost use Rattle.star_engine.specs.State.{State};
ghost use Rattle.star_engine.specs.Step.{asks_store};
ghost use Rattle.star_engine.specs.EngineRepr.{HasTables, IsEngineOf};
ghost use Rattle.blink_run.specs.Ends.{AreFiles, IsAsked};
ghost use Rattle.blink_run.specs.StatementOutput.{IsReplyFrom, IsStoreFault, StaysSound};

mod files;
mod queries;
mod tables;

use crate::output::{Output, Stop, refused};
use crate::statements::files::add_file;
use crate::statements::queries::select;
use crate::statements::tables::{create, describe, drop_table, insert, reorganize};
use blink_base::Refusal;
use blink_edge::Store;
use star_engine::{Engine, Growth};
use star_sql::Statement;
use std::alloc::Global;
use word_pool::{Ledger, Steps};

// Answers a statement. It is refused while it isn't built.
pub(crate) fn answer_statement<M: Ledger, S: Store>(
    alloc: Global,
    engine: &mut Engine<M>,
    store: &mut S,
    statement: &Statement,
    decodes: &mut Steps<M>,
) -> Result<Output, Stop>
    requires sound { HasTables engine.old }
    requires formed { IsTrue (is_well_formed statement.now) }
    requires few { HasFewTokens statement.now }
    ensures reply { (state : State) → IsEngineOf state.tables engine.old → AreFiles (S.files store.old) state.files
        → IsReplyFrom engine.old.limits (S.files store.old) (is_some (S.files store.old)) state statement.now result engine.new }
    ensures engine { StaysSound engine.old engine.new }
    ensures store { IsAsked S.files S.faults S.never_fails (IsStoreFault result) store.old store.new }
    ensures unasked { (state : State) → IsEngineOf state.tables engine.old → asks_store state.tables statement.now ≡ false → store.new ≡ store.old }
{
    match statement {
        Statement::Create { name, columns } => create(alloc, engine, name, columns),
        Statement::Drop { name } => drop_table(alloc, engine, name),
        Statement::Load { name, file } => {
            add_file(alloc, engine, store, name, file, Growth::Anew, decodes)
        }
        Statement::Append { name, file } => {
            add_file(alloc, engine, store, name, file, Growth::Standing, decodes)
        }
        Statement::Insert { name, rows } => insert(alloc, engine, name, rows, decodes),
        Statement::Reorganize { name } => reorganize(alloc, engine, name, decodes),
        Statement::Describe { name } => describe(alloc, engine, name),
        Statement::Select(query) => select(alloc, engine, query, decodes),
        Statement::Explain(_) => refused(alloc, &Refusal::NotBuilt),
        Statement::Export { .. } => refused(alloc, &Refusal::NotBuilt),
        Statement::Import { .. } => refused(alloc, &Refusal::NotBuilt),
    }
}
