// The statements that make, fill, lay out, tell of and drop tables, without a file.
ghost use Rattle.std.specs.Prelude.{◌≡◌, IsTrue};
ghost use Rattle.star_sql.specs.WellFormed.{is_well_formed};
ghost use Rattle.star_sql.specs.declared.ast.Statement.TheVariants as statement;
ghost use Rattle.star_engine.specs.State.{State};
ghost use Rattle.star_engine.specs.EngineRepr.{HasTables, IsEngineOf};
ghost use Rattle.blink_run.specs.StatementOutput.{IsReply, StaysSound};

use crate::output::{Output, Stop, addition, done, refused_by};
use blink_base::{List, Word};
use report_text::{created_text, dropped_text, layout_text, reorganized_text};
use star_engine::Engine;
use star_sql::{ColumnDef, Literal};
use std::alloc::Global;
use word_pool::{Ledger, Steps};

// Answers CREATE TABLE.
pub(crate) fn create<M: Ledger>(
    alloc: Global,
    engine: &mut Engine<M>,
    name: &Word,
    columns: &List<ColumnDef>,
) -> Result<Output, Stop>
    requires sound { HasTables engine.old }
    requires formed { IsTrue (is_well_formed (statement.Create name.now columns.now)) }
    ensures reply { (state : State) → IsEngineOf state.tables engine.old → IsReply engine.old.limits state (statement.Create name.now columns.now) result engine.new }
    ensures engine { StaysSound engine.old engine.new }
{
    match engine.create(alloc, name, columns) {
        Ok(()) => done(created_text(alloc, name)),
        Err(why) => refused_by(alloc, &why),
    }
}

// Answers DROP TABLE.
pub(crate) fn drop_table<M: Ledger>(
    alloc: Global,
    engine: &mut Engine<M>,
    name: &Word,
) -> Result<Output, Stop>
    requires { HasTables engine.old }
    ensures reply { (state : State) → IsEngineOf state.tables engine.old → IsReply engine.old.limits state (statement.Drop name.now) result engine.new }
    ensures engine { StaysSound engine.old engine.new }
{
    match engine.drop_table(alloc, name) {
        Ok(()) => done(dropped_text(alloc, name)),
        Err(why) => refused_by(alloc, &why),
    }
}

// Answers INSERT.
pub(crate) fn insert<M: Ledger>(
    alloc: Global,
    engine: &mut Engine<M>,
    name: &Word,
    rows: &List<List<Literal>>,
    decodes: &mut Steps<M>,
) -> Result<Output, Stop>
    requires sound { HasTables engine.old }
    requires formed { IsTrue (is_well_formed (statement.Insert name.now rows.now)) }
    ensures reply { (state : State) → IsEngineOf state.tables engine.old → IsReply engine.old.limits state (statement.Insert name.now rows.now) result engine.new }
    ensures engine { StaysSound engine.old engine.new }
{
    let added = engine.insert(alloc, name, rows, decodes);
    addition(alloc, &added)
}

// Answers REORGANIZE TABLE.
pub(crate) fn reorganize<M: Ledger>(
    alloc: Global,
    engine: &mut Engine<M>,
    name: &Word,
    decodes: &mut Steps<M>,
) -> Result<Output, Stop>
    requires { HasTables engine.old }
    ensures reply { (state : State) → IsEngineOf state.tables engine.old → IsReply engine.old.limits state (statement.Reorganize name.now) result engine.new }
    ensures engine { StaysSound engine.old engine.new }
{
    match engine.reorganize(alloc, name, decodes) {
        Ok(()) => done(reorganized_text(alloc, name)),
        Err(why) => refused_by(alloc, &why),
    }
}

// Answers DESCRIBE.
pub(crate) fn describe<M: Ledger>(
    alloc: Global,
    engine: &Engine<M>,
    name: &Word,
) -> Result<Output, Stop>
    ensures { (state : State) → IsEngineOf state.tables engine.now → IsReply engine.now.limits state (statement.Describe name.now) result engine.now }
{
    match engine.describe(alloc, name) {
        Ok(lines) => done(layout_text(alloc, &lines)),
        Err(why) => refused_by(alloc, &why),
    }
}
