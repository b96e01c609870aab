//! Worked steps, as facts that compute.

ghost use Rattle.star_engine.specs.Examples.{StatementsStepped, QueriesAnswered, TablesDescribed, TextsRefused};
ghost use Rattle.star_engine.specs.ChangeExamples.{CreatesTold, DropsTold, AddsTold, RowsWritten};

/// A statement that isn't built, or that is refused, keeps the tables and the files; a dropped table is gone.
#[tactic(auto, using(crate::specs::Examples::statements_stepped_lem))]
pub fn statements_stepped()
    ensures { StatementsStepped }
{}

/// A query prints its answer over the accepted rows, or is refused.
#[tactic(auto, using(crate::specs::Examples::queries_answered_lem))]
pub fn queries_answered()
    ensures { QueriesAnswered }
{}

/// A table that was made is described.
#[tactic(auto, using(crate::specs::Examples::tables_described_lem))]
pub fn tables_described()
    ensures { TablesDescribed }
{}

/// The refusal of a text is printed.
#[tactic(auto, using(crate::specs::Examples::texts_refused_lem))]
pub fn texts_refused()
    ensures { TextsRefused }
{}

/// Why a table isn't made, in order, and one that is made.
#[tactic(auto, using(crate::specs::ChangeExamples::creates_told_lem))]
pub fn creates_told()
    ensures { CreatesTold }
{}

/// A table goes, where it is there.
#[tactic(auto, using(crate::specs::ChangeExamples::drops_told_lem))]
pub fn drops_told()
    ensures { DropsTold }
{}

/// The number of rows is told before a key that stands twice.
#[tactic(auto, using(crate::specs::ChangeExamples::adds_told_lem))]
pub fn adds_told()
    ensures { AddsTold }
{}

/// Written rows, and the first row at fault.
#[tactic(auto, using(crate::specs::ChangeExamples::rows_written_lem))]
pub fn rows_written()
    ensures { RowsWritten }
{}
