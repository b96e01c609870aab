//! Worked runs, as facts that compute.

ghost use Rattle.blink_run.specs.Examples.{BytesTold, DemosAsked, NothingSaid, ScriptAnswered, TablesTold, TextsRefused, ArgumentsAsked};

/// The arguments.
#[tactic(auto, using(crate::specs::Examples::arguments_asked_lem))]
pub fn words_asked()
    ensures { ArgumentsAsked }
{}

/// The arguments of a demonstration.
#[tactic(auto, using(crate::specs::Examples::demos_asked_lem))]
pub fn demos_asked()
    ensures { DemosAsked }
{}

/// What the program prints for an input, and its status.
#[tactic(auto, using(crate::specs::Examples::bytes_told_lem))]
pub fn bytes_told()
    ensures { BytesTold }
{}

/// Pieces without a token print nothing.
#[tactic(auto, using(crate::specs::Examples::nothing_said_lem))]
pub fn nothing_said()
    ensures { NothingSaid }
{}

/// Statements, and what they print.
#[tactic(auto, using(crate::specs::Examples::script_answered_lem))]
pub fn script_answered()
    ensures { ScriptAnswered }
{}

/// A table that is made, filled, asked, described and dropped.
#[tactic(auto, using(crate::specs::Examples::tables_told_lem))]
pub fn tables_told()
    ensures { TablesTold }
{}

/// Pieces whose texts are refused, each on its line.
#[tactic(auto, using(crate::specs::Examples::texts_refused_lem))]
pub fn texts_refused()
    ensures { TextsRefused }
{}
