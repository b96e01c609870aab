//! Worked texts, as facts that compute.

ghost use Rattle.report_text.specs.Examples.{AnswersPrinted, LayoutsPrinted, RefusalsPrinted};

/// Refusals as lines.
#[tactic(auto, using(crate::specs::Examples::refusals_printed_lem))]
pub fn refusals_printed()
    ensures { RefusalsPrinted }
{}

/// A layout as lines, and the lines of statements that changed a table.
#[tactic(auto, using(crate::specs::Examples::layouts_printed_lem))]
pub fn layouts_printed()
    ensures { LayoutsPrinted }
{}

/// Answers as records, and how many lines they have.
#[tactic(auto, using(crate::specs::Examples::answers_printed_lem))]
pub fn answers_printed()
    ensures { AnswersPrinted }
{}
