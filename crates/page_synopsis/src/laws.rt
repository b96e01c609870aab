//! Laws of sets of codes.

ghost use Rattle.page_synopsis.specs.Sets.{CodesLieInRuns, RunsAreCodes};

/// The runs of a list of codes have these codes and no others. Source: this project's own.
#[tactic(auto, using(crate::proofs::RunLemmas::runs_are_codes))]
pub fn runs_are_codes()
    ensures { RunsAreCodes }
{}

/// A code is among those of rising runs exactly where it lies in one of them. Source: this project's own.
pub fn codes_lie_in_runs()
    ensures { CodesLieInRuns }
{}
