//! Worked rounds, as facts that compute.

ghost use Rattle.lane_scan.specs.Examples.{RowsTold};

/// Which rows of a word lie in a round.
#[tactic(auto, unfolding(masked_compare::specs::Words::rows_in))]
pub fn rows_told()
    ensures { RowsTold }
{}
