// Worked divisions, as facts that compute.
ghost use Rattle.freq_partition.specs.Examples.{OneOften, ThreeChosen};

/// The best division of five counts.
#[tactic(auto, unfolding(crate::specs::Division::candidates, crate::specs::Division::fronts, blink_lists::specs::Widths::width_for))]
pub fn one_often()
    ensures { OneOften }
{}

/// The columns that are divided.
pub fn three_chosen()
    ensures { ThreeChosen }
{}
