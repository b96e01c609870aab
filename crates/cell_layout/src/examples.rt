//! Worked layouts, as facts that compute.

ghost use Rattle.cell_layout.specs.Examples.{Divided, GrownThenLaid, TwoPages};

/// Rows in two classes.
#[tactic(auto, unfolding(freq_partition::specs::Division::candidates, freq_partition::specs::Division::fronts, blink_lists::specs::Widths::width_for))]
pub fn divided()
    ensures { Divided }
{}

/// Rows added, and laid out anew.
#[tactic(auto, unfolding(freq_partition::specs::Division::candidates, freq_partition::specs::Division::fronts, blink_lists::specs::Widths::width_for))]
pub fn grown_then_laid()
    ensures { GrownThenLaid }
{}

/// Rows of two pages.
#[tactic(auto, unfolding(freq_partition::specs::Division::candidates, freq_partition::specs::Division::fronts, blink_lists::specs::Widths::width_for))]
pub fn two_pages()
    ensures { TwoPages }
{}
