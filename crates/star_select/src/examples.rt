//! Worked joins, as facts that compute.

ghost use Rattle.star_select.specs.Examples.{StarJoined};

/// A star join of three tables.
#[tactic(auto, using(crate::specs::Examples::star_joined_lem))]
pub fn star_joined()
    ensures { StarJoined }
{}
