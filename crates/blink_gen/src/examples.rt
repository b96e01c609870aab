//! Worked files of a demonstration, as facts that compute.

ghost use Rattle.blink_gen.specs.Examples.{FilesListed, OrdersDrawn};

/// The first numbers of seed 1, and its first order.
#[tactic(auto, using(crate::specs::Examples::orders_drawn_lem))]
pub fn orders_drawn()
    ensures { OrdersDrawn }
{}

/// The first and the last months, customers and parts.
#[tactic(auto, using(crate::specs::Examples::files_listed_lem))]
pub fn files_listed()
    ensures { FilesListed }
{}
