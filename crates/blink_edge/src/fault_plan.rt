// The calls of an object in memory, and which of them fail.
ghost use Rattle.std.specs.Prelude.{◌≡◌, ◌≤◌, ◌↔◌, IsTrue};
ghost use Rattle.blink_edge.specs.Causes.{next, Rose};
ghost use Rattle.blink_edge.specs.Memory.{fresh, IsPlanned};

use crate::count::one_more;
use std::marker::Model;

// Which calls are to fail, counted from 1; how many were made, and how many of them failed.
#[derive(Drop)]
pub(crate) struct FaultPlan {
    failing: Vec<u64>,
    calls: u64,
    faults: u64,
}

impl Model for FaultPlan {
    ghost use Rattle.blink_edge.specs.Memory.{Plan, plan_code};

    ghost Value = { Plan };

    ghost coded = { plan_code };

    ghost view = { λ p. record { failing = p.failing.items; calls = p.calls; faults = p.faults } };
}

impl FaultPlan {
    pub(crate) fn new(failing: Vec<u64>) -> FaultPlan
        ensures { result ≡ fresh failing.items }
    {
        FaultPlan {
            failing,
            calls: 0,
            faults: 0,
        }
    }

    // Counts a call, and says whether it is to fail.
    pub(crate) fn count_call(&mut self) -> bool
        ensures planned { IsTrue result ↔ IsPlanned self.old }
        ensures counted { self.new ≡ record self.old { calls = next self.old.calls } }
    {
        self.calls = one_more(self.calls);
        self.failing.contains(&self.calls)
    }

    // Counts a fault.
    pub(crate) fn count_fault(&mut self)
        ensures counted { self.new ≡ record self.old { faults = next self.old.faults } }
        ensures rose { Rose self.old.faults self.new.faults }
        ensures later { self.old.faults ≤ self.new.faults }
    {
        self.faults = one_more(self.faults);
    }
}
