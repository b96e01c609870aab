// A source in memory.
ghost use Rattle.std.specs.Prelude.{◌≡◌, ◌≤◌, ◌<◌, ◌↔◌, [], length, min, IfOk, IsErr, is_err, IsOk, OnOk, is_some, Some};
ghost use Rattle.std.specs.Io.{ReadsAtMost};
ghost use Rattle.std.specs.Io.KnownBytes.{ReadConsumes};
ghost use Rattle.blink_edge.specs.Causes.{HasCause};
ghost use Rattle.blink_edge.specs.Memory.{fresh, IsPlanned, after_call};

use crate::fault_plan::FaultPlan;
use crate::{Failed, Source};
use std::marker::Model;

/// A source over a list of bytes. It tells what is left, and fails exactly at the calls that it is told to fail at.
#[derive(Drop)]
pub struct BytesIn {
    bytes: Vec<u8>,
    at: usize,
    piece: usize,
    plan: FaultPlan,
}

impl Model for BytesIn {
    ghost use Rattle.std.specs.Prelude.{◌≤◌, ◌<◌, drop, vec_len};
    ghost use Rattle.blink_edge.specs.Memory.{Supply};

    ghost Value = { Supply };

    ghost view = { λ s. record { left = drop s.at s.bytes.items; piece = s.piece; plan = s.plan } };

    ghost invariant = { λ s. (s.at ≤ vec_len s.bytes) × (0 < s.piece) };
}

impl BytesIn {
    /// A source with these bytes left, of which a call takes at most `piece`. The calls of the numbers in `failing`,
    /// counted from 1, are to fail. It takes no memory.
    pub fn new(bytes: Vec<u8>, piece: usize, failing: Vec<u64>) -> BytesIn
        requires { 0 < piece }
        ensures { result ≡ record { left = bytes.items; piece = piece; plan = fresh failing.items } }
    {
        BytesIn {
            bytes,
            at: 0,
            piece,
            plan: FaultPlan::new(failing),
        }
    }
}

impl Source for BytesIn {
    ghost use Rattle.std.specs.Prelude.{◌≡◌, [], Some};

    ghost left = { λ s. Some s.left };

    ghost faults = { λ s. s.plan.faults };

    ghost never_fails = { λ s. s.plan.failing ≡ [] };

    /// Takes as many bytes as the piece size, `into` and what is left allow, but fails where the call is to fail. It
    /// takes no memory.
    fn take(&mut self, into: &mut [u8]) -> Result<usize, Failed>
        ensures bound { ReadsAtMost result into.new }
        ensures bytes { ReadConsumes (Some self.old.left) (Some self.new.left) result into.new }
        ensures told { is_some (Some self.new.left) ≡ is_some (Some self.old.left) }
        ensures cause { HasCause self.old.plan.faults self.new.plan.faults result }
        ensures quiet { OnOk result (self.new.plan.faults ≡ self.old.plan.faults) }
        ensures sure { self.old.plan.failing ≡ [] → IsOk result × (self.new.plan.failing ≡ []) × (self.new.plan.faults ≡ self.old.plan.faults) }

        // It fails exactly at the planned calls, and only these raise the count of faults.
        ensures fails { IsErr result ↔ IsPlanned self.old.plan }
        ensures plan { self.new.plan ≡ after_call (is_err result) self.old.plan }
        ensures count { IfOk result (λ n. n ≡ min (min self.old.piece (length into.old)) (length self.old.left)) }
        ensures piece { self.new.piece ≡ self.old.piece }
    {
        if self.plan.count_call() {
            self.plan.count_fault();
            return Err(Failed);
        }
        let rest = &self.bytes[self.at..];
        let count = self.piece.min(into.len()).min(rest.len());
        into[..count].copy_from_slice(&rest[..count]);
        self.at += count;
        Ok(count)
    }
}
