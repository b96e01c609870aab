// A sink in memory.
ghost use Rattle.std.specs.Prelude.{◌≡◌, ◌≤◌, ◌<◌, ◌+◌, ◌↔◌, ◌⊎◌, [], length, IfOk, IsErr, is_err, IsOkAnd, OnOk, is_some, Some};
ghost use Rattle.std.specs.Io.{WritesAtMost};
ghost use Rattle.std.specs.Io.KnownBytes.{WriteAppends};
ghost use Rattle.blink_edge.specs.Causes.{HasCause};
ghost use Rattle.blink_edge.specs.Memory.{fresh, IsPlanned, IsTooLong, after_call, sure_room_of};

use crate::fault_plan::FaultPlan;
use crate::{Failed, Sink};
use std::alloc::{AllocError, Global};
use std::marker::Model;

/// A sink that keeps what it is given. It tells it, and fails exactly at the calls that it is told to fail at and where
/// a piece has no room.
#[derive(Drop)]
pub struct BytesOut {
    bytes: Vec<u8>,
    room: usize,
    plan: FaultPlan,
}

impl Model for BytesOut {
    ghost use Rattle.std.specs.Prelude.{◌≤◌, vec_len, vec_capacity};
    ghost use Rattle.blink_edge.specs.Memory.{Delivery};

    ghost Value = { Delivery };

    ghost view = { λ s. record { given = s.bytes.items; room = s.room; plan = s.plan } };

    ghost invariant = { λ s. (vec_len s.bytes ≤ s.room) × (s.room ≤ vec_capacity s.bytes) };
}

impl BytesOut {
    /// A sink with nothing given, which holds at most `room` bytes; their memory is taken here. The calls of the numbers
    /// in `failing`, counted from 1, are to fail.
    pub fn new(alloc: Global, room: usize, failing: Vec<u64>) -> Result<BytesOut, AllocError>
        ensures { IfOk result (λ sink. sink ≡ record { given = []; room = room; plan = fresh failing.items }) }
    {
        Ok(BytesOut {
            bytes: Vec::with_capacity(alloc, room)?,
            room,
            plan: FaultPlan::new(failing),
        })
    }

    /// What was given. It takes no memory.
    pub fn bytes(&self) -> &[u8]
        ensures { result.now ≡ self.now.given }
    {
        self.bytes.as_slice()
    }
}

impl Sink for BytesOut {
    ghost use Rattle.std.specs.Prelude.{◌≡◌, [], Some};
    ghost use Rattle.blink_edge.specs.Memory.{sure_room_of};

    ghost given = { λ s. Some s.given };

    ghost faults = { λ s. s.plan.faults };

    ghost sure_room = { λ s. sure_room_of s.plan.failing s.room s.given };

    /// Takes the whole piece, but fails where the call is to fail, or where what was given and the piece are together
    /// longer than the room. It takes no memory.
    fn give(&mut self, bytes: &[u8]) -> Result<usize, Failed>
        ensures bound { WritesAtMost result bytes.now }
        ensures some { IfOk result (λ n. 0 < length bytes.now → 0 < n) }
        ensures bytes { WriteAppends (Some self.old.given) (Some self.new.given) result bytes.now }
        ensures told { is_some (Some self.new.given) ≡ is_some (Some self.old.given) }
        ensures cause { HasCause self.old.plan.faults self.new.plan.faults result }
        ensures quiet { OnOk result (self.new.plan.faults ≡ self.old.plan.faults) }
        ensures sure { 0 < length bytes.now → length bytes.now ≤ sure_room_of self.old.plan.failing self.old.room self.old.given
            → IsOkAnd result (λ n. sure_room_of self.old.plan.failing self.old.room self.old.given ≤ sure_room_of self.new.plan.failing self.new.room self.new.given + n)
            × (self.new.plan.faults ≡ self.old.plan.faults) }

        // It fails exactly at the planned calls and where there is no room, and only these raise the count of faults.
        ensures fails { IsErr result ↔ (IsPlanned self.old.plan ⊎ IsTooLong self.old (length bytes.now)) }
        ensures plan { self.new.plan ≡ after_call (is_err result) self.old.plan }
        ensures whole { IfOk result (λ n. n ≡ length bytes.now) }
        ensures room { self.new.room ≡ self.old.room }
    {
        if self.plan.count_call() || bytes.len() > self.room - self.bytes.len() {
            self.plan.count_fault();
            return Err(Failed);
        }
        if self.bytes.extend_from_slice(bytes).is_err() {
            unreachable!();
        }
        Ok(bytes.len())
    }
}
