// Where bytes go.
ghost use Rattle.std.specs.Prelude.{◌≡◌, ◌≤◌, ◌<◌, ◌+◌, List, Option, ℕ, length, is_some, IsOkAnd, IfOk, OnOk};
ghost use Rattle.std.specs.Io.{WritesAtMost};
ghost use Rattle.std.specs.Io.KnownBytes.{WriteAppends};
ghost use Rattle.blink_edge.specs.Causes.{HasCause};

use crate::Failed;

/// Where bytes go. Its count of faults never falls. Source: this project's own.
pub trait Sink {
    /// The bytes that were given, where the sink tells them.
    ghost given: { Self → Option (List ℕ) };

    /// How often it has failed.
    ghost faults: { Self → ℕ };

    /// So many more bytes are sure to be taken without a fault.
    ghost sure_room: { Self → ℕ };

    /// Gives the front of a piece, and answers how many bytes of it were taken: at least one, where there is one.
    ///
    /// [`Failed`] comes only where the count of faults rose or stands at its last value, and then nothing was taken; any
    /// other answer keeps the count.
    fn give(&mut self, bytes: &[u8]) -> Result<usize, Failed>
        ensures bound { WritesAtMost result bytes.now }
        ensures some { IfOk result (λ n. 0 < length bytes.now → 0 < n) }
        ensures bytes { WriteAppends (given self.old) (given self.new) result bytes.now }
        ensures told { is_some (given self.new) ≡ is_some (given self.old) }
        ensures cause { HasCause (faults self.old) (faults self.new) result }
        ensures quiet { OnOk result (faults self.new ≡ faults self.old) }
        ensures sure { 0 < length bytes.now → length bytes.now ≤ sure_room self.old
            → IsOkAnd result (λ n. sure_room self.old ≤ sure_room self.new + n) × (faults self.new ≡ faults self.old) };
}
