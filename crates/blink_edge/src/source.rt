// Where bytes come from.
ghost use Rattle.std.specs.Prelude.{◌≡◌, List, Option, ℕ, is_some, IsOk, OnOk};
ghost use Rattle.std.specs.Io.{ReadsAtMost};
ghost use Rattle.std.specs.Io.KnownBytes.{ReadConsumes};
ghost use Rattle.blink_edge.specs.Causes.{HasCause};

use crate::Failed;

/// Where bytes come from. Its count of faults never falls. Source: this project's own.
pub trait Source {
    /// The bytes that are left, where the source tells them.
    ghost left: { Self → Option (List ℕ) };

    /// How often it has failed.
    ghost faults: { Self → ℕ };

    /// No call from here on fails.
    ghost never_fails: { Self → Type 0 };

    /// Takes bytes into the front of `into`, and answers how many.
    ///
    /// `Ok(0)` for a piece that isn't empty is the end of the input. [`Failed`] comes only where the count of faults
    /// rose or stands at its last value, and then nothing was taken; any other answer keeps the count.
    fn take(&mut self, into: &mut [u8]) -> Result<usize, Failed>
        ensures bound { ReadsAtMost result into.new }
        ensures bytes { ReadConsumes (left self.old) (left self.new) result into.new }
        ensures told { is_some (left self.new) ≡ is_some (left self.old) }
        ensures cause { HasCause (faults self.old) (faults self.new) result }
        ensures quiet { OnOk result (faults self.new ≡ faults self.old) }
        ensures sure { never_fails self.old → IsOk result × never_fails self.new × (faults self.new ≡ faults self.old) };
}
