// Where files are kept.
ghost use Rattle.std.specs.Prelude.{◌≡◌, ◌≢◌, ◌≤◌, Option, Some, ℕ, is_some, option_map, IfOk, IfSome, OnOk, OnErr, Err};
ghost use Rattle.std.specs.FinMap.{get, insert};
ghost use Rattle.blink_edge.specs.Causes.{Rose};
ghost use Rattle.blink_edge.specs.Files.{Files, IsFound, KeepsOthers};
ghost use Rattle.blink_edge.specs.declared.store.StoreError.TheVariants.{Failed, Memory};

use thiserror::Error;

/// What a look for a file found.
#[derive(Clone, Copy, Debug, PartialEq, Eq)]
pub enum Found {
    /// The file, whole.
    Whole,
    /// No file of this name.
    Absent,
    /// A file of more bytes than were allowed.
    Long,
}

/// Why a store did not do what it was asked to do.
#[derive(Clone, Copy, Debug, PartialEq, Eq, Error)]
pub enum StoreError {
    /// The store failed, and its count of faults rose or stands at its last value.
    #[error("the store failed")]
    Failed,
    /// There was not enough memory.
    #[error("not enough memory")]
    Memory,
}

/// Where files are kept, by their names. Its count of faults never falls. Source: this project's own.
pub trait Store {
    /// The files, where the store tells them.
    ghost files: { Self → Option Files };

    /// How often it has failed.
    ghost faults: { Self → ℕ };

    /// No call from here on fails, but for want of memory.
    ghost never_fails: { Self → Type 0 };

    /// Makes `into` the content of the name's file, where it has at most `limit` bytes.
    ///
    /// It changes no file. After an answer other than [`Found::Whole`], `into` may hold anything. Each answer but
    /// [`StoreError::Failed`] keeps the count of faults.
    fn fetch(&mut self, name: &str, limit: u64, into: &mut Vec<u8>) -> Result<Found, StoreError>
        ensures found { IfOk result (λ found. IfSome (files self.old) (λ held. IsFound (get held name.now) limit into.new.items found)) }
        ensures files { files self.new ≡ files self.old }
        ensures failed { result ≡ Err Failed → Rose (faults self.old) (faults self.new) }
        ensures quiet { result ≢ Err Failed → faults self.new ≡ faults self.old }
        ensures later { faults self.old ≤ faults self.new }
        ensures sure { never_fails self.old → (result ≢ Err Failed) × never_fails self.new × (faults self.new ≡ faults self.old) };

    /// Makes the name's file these bytes, and keeps all other files.
    ///
    /// After [`StoreError::Failed`] that one file may hold anything; [`StoreError::Memory`] changes nothing. Each answer
    /// but [`StoreError::Failed`] keeps the count of faults.
    fn put(&mut self, name: &str, bytes: &[u8]) -> Result<(), StoreError>
        ensures put { OnOk result (files self.new ≡ option_map (λ held. insert held name.now bytes.now) (files self.old)) }
        ensures others { OnErr result (IfSome (files self.old) (λ old. IfSome (files self.new) (KeepsOthers name.now old))) }
        ensures memory { result ≡ Err Memory → files self.new ≡ files self.old }
        ensures told { is_some (files self.new) ≡ is_some (files self.old) }
        ensures failed { result ≡ Err Failed → Rose (faults self.old) (faults self.new) }
        ensures quiet { result ≢ Err Failed → faults self.new ≡ faults self.old }
        ensures later { faults self.old ≤ faults self.new }
        ensures sure { never_fails self.old → (result ≢ Err Failed) × never_fails self.new × (faults self.new ≡ faults self.old) };
}
