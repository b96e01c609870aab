// The files of the system, of which nothing is told.
ghost use Rattle.std.specs.Prelude.{◌≡◌, ◌≢◌, ◌≤◌, ◌+◌, [], ℕ, length, is_some, is_err, IfOk, IfSome, OnOk, OnErr, Ok, Err, option_map, if◌then◌else◌};
ghost use Rattle.std.specs.FinMap.{get, insert};
ghost use Rattle.blink_edge.specs.Causes.{Rose, next};
ghost use Rattle.blink_edge.specs.Files.{IsFound, KeepsOthers};
ghost use Rattle.blink_edge.specs.Memory.{is_failed};
ghost use Rattle.blink_edge.specs.declared.store.Found.TheVariants.{Whole, Long, Absent};
ghost use Rattle.blink_edge.specs.declared.store.StoreError.TheVariants.{Failed, Memory};

use crate::count::one_more;
use crate::{Found, ReadError, StdIn, StdOut, Store, StoreError, Taken, read_all, write_all};
use std::fs;
use std::fs::Files;
use std::io::ErrorKind;

/// A store over the files of the system. A name is a path, relative to the current directory. It tells nothing of its
/// files, and counts each fault that it answers. Source: this project's own.
#[derive(Drop)]
pub struct Folder<F> {
    system: F,
    faults: u64,
}

// Makes `into` the content of a file of at most `limit` bytes.
fn read_file<F: Files>(
    system: &F,
    name: &str,
    limit: u64,
    into: &mut Vec<u8>,
) -> Result<Found, StoreError>
    ensures whole { result ≡ Ok Whole → length into.new.items ≤ limit }
    ensures long { result ≡ Ok Long → length into.new.items ≡ limit + 1 }
{
    let file = match fs::open(system, name) {
        Ok(file) => file,
        Err(error) if error.kind() == ErrorKind::NotFound => return Ok(Found::Absent),
        Err(_) => return Err(StoreError::Failed),
    };
    into.clear();
    match read_all(&mut StdIn::new(file), limit.min(u64::MAX - 1), into) {
        Ok(Taken::Whole) => Ok(Found::Whole),
        Ok(Taken::Long) => Ok(Found::Long),
        Err(ReadError::Failed) => Err(StoreError::Failed),
        Err(ReadError::Memory) => Err(StoreError::Memory),
    }
}

// Makes a file these bytes. It takes no memory.
fn write_file<F: Files>(system: &F, name: &str, bytes: &[u8]) -> bool {
    match fs::create(system, name) {
        Ok(file) => write_all(&mut StdOut::new(file), bytes).is_ok(),
        Err(_) => false,
    }
}

impl<F> Folder<F> {
    ghost use Rattle.blink_edge.specs.Folders.{system_under, folder_faults};

    /// A store over the files of this system, such as the program's runtime, without a fault so far. It takes no memory.
    pub fn new(system: F) -> Self
        ensures system { system_under result ≡ system }
        ensures fresh { folder_faults result ≡ 0 }
    {
        Folder { system, faults: 0 }
    }
}

impl<F: Files> Store for Folder<F> {
    ghost use Rattle.blink_edge.specs.Folders.{system_under, folder_faults, untold};

    ghost files = { λ s. untold };

    ghost faults = { folder_faults };

    ghost never_fails = { λ s. ⊥ };

    /// Makes `into` the content of the name's file, where it has at most `limit` bytes; at most one more is read.
    ///
    /// [`Found::Absent`] is the system's answer that there is no such file, and what the empty name finds. Anything else
    /// that the system refuses is a fault, such as to read a folder, a path through a file, or a name with a zero byte.
    fn fetch(&mut self, name: &str, limit: u64, into: &mut Vec<u8>) -> Result<Found, StoreError>
        ensures found { IfOk result (λ found. IfSome untold (λ held. IsFound (get held name.now) limit into.new.items found)) }
        ensures files { untold ≡ untold }
        ensures failed { result ≡ Err Failed → Rose (folder_faults self.old) (folder_faults self.new) }
        ensures quiet { result ≢ Err Failed → folder_faults self.new ≡ folder_faults self.old }
        ensures later { folder_faults self.old ≤ folder_faults self.new }
        ensures sure { ⊥ → (result ≢ Err Failed) × ⊥ × (folder_faults self.new ≡ folder_faults self.old) }

        // The bytes are within the limit, or one more was read; the empty name has no file; each fault is counted.
        ensures whole { result ≡ Ok Whole → length into.new.items ≤ limit }
        ensures long { result ≡ Ok Long → length into.new.items ≡ limit + 1 }
        ensures empty { name.now ≡ [] → result ≡ Ok Absent }
        ensures counted { folder_faults self.new ≡ (if is_failed result then next (folder_faults self.old) else folder_faults self.old) }
        ensures system { system_under self.new ≡ system_under self.old }
    {
        if name.is_empty() {
            return Ok(Found::Absent);
        }
        let result = read_file(&self.system, name, limit, into);
        if let Err(StoreError::Failed) = result {
            self.faults = one_more(self.faults);
        }
        result
    }

    /// Makes the name's file these bytes; it is made where there is none. Anything that the system refuses is a fault. It
    /// takes no memory.
    fn put(&mut self, name: &str, bytes: &[u8]) -> Result<(), StoreError>
        ensures put { OnOk result (untold ≡ option_map (λ held. insert held name.now bytes.now) untold) }
        ensures others { OnErr result (IfSome untold (λ old. IfSome untold (KeepsOthers name.now old))) }
        ensures memory { result ≡ Err Memory → untold ≡ untold }
        ensures told { is_some untold ≡ is_some untold }
        ensures failed { result ≡ Err Failed → Rose (folder_faults self.old) (folder_faults self.new) }
        ensures quiet { result ≢ Err Failed → folder_faults self.new ≡ folder_faults self.old }
        ensures later { folder_faults self.old ≤ folder_faults self.new }
        ensures sure { ⊥ → (result ≢ Err Failed) × ⊥ × (folder_faults self.new ≡ folder_faults self.old) }

        // Memory never runs out, and each fault is counted.
        ensures no_memory { result ≢ Err Memory }
        ensures counted { folder_faults self.new ≡ (if is_err result then next (folder_faults self.old) else folder_faults self.old) }
        ensures system { system_under self.new ≡ system_under self.old }
    {
        if write_file(&self.system, name, bytes) {
            return Ok(());
        }
        self.faults = one_more(self.faults);
        Err(StoreError::Failed)
    }
}
