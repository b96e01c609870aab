// A store in memory.
ghost use Rattle.std.specs.Prelude.{◌≡◌, ◌≢◌, ◌≤◌, ◌↔◌, [], IfOk, IfSome, OnOk, OnErr, is_some, Ok, Err, Some, option_map};
ghost use Rattle.std.specs.FinMap.{get, insert, empty};
ghost use Rattle.blink_edge.specs.Causes.{Rose};
ghost use Rattle.blink_edge.specs.Files.{IsFound, KeepsOthers};
ghost use Rattle.blink_edge.specs.Memory.{files_of, fresh, IsPlanned, after_call, is_failed};
ghost use Rattle.blink_edge.specs.declared.store.StoreError.TheVariants.{Failed, Memory};

use crate::fault_plan::FaultPlan;
use crate::{Found, Store, StoreError};
use std::alloc::{AllocError, Global};
use std::collections::BTreeMap;
use std::marker::Model;

/// A store that keeps its files in memory. It tells them, and fails exactly at the calls that it is told to fail at.
#[derive(Drop)]
pub struct Shelf {
    alloc: Global,
    files: BTreeMap<String, Vec<u8>>,
    plan: FaultPlan,
}

impl Model for Shelf {
    ghost use Rattle.blink_edge.specs.Memory.{Shelved, shelved_code, files_of};

    ghost Value = { Shelved };

    ghost coded = { shelved_code };

    ghost view = { λ s. record { files = files_of s.files.entries; plan = s.plan } };
}

// The content under a name.
fn content_of<'a>(files: &'a BTreeMap<String, Vec<u8>>, name: &str) -> Option<&'a [u8]>
    ensures { option_map (λ content. content.now) result ≡ get (files_of files.now.entries) name.now }
{
    match files.get(name) {
        Some(content) => Some(content.as_slice()),
        None => None,
    }
}

// Makes the name's content that, and keeps all others. AllocError changes nothing.
fn insert_content(
    alloc: Global,
    files: &mut BTreeMap<String, Vec<u8>>,
    name: &str,
    content: Vec<u8>,
) -> Result<(), AllocError>
    ensures set { OnOk result (files_of files.new.entries ≡ insert (files_of files.old.entries) name.now content.items) }
    ensures kept { OnErr result (files_of files.new.entries ≡ files_of files.old.entries) }
{
    let name = String::from_str(alloc, name)?;
    files.insert(name, content)?;
    Ok(())
}

// Makes the name's content these bytes, and keeps all others. AllocError changes nothing.
fn set_content(
    alloc: Global,
    files: &mut BTreeMap<String, Vec<u8>>,
    name: &str,
    bytes: &[u8],
) -> Result<(), AllocError>
    ensures set { OnOk result (files_of files.new.entries ≡ insert (files_of files.old.entries) name.now bytes.now) }
    ensures kept { OnErr result (files_of files.new.entries ≡ files_of files.old.entries) }
{
    let content = Vec::from_slice(alloc, bytes)?;
    insert_content(alloc, files, name, content)
}

impl Shelf {
    /// A store without files. The calls of the numbers in `failing`, counted from 1 over both kinds of call together,
    /// are to fail. It takes no memory.
    pub fn new(alloc: Global, failing: Vec<u64>) -> Shelf
        ensures { result ≡ record { files = empty; plan = fresh failing.items } }
    {
        Shelf {
            alloc,
            files: BTreeMap::new(alloc),
            plan: FaultPlan::new(failing),
        }
    }

    /// Makes the name's file these bytes, and keeps all others. It counts as no call. AllocError where memory runs out;
    /// it changes nothing. Source: this project's own.
    pub fn set(&mut self, name: &str, bytes: Vec<u8>) -> Result<(), AllocError>
        ensures ok { OnOk result (self.new ≡ record self.old { files = insert self.old.files name.now bytes.items }) }
        ensures err { OnErr result (self.new ≡ self.old) }
    {
        insert_content(self.alloc, &mut self.files, name, bytes)
    }

    /// The name's file; None without one. It takes no memory. Source: this project's own.
    pub fn file(&self, name: &str) -> Option<&[u8]>
        ensures { option_map (λ content. content.now) result ≡ get self.now.files name.now }
    {
        content_of(&self.files, name)
    }
}

impl Store for Shelf {
    ghost use Rattle.std.specs.Prelude.{◌≡◌, [], Some};

    ghost files = { λ s. Some s.files };

    ghost faults = { λ s. s.plan.faults };

    ghost never_fails = { λ s. s.plan.failing ≡ [] };

    /// Makes `into` the content of the name's file, where it has at most `limit` bytes, but fails where the call is to
    /// fail.
    fn fetch(&mut self, name: &str, limit: u64, into: &mut Vec<u8>) -> Result<Found, StoreError>
        ensures found { IfOk result (λ found. IfSome (Some self.old.files) (λ held. IsFound (get held name.now) limit into.new.items found)) }
        ensures files { Some self.new.files ≡ Some self.old.files }
        ensures failed { result ≡ Err Failed → Rose self.old.plan.faults self.new.plan.faults }
        ensures quiet { result ≢ Err Failed → self.new.plan.faults ≡ self.old.plan.faults }
        ensures later { self.old.plan.faults ≤ self.new.plan.faults }
        ensures sure { self.old.plan.failing ≡ [] → (result ≢ Err Failed) × (self.new.plan.failing ≡ []) × (self.new.plan.faults ≡ self.old.plan.faults) }

        // It fails exactly at the planned calls, and only these raise the count of faults.
        ensures fails { (result ≡ Err Failed) ↔ IsPlanned self.old.plan }
        ensures plan { self.new.plan ≡ after_call (is_failed result) self.old.plan }
    {
        if self.plan.count_call() {
            self.plan.count_fault();
            return Err(StoreError::Failed);
        }
        let Some(content) = content_of(&self.files, name) else {
            return Ok(Found::Absent);
        };
        if content.len() as u64 > limit {
            return Ok(Found::Long);
        }
        into.clear();
        if into.extend_from_slice(content).is_err() {
            return Err(StoreError::Memory);
        }
        Ok(Found::Whole)
    }

    /// Makes the name's file these bytes, and keeps all others, but fails where the call is to fail; then all files stay.
    fn put(&mut self, name: &str, bytes: &[u8]) -> Result<(), StoreError>
        ensures put { OnOk result (Some self.new.files ≡ option_map (λ held. insert held name.now bytes.now) (Some self.old.files)) }
        ensures others { OnErr result (IfSome (Some self.old.files) (λ old. IfSome (Some self.new.files) (KeepsOthers name.now old))) }
        ensures memory { result ≡ Err Memory → Some self.new.files ≡ Some self.old.files }
        ensures told { is_some (Some self.new.files) ≡ is_some (Some self.old.files) }
        ensures failed { result ≡ Err Failed → Rose self.old.plan.faults self.new.plan.faults }
        ensures quiet { result ≢ Err Failed → self.new.plan.faults ≡ self.old.plan.faults }
        ensures later { self.old.plan.faults ≤ self.new.plan.faults }
        ensures sure { self.old.plan.failing ≡ [] → (result ≢ Err Failed) × (self.new.plan.failing ≡ []) × (self.new.plan.faults ≡ self.old.plan.faults) }

        // It fails exactly at the planned calls, only these raise the count of faults, and nothing changes where it fails.
        ensures fails { (result ≡ Err Failed) ↔ IsPlanned self.old.plan }
        ensures plan { self.new.plan ≡ after_call (is_failed result) self.old.plan }
        ensures kept { OnErr result (self.new.files ≡ self.old.files) }
    {
        if self.plan.count_call() {
            self.plan.count_fault();
            return Err(StoreError::Failed);
        }
        match set_content(self.alloc, &mut self.files, name, bytes) {
            Ok(()) => Ok(()),
            Err(AllocError) => Err(StoreError::Memory),
        }
    }
}
