// Keys with payload.
ghost use Rattle.std.specs.Prelude.{◌≡◌, ◌<◌, ◌≤◌, ◌++◌, [], ◌∷◌, length, slice_get, None, IfSome, OnOk, OnErr};
ghost use Rattle.std.specs.Map.{keys_of, values_of};
ghost use Rattle.code_join.specs.Keys.{place_of_key};

use crate::MOST_KEYS;
use blink_base::{Row, Value};
use indexmap::IndexMap;
use std::alloc::{AllocError, Global};
use std::marker::Model;

/// Distinct key values, each with a row of payload values, seen as the list of pairs in the order in which they were put.
/// Source: after Raman et al., ICDE 2008 (star joins by key sets).
#[derive(Drop)]
pub struct KeyMap {
    entries: IndexMap<Value, Row>,
}

impl Model for KeyMap {
    ghost use Rattle.std.specs.Prelude.{◌≤◌, length};
    ghost use Rattle.code_join.specs.declared.limits.TheConstants.{MOST_KEYS};
    ghost use Rattle.code_join.specs.Keys.{Keyed};

    ghost Value = { Keyed };

    ghost view = { λ it. it.entries.entries };

    ghost invariant = { λ it. length it.entries.entries ≤ MOST_KEYS };
}

impl KeyMap {
    /// No keys. It takes no memory.
    pub fn new(alloc: Global) -> KeyMap
        ensures { result ≡ [] }
    {
        KeyMap {
            entries: IndexMap::new(alloc),
        }
    }

    /// Puts a new key with its payload behind the others. Fewer than 4,294,967,296 keys are there. Want of memory changes
    /// nothing.
    pub fn put(&mut self, key: Value, payload: Row) -> Result<(), AllocError>
        requires absent { place_of_key self.old key ≡ None }
        requires few { length self.old < MOST_KEYS }
        ensures ok { OnOk result (self.new ≡ self.old ++ (key, payload) ∷ []) }
        ensures err { OnErr result (self.new ≡ self.old) }
    {
        self.entries.insert(key, payload)?;
        Ok(())
    }

    /// How many keys there are, at most 4,294,967,296. It takes no memory.
    pub fn len(&self) -> usize
        ensures number { result ≡ length self.now }
        ensures few { result ≤ MOST_KEYS }
    {
        self.entries.len()
    }

    /// The place of a key, counted from 0; None where it isn't there. It takes no memory.
    pub fn place(&self, key: &Value) -> Option<u32>
        ensures place { result ≡ place_of_key self.now key.now }
        ensures within { IfSome result (λ place. place < length self.now) }
    {
        match self.entries.get_index_of(key) {
            Some(at) => Some(at as u32),
            None => None,
        }
    }

    /// The key at a place. It takes no memory.
    pub fn key(&self, place: u32) -> &Value
        requires { place < length self.now }
        ensures { slice_get (keys_of self.now) place ≡ Some result.now }
    {
        match self.entries.get_index(place as usize) {
            Some((key, _)) => key,
            None => unreachable!(),
        }
    }

    /// The payload of the key at a place. It takes no memory.
    pub fn payload(&self, place: u32) -> &Row
        requires { place < length self.now }
        ensures { slice_get (values_of self.now) place ≡ Some result.now }
    {
        match self.entries.get_index(place as usize) {
            Some((_, payload)) => payload,
            None => unreachable!(),
        }
    }
}
