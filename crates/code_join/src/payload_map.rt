// Places of keys by code.
ghost use Rattle.std.specs.Prelude.{◌≡◌, ◌<◌, None, IfOk, length, replicate, slice_index_or, slice_set, Some};
ghost use Rattle.std.specs.Option.{option_or};
ghost use Rattle.order_codes.specs.Dictionary.{class_at};
ghost use Rattle.code_join.specs.KeyCodes.{places_in};

use crate::KeyMap;
use crate::class_code::code_of;
use order_codes::Dict;
use std::alloc::{AllocError, Global};
use std::marker::Model;
use word_pool::Ledger;

/// Per code of a class the place of its value among some keys, where it is one, seen as the list of these places. Source:
/// after Raman et al., ICDE 2008 (star joins on codes).
#[derive(Drop)]
pub struct PayloadMap {
    places: Vec<Option<u32>>,
}

impl Model for PayloadMap {
    ghost use Rattle.std.specs.Prelude.{List, Option, ℕ};

    ghost Value = { List (Option ℕ) };

    ghost view = { λ it. it.places.items };
}

impl PayloadMap {
    /// The place of the value of a code; None where it is no key, and past the last code. It takes no memory.
    pub fn get(&self, code: u32) -> Option<u32>
        ensures { result ≡ slice_index_or self.now code None }
    {
        match self.places.get(code as usize) {
            Some(place) => *place,
            None => None,
        }
    }
}

/// Per code of a class of the dictionary the place of its value among the keys. No code is decoded.
pub fn payload<M: Ledger>(
    alloc: Global,
    dict: &Dict<M>,
    class: u32,
    keys: &KeyMap,
) -> Result<PayloadMap, AllocError>
    requires { class < length dict.now }
    ensures { IfOk result (λ map. map ≡ places_in keys.now (class_at dict.now class)) }
{
    let mut places = no_places(alloc, dict.size(class) as usize)?;
    for at in 0..keys.len() {
        if let Some(code) = code_of(dict, class, keys.key(at as u32)) {
            note(&mut places, code as usize, at as u32);
        }
    }
    Ok(PayloadMap { places })
}

// No place for each of so many codes.
fn no_places(alloc: Global, size: usize) -> Result<Vec<Option<u32>>, AllocError>
    ensures { IfOk result (λ places. places.items ≡ replicate size None) }
{
    let mut places = Vec::with_capacity(alloc, size)?;
    for _code in 0..size {
        places.push(None)?;
    }
    Ok(places)
}

// Keeps a place for a code that has none.
fn note(places: &mut Vec<Option<u32>>, code: usize, at: u32)
    requires { code < length places.old.items }
    ensures { places.new.items ≡ slice_set places.old.items code (option_or (slice_index_or places.old.items code None) (Some at)) }
{
    if places[code].is_none() {
        places[code] = Some(at);
    }
}
