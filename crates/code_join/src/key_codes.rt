// The codes of keys.
ghost use Rattle.std.specs.Prelude.{◌≡◌, ◌<◌, IfOk, IfSome, IsTrue, length, map};
ghost use Rattle.order_codes.specs.Dictionary.{class_at};
ghost use Rattle.page_synopsis.specs.BitSets.{all_below};
ghost use Rattle.page_synopsis.specs.Sets.{codes_in, is_set_of};
ghost use Rattle.code_join.specs.Keys.{is_key};
ghost use Rattle.code_join.specs.KeyCodes.{key_codes};

use crate::KeyMap;
use crate::class_code::code_of;
use order_codes::Dict;
use page_synopsis::{CodeBits, Ranges};
use std::alloc::{AllocError, Global};
use word_pool::Ledger;

/// The codes of a class of the dictionary whose values are keys, each below the size of the class; None exactly where there
/// is none. No code is decoded. Source: after Raman et al., ICDE 2008 (star joins on codes).
pub fn codes_of_keys<M: Ledger>(
    alloc: Global,
    dict: &Dict<M>,
    class: u32,
    keys: &KeyMap,
) -> Result<Option<Ranges>, AllocError>
    requires { class < length dict.now }
    ensures set { IfOk result (λ set. is_set_of set (key_codes keys.now (class_at dict.now class))) }
    ensures below { IfOk result (λ set. IfSome set (λ ranges. IsTrue (all_below (length (class_at dict.now class)) (codes_in ranges)))) }
{
    Ok(Ranges::of(key_bits(alloc, dict, class, keys)?))
}

// A bit for each code of a class: whether its value is a key.
fn key_bits<M: Ledger>(
    alloc: Global,
    dict: &Dict<M>,
    class: u32,
    keys: &KeyMap,
) -> Result<CodeBits, AllocError>
    requires { class < length dict.now }
    ensures { IfOk result (λ bits. bits ≡ map (is_key keys.now) (class_at dict.now class)) }
{
    let mut bits = CodeBits::new(alloc, dict.size(class))?;
    for at in 0..keys.len() {
        if let Some(code) = code_of(dict, class, keys.key(at as u32)) {
            bits.set(code);
        }
    }
    Ok(bits)
}
