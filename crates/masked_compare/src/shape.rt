// How the fields of one row lie in a lane of a word.
ghost use Rattle.std.specs.Prelude.{◌≡◌, ◌≢◌, [], ◌∷◌, ◌++◌, ◌+◌, ◌-◌, ◌*◌, ◌/◌, ◌%◌, ◌≤◌, ◌<◌, ◌^◌, ◌⊎◌, length, replicate, IsTrue, IfSome, IsSome, ◌↔◌};
ghost use Rattle.std.specs.List.{list_all};
ghost use Rattle.masked_compare.specs.Fields.{is_shape, is_width, fields_bits, lane_holding, lane_bits, lane_count};
ghost use Rattle.masked_compare.specs.Words.{stacked};
ghost use Rattle.masked_compare.specs.Marks.{lane_guards, guards_of, tops_of};

use blink_lists::{MOST_LANE_BITS, MOST_WIDTH, WORD_BITS};
use std::marker::Model;

/// How the fields of one row lie in a lane of a 64-bit word, seen as their widths: side by side, the first lowest, each
/// with a guard bit above. Source: after Johnson et al., VLDB 2008; the widths are this project's own.
#[derive(Debug, Clone, Copy)]
pub struct Shape {
    widths: [u8; 16],
    count: usize,
    bits: u32,
    guards: u64,
    tops: u64,
}

impl Model for Shape {
    ghost use Rattle.std.specs.Prelude.{List, ℕ};
    ghost use Rattle.std.specs.Coded.{coded_list, coded_ℕ};
    ghost use Rattle.masked_compare.specs.ShapeRepr.{widths_of, IsGood, fields_of, fields_back};

    ghost Value = { List ℕ };

    ghost coded = { coded_list coded_ℕ };

    ghost view = { widths_of };

    ghost invariant = { IsGood };

    ghost inverse = { fields_of };

    ghost inverse_ok = { fields_back };
}

impl Shape {
    /// The shape of fields of these widths, in bits without the guard bit.
    ///
    /// None exactly where there is no width, a width is outside 1 to 23, or the fields with their guard bits have more
    /// than 32 bits. It takes no memory.
    pub fn new(widths: &[u8]) -> Option<Shape>
        ensures shape { IfSome result (λ shape. shape ≡ widths.now) }
        ensures some { IsSome result ↔ IsTrue (is_shape widths.now) }
    {
        let taken = bits_of(widths)?;
        let mut kept = [0; 16];
        kept[..widths.len()].copy_from_slice(widths);
        let bits = lane_holding(taken);
        let ones = lowest_bits(bits);
        let guards = guards_in_lane(widths) * ones;
        Some(Shape {
            widths: kept,
            count: widths.len(),
            bits,
            guards,
            tops: ones << (bits - 1),
        })
    }

    /// The shape with one more field behind the others. None exactly where these are no shape's widths. It takes no
    /// memory.
    pub fn with(self, width: u8) -> Option<Shape>
        ensures shape { IfSome result (λ shape. shape ≡ self ++ width ∷ []) }
        ensures some { IsSome result ↔ IsTrue (is_shape (self ++ width ∷ [])) }
    {
        let mut widths = self.widths;
        if self.count >= widths.len() {
            return None;
        }
        widths[self.count] = width;
        Shape::new(&widths[..self.count + 1])
    }

    /// The bits of a lane: 8, 16 or 32. It takes no memory.
    #[inline]
    pub fn bits(self) -> u32
        ensures value { result ≡ lane_bits self }
        ensures shape { IsTrue (is_shape self) }
        ensures fits { fields_bits self ≤ lane_bits self }
        ensures whole { lane_bits self * lane_count self ≡ 64 }
    {
        self.bits
    }

    /// How many lanes a word of 64 bits has. It takes no memory.
    #[inline]
    pub fn lanes(self) -> usize
        ensures { result ≡ lane_count self }
    {
        (WORD_BITS / self.bits) as usize
    }

    /// The guard bits of every lane: the bit above each field. It takes no memory. Source: after Johnson et al., VLDB 2008.
    #[inline]
    pub fn guards(self) -> u64
        ensures value { result ≡ guards_of self }
        ensures shape { IsTrue (is_shape self) }
    {
        self.guards
    }

    /// The top bit of every lane. It takes no memory. Source: after Johnson et al., VLDB 2008.
    #[inline]
    pub fn tops(self) -> u64
        ensures value { result ≡ tops_of self }
        ensures shape { IsTrue (is_shape self) }
    {
        self.tops
    }

    // The widths, the first field's first.
    pub(crate) fn widths(&self) -> &[u8]
        ensures value { result.now ≡ self.now }
        ensures shape { IsTrue (is_shape self.now) }
    {
        &self.widths[..self.count]
    }
}

// The bits of fields of these widths, where they are a shape's.
fn bits_of(widths: &[u8]) -> Option<u32>
    ensures bits { IfSome result (λ bits. bits ≡ fields_bits widths.now) }
    ensures few { IfSome result (λ bits. 2 * length widths.now ≤ bits) }
    ensures some { IsSome result ↔ IsTrue (is_shape widths.now) }
{
    if widths.is_empty() {
        return None;
    }
    let mut bits = 0;
    for width in widths {
        if *width == 0 || *width > MOST_WIDTH {
            return None;
        }
        bits += *width as u32 + 1;
        if bits > MOST_LANE_BITS {
            return None;
        }
    }
    Some(bits)
}

// The guard bits of a lane of fields of these widths.
fn guards_in_lane(widths: &[u8]) -> u64
    requires { IsTrue (is_shape widths.now) }
    ensures { result ≡ lane_guards widths.now }
{
    let mut guards = 0;
    let mut place = 0;
    for width in widths {
        place += u32::from(*width);
        guards += 1 << place;
        place += 1;
    }
    guards
}

// The lowest bit of every lane of so many bits.
pub(crate) fn lowest_bits(bits: u32) -> u64
    requires { (bits ≡ 8) ⊎ ((bits ≡ 16) ⊎ (bits ≡ 32)) }
    ensures value { result ≡ stacked bits (replicate (64 / bits) 1) }
    ensures tops { (result * 2 ^ (bits - 1)) % 2 ^ 64 ≡ stacked bits (replicate (64 / bits) (2 ^ (bits - 1))) }
{
    match bits {
        8 => 0x0101_0101_0101_0101,
        16 => 0x0001_0001_0001_0001,
        _ => 0x0000_0001_0000_0001,
    }
}

// The least lane that holds so many bits.
fn lane_holding(bits: u32) -> u32
    ensures { result ≡ lane_holding bits }
{
    if bits <= 8 {
        8
    } else if bits <= 16 {
        16
    } else {
        32
    }
}
