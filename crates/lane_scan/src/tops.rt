// The top bits of the lanes of four words, side by side.
ghost use Rattle.std.specs.Prelude.{◌≡◌, ◌<◌, ◌^◌, ◌/◌, ◌⊎◌, length};
ghost use Rattle.std.specs.Simd.Lanes.{Each1, mask_l};
ghost use Rattle.lane_scan.specs.Tops.{tops_in};

use std::simd::prelude::*;

// The top bits of lanes of so many bits.
#[inline(always)]
pub(crate) fn tops_of_four(bits: u32, words: u64x4) -> u64
    requires bits { (bits ≡ 8) ⊎ ((bits ≡ 16) ⊎ (bits ≡ 32)) }
    requires four { length words ≡ 4 }
    requires fit { Each1 (λ word. word < 2 ^ 64) words }
    ensures { result ≡ mask_l (tops_in bits (64 / bits) words) }
{
    match bits {
        8 => tops_of_eight(words),
        16 => tops_of_sixteen(words),
        _ => tops_of_thirty_two(words),
    }
}

// The top bits of the 32 lanes of 8 bits.
#[inline(always)]
fn tops_of_eight(words: u64x4) -> u64
    requires four { length words ≡ 4 }
    requires fit { Each1 (λ word. word < 2 ^ 64) words }
    ensures { result ≡ mask_l (tops_in 8 8 words) }
{
    let bytes: u8x32 = words.to_le_bytes();
    bytes.simd_ge(u8x32::splat(128)).to_bitmask()
}

// The top bits of the 16 lanes of 16 bits.
#[inline(always)]
fn tops_of_sixteen(words: u64x4) -> u64
    requires four { length words ≡ 4 }
    requires fit { Each1 (λ word. word < 2 ^ 64) words }
    ensures { result ≡ mask_l (tops_in 16 4 words) }
{
    let bytes: u8x32 = words.to_le_bytes();
    u16x16::from_le_bytes(bytes)
        .simd_ge(u16x16::splat(0x8000))
        .to_bitmask()
}

// The top bits of the 8 lanes of 32 bits.
#[inline(always)]
fn tops_of_thirty_two(words: u64x4) -> u64
    requires four { length words ≡ 4 }
    requires fit { Each1 (λ word. word < 2 ^ 64) words }
    ensures { result ≡ mask_l (tops_in 32 2 words) }
{
    let bytes: u8x32 = words.to_le_bytes();
    u32x8::from_le_bytes(bytes)
        .simd_ge(u32x8::splat(0x8000_0000))
        .to_bitmask()
}
