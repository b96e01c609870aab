// Four words at a time.
ghost use Rattle.std.specs.Prelude.{◌≡◌, ◌<◌, ◌≤◌, ◌+◌, ◌*◌, ◌%◌, ◌^◌, length, All, flat_map};
ghost use Rattle.std.specs.Simd.Lanes.{Each1, mask_l};
ghost use Rattle.masked_compare.specs.Fields.{lane_bits, lane_count};
ghost use Rattle.masked_compare.specs.Words.{IsClean};
ghost use Rattle.masked_compare.specs.Rounds.{IsRound, outside_rounds};

use crate::tops::tops_of_four;
use masked_compare::{Round, Shape};
use std::simd::prelude::*;

// Bit by bit, whether each lane of these words lies outside every round.
#[inline(always)]
pub(crate) fn outside_in(shape: Shape, rounds: &[Round], words: &[u64]) -> u64
    requires bounds { All (IsRound shape) rounds.now }
    requires clean { All (IsClean shape) words.now }
    requires fours { length words.now % 4 ≡ 0 }
    requires few { length words.now ≤ lane_bits shape }
    ensures { result ≡ mask_l (flat_map (outside_rounds shape rounds.now) words.now) }
{
    let (fours, _) = words.as_chunks::<4>();
    let lanes = shape.lanes();
    let mut outside = 0;
    let mut place = 0;
    for four in fours {
        outside |= outside_in_four(shape, rounds, u64x4::from_array(*four)) << place;
        place += 4 * lanes;
    }
    outside
}

// Bit by bit, whether each lane of four words lies outside every round.
#[inline(always)]
fn outside_in_four(shape: Shape, rounds: &[Round], four: u64x4) -> u64
    requires bounds { All (IsRound shape) rounds.now }
    requires four { length four ≡ 4 }
    requires fit { Each1 (λ word. word < 2 ^ 64) four }
    requires clean { Each1 (IsClean shape) four }
    ensures { result ≡ mask_l (flat_map (outside_rounds shape rounds.now) four) }
{
    tops_of_four(shape.bits(), shape.outside_every_round(rounds, four))
}
