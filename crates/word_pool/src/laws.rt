//! Laws of the region, which its definitions meet. Source: this project's own.

ghost use Rattle.word_pool.specs.RegionLaws.{KeepsOtherBlocks};

/// Where one block changes, any list of other blocks stands for what it stood for.
#[tactic(auto, using(crate::proofs::RegionLemmas::keeps_other_blocks))]
pub fn other_blocks_are_kept()
    ensures { KeepsOtherBlocks }
{}
