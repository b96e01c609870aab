//! Laws of banks, which their definitions meet. Source: this project's own.

ghost use Rattle.bank_pack.specs.BankLaws.{OtherBlocksKeepBanks, BanksHaveTheirBlocks, BanksAreClean};

/// Where a bank's blocks are the same in two pools, it stands for the same rows.
pub fn other_blocks_keep_banks()
    ensures { OtherBlocksKeepBanks }
{}

/// A bank that stands for rows has the blocks of its pages; they are live, and no two of them are one.
pub fn banks_have_their_blocks()
    ensures { BanksHaveTheirBlocks }
{}

/// In every word of a bank the guard bits, the padding and the lanes behind the last row are zero.
#[tactic(auto, using(crate::proofs::LawLemmas::banks_are_clean))]
pub fn banks_are_clean()
    ensures { BanksAreClean }
{}
