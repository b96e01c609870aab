//! Worked banks, as facts that compute.

ghost use Rattle.bank_pack.specs.Examples.{BanksFilled};

/// Columns in banks, and the blocks that their rows take.
pub fn banks_filled()
    ensures { BanksFilled }
{}
