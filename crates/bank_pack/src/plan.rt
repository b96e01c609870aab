// The banks of a cell.
ghost use Rattle.std.specs.Prelude.{◌≡◌, ◌<◌, ◌≤◌, ◌+◌, true, length, slice_get, Some, IfOk, OnOk, [], slice_index_or as get_or};
ghost use Rattle.std.specs.List.{list_all, list_any, position_or_len};
ghost use Rattle.masked_compare.specs.Fields.{is_width};
ghost use Rattle.bank_pack.specs.Banks.{banks_of, put_in_first, has_room, holds_column, widths_of, columns_of};

use crate::planned_bank::PlannedBank;
use masked_compare::Shape;
use std::alloc::{AllocError, Global};
use std::marker::Model;

/// Which columns of a cell share a word, seen as its banks: each the columns whose fields lie side by side, the first
/// field lowest. Source: after Johnson et al., VLDB 2008; the rule of the banks is this project's own.
#[derive(Drop)]
pub struct BankPlan {
    banks: Vec<PlannedBank>,
}

impl Model for BankPlan {
    ghost use Rattle.std.specs.Prelude.{List};
    ghost use Rattle.bank_pack.specs.Banks.{BankColumns};

    ghost Value = { List BankColumns };

    ghost view = { λ plan. plan.banks.items };
}

impl BankPlan {
    /// The banks of a cell whose columns have codes of these widths: each column in order goes into the first bank that has
    /// room for its field within 32 bits, else into a new one.
    ///
    /// There are 1 to 32 widths of 1 to 23 bits.
    pub fn of(alloc: Global, widths: &[u8]) -> Result<BankPlan, AllocError>
        requires few { length widths.now ≤ 32 }
        requires widths { list_all is_width widths.now ≡ true }
        ensures { IfOk result (λ plan. plan ≡ banks_of widths.now) }
    {
        let mut plan = BankPlan {
            banks: Vec::new(alloc),
        };
        for at in 0..widths.len() {
            plan.put(at as u32, widths[at])?;
        }
        Ok(plan)
    }

    // Puts a column into the first bank with room, else into a new one.
    fn put(&mut self, column: u32, width: u8) -> Result<(), AllocError>
        requires { is_width width ≡ true }
        ensures { OnOk result (self.new ≡ put_in_first self.old (record { column = column; width = width })) }
    {
        let at = first_with_room(self.banks.as_slice(), width);
        if at < self.banks.len() {
            self.banks[at].add(column, width)?;
        } else {
            let alloc = *self.banks.allocator();
            self.banks.push(PlannedBank::new(alloc, column, width)?)?;
        }
        Ok(())
    }

    /// How many banks there are. It takes no memory.
    pub fn banks(&self) -> usize
        ensures { result ≡ length self.now }
    {
        self.banks.len()
    }

    /// The shape of a bank's fields. It takes no memory.
    pub fn shape(&self, bank: usize) -> Shape
        requires { bank < length self.now }
        ensures { result ≡ widths_of (get_or self.now bank []) }
    {
        self.banks[bank].shape()
    }

    /// A bank's columns, in the order of the fields. It takes no memory.
    pub fn columns(&self, bank: usize) -> &[u32]
        requires { bank < length self.now }
        ensures { result.now ≡ columns_of (get_or self.now bank []) }
    {
        self.banks[bank].columns()
    }

    /// The bank of a column, and its field there. It takes no memory.
    pub fn place(&self, column: usize) -> (usize, usize)
        // Some bank holds the column.
        requires { list_any (holds_column column) self.now ≡ true }
        ensures bank { result.0 < length self.now }
        ensures field { slice_get (columns_of (get_or self.now result.0 [])) result.1 ≡ Some column }
    {
        for bank in 0..self.banks.len() {
            if let Some(field) = self.banks[bank].field_of(column) {
                return (bank, field);
            }
        }
        unreachable!()
    }
}

// The place of the first bank with room for a field, else the number of banks.
fn first_with_room(banks: &[PlannedBank], width: u8) -> usize
    requires { is_width width ≡ true }
    ensures place { result ≡ position_or_len (λ bank. has_room bank (record { column = 0; width = width })) banks.now }
    ensures within { result ≤ length banks.now }
    ensures there { result < length banks.now → has_room (get_or banks.now result []) (record { column = 0; width = width }) ≡ true }
{
    let mut at = 0;
    while at < banks.len() && !banks[at].has_room(width) {
        at += 1;
    }
    at
}
