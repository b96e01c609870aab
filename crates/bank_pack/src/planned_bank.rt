// The columns that share a word.
ghost use Rattle.std.specs.Prelude.{slice_get, Some, IfNone, false, ◌≡◌, [], ◌∷◌, ◌++◌, true, length, IfOk, OnOk, IfSome, IsSome, ◌↔◌, IsTrue};
ghost use Rattle.bank_pack.specs.Banks.{widths_of, columns_of, has_room, holds_column};
ghost use Rattle.masked_compare.specs.Fields.{is_width, is_shape};

use masked_compare::Shape;
use std::alloc::{AllocError, Global};
use std::marker::Model;

// Columns, and the shape of their fields.
#[derive(Drop)]
pub(crate) struct PlannedBank {
    columns: Vec<u32>,
    shape: Shape,
}

impl Model for PlannedBank {
    ghost use Rattle.std.specs.Prelude.{◌≡◌, length, IsTrue};
    ghost use Rattle.masked_compare.specs.Fields.{is_shape};
    ghost use Rattle.bank_pack.specs.Banks.{BankColumns};
    ghost use Rattle.bank_pack.specs.PlanRepr.{bank_made};

    ghost Value = { BankColumns };

    ghost view = { λ b. bank_made b.columns.items b.shape };

    ghost invariant = { λ b. (length b.columns.items ≡ length b.shape) × IsTrue (is_shape b.shape) };
}

impl PlannedBank {
    // Of one column.
    pub(crate) fn new(alloc: Global, column: u32, width: u8) -> Result<PlannedBank, AllocError>
        requires { is_width width ≡ true }
        ensures { IfOk result (λ bank. bank ≡ record { column = column; width = width } ∷ []) }
    {
        let mut columns = Vec::with_capacity(alloc, 1)?;
        columns.push(column)?;
        match Shape::new(&[width]) {
            Some(shape) => Ok(PlannedBank { columns, shape }),
            None => unreachable!(),
        }
    }

    // Whether there is room for a field of this width.
    pub(crate) fn has_room(&self, width: u8) -> bool
        requires { is_width width ≡ true }
        ensures { result ≡ has_room self.now (record { column = 0; width = width }) }
    {
        self.shape.with(width).is_some()
    }

    // Adds a field; where memory is wanting the bank may be given up.
    pub(crate) fn add(&mut self, column: u32, width: u8) -> Result<(), AllocError>
        requires width { is_width width ≡ true }
        requires room { has_room self.old (record { column = column; width = width }) ≡ true }
        ensures { OnOk result (self.new ≡ self.old ++ record { column = column; width = width } ∷ []) }
    {
        let Some(shape) = self.shape.with(width) else {
            unreachable!()
        };
        self.columns.push(column)?;
        self.shape = shape;
        Ok(())
    }

    // The shape of the fields.
    #[tactic(auto, using(crate::proofs::PlanLemmas::widths_made))]
    pub(crate) fn shape(&self) -> Shape
        ensures { result ≡ widths_of self.now }
    {
        self.shape
    }

    // The columns, in the order of the fields.
    #[tactic(auto, using(crate::proofs::PlanLemmas::columns_made))]
    pub(crate) fn columns(&self) -> &[u32]
        ensures { result.now ≡ columns_of self.now }
    {
        self.columns.as_slice()
    }

    // The field of a column, where it is here.
    pub(crate) fn field_of(&self, column: usize) -> Option<usize>
        ensures there { IfSome result (λ field. slice_get (columns_of self.now) field ≡ Some column) }
        ensures none { IfNone result (holds_column column self.now ≡ false) }
    {
        let columns = self.columns();
        for field in 0..columns.len() {
            if columns[field] as usize == column {
                return Some(field);
            }
        }
        None
    }
}
