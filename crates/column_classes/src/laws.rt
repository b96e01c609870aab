//! A law of the classes, which their definition meets. Source: this project's own.

ghost use Rattle.column_classes.specs.ColumnClasses.{ClassesAreDivided};

/// The classes that rows call for are good ones for the rows' schema.
#[tactic(auto, using(crate::proofs::ClassesForLemmas::called_valid))]
pub fn classes_of_rows_are_good()
    ensures { ClassesAreDivided }
{}
