//! Worked shapes and words, as facts that compute.

ghost use Rattle.masked_compare.specs.Examples.{ShapesTold, OneFieldTold, TwoFieldsTold};

/// Which widths are a shape's, and how wide its lanes are.
pub fn shapes_told()
    ensures { ShapesTold }
{}

/// One field in lanes of 8 bits, and the guard bits of the codes within bounds.
#[tactic(auto, unfolding(crate::specs::Words::rows_in, crate::specs::Marks::marks_of, crate::specs::Marks::inside_of))]
pub fn one_field_told()
    ensures { OneFieldTold }
{}

/// Two fields in lanes of 16 bits: rows as a word and back, the guard bits of the codes within bounds, and the lanes that
/// lack one.
#[tactic(auto, unfolding(crate::specs::Words::word_of, crate::specs::Words::rows_in, crate::specs::Marks::marks_of, crate::specs::Marks::inside_of, crate::specs::Marks::marked_in, crate::specs::Marks::tops_where))]
pub fn two_fields_told()
    ensures { TwoFieldsTold }
{}
