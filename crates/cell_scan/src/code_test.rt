// A test of the codes of one column.

use page_synopsis::Ranges;

/// A column, and the codes of its class that qualify. Source: after Raman et al., ICDE 2008 (predicates on order-preserving
/// codes).
#[derive(Drop)]
pub struct CodeTest {
    /// The column, by its place in the schema.
    pub column: u32,
    /// The codes that qualify.
    pub ranges: Ranges,
}
