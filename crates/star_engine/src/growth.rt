// How rows are added to a table.

/// How the rows of a batch are added to those of a table. Source: this project's own.
#[derive(Clone, Copy, Debug, PartialEq, Eq)]
pub enum Growth {
    /// All rows are laid out anew.
    Anew,
    /// The batch is added to the standing layout.
    Standing,
}
