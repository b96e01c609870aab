// What the lines of DESCRIBE tell.
use blink_base::{Kind, List, Word};

/// What DESCRIBE prints of a class of a column. Source: this project's own.
#[derive(Clone, Copy, Debug, PartialEq, Eq)]
pub struct ClassLine {
    /// The width of its codes, in bits.
    pub width: u8,
    /// How many values it has.
    pub size: u32,
}

/// What DESCRIBE prints of a column. Source: this project's own.
#[derive(Debug, Drop)]
pub struct ColumnLine {
    /// Its name.
    pub name: Word,
    /// What its values are.
    pub kind: Kind,
    /// Its classes, in the order of their numbers.
    pub classes: List<ClassLine>,
    /// Whether it is the primary key.
    pub key: bool,
}

/// What DESCRIBE prints of a cell. Source: this project's own.
#[derive(Debug, Drop)]
pub struct CellLine {
    /// The number of its class of each column, in the order of the columns.
    pub classes: List<u32>,
    /// How many rows it holds.
    pub rows: u64,
    /// How many pages these rows take.
    pub pages: u64,
    /// The width of a tuplet of each of its banks, in bits.
    pub banks: List<u32>,
}

/// What DESCRIBE prints of a table. Source: this project's own.
#[derive(Debug, Drop)]
pub struct LayoutLines {
    /// Its name.
    pub table: Word,
    /// How many rows it has, those of rest among them.
    pub rows: u64,
    /// How many blocks it takes.
    pub blocks: u64,
    /// Its columns, in the order of a row's values.
    pub columns: List<ColumnLine>,
    /// Its cells.
    pub cells: List<CellLine>,
    /// How many of its rows are in no cell.
    pub rest: u64,
}
