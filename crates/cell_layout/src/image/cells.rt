// What an image tells of its cells.
ghost use Rattle.std.specs.Prelude.{◌≡◌, ◌<◌, length};
ghost use Rattle.cell_layout.specs.Image.{row_count, cell_at};
ghost use Rattle.cell_layout.specs.Blocks.{blocks, cell_banks, page_count};

use crate::Image;
use bank_pack::BankPlan;
use blink_base::{Row, Schema};
use order_codes::Dict;
use word_pool::Ledger;

impl<M: Ledger> Image<M> {
    /// How many rows there are in all. It takes no memory.
    pub fn row_count(&self) -> u64
        ensures { result ≡ row_count self.now }
    {
        self.rows
    }

    /// How many rows are in no cell. It takes no memory.
    pub fn rest_count(&self) -> usize
        ensures { result ≡ length self.now.rest }
    {
        self.rest.len()
    }

    /// The rows that are in no cell. It takes no memory.
    pub fn rest(&self) -> &[Row]
        ensures { result.now ≡ self.now.rest }
    {
        self.rest.as_slice()
    }

    /// The columns, and the primary key.
    pub fn schema(&self) -> &Schema
        ensures { result.now ≡ self.now.schema }
    {
        &self.schema
    }

    /// The dictionary of each column.
    pub fn dictionaries(&self) -> &[Dict<M>]
        ensures columns { result.now ≡ self.now.columns }
        ensures count { length result.now ≡ length self.now.schema.columns }
    {
        self.dicts.as_slice()
    }

    /// How many cells there are. They stand in the order of their class numbers.
    pub fn cell_count(&self) -> usize
        ensures { result ≡ length self.now.cells }
    {
        self.cells.len()
    }

    /// The number of the class of each column, in a cell.
    pub fn cell_classes(&self, cell: usize) -> &[u32]
        requires { cell < length self.now.cells }
        ensures { result.now ≡ (cell_at self.now cell).classes }
    {
        self.cells.as_slice()[cell].classes.as_slice()
    }

    /// How many rows a cell has.
    pub fn cell_rows(&self, cell: usize) -> u64
        requires { cell < length self.now.cells }
        ensures { result ≡ length (cell_at self.now cell).rows }
    {
        self.cells.as_slice()[cell].rows
    }

    /// How many pages a cell's rows take.
    pub fn cell_pages(&self, cell: usize) -> u64
        requires { cell < length self.now.cells }
        ensures { result ≡ page_count (cell_at self.now cell) }
    {
        self.cells.as_slice()[cell].pages()
    }

    /// Which columns of a cell share a word. Source: after Johnson et al., VLDB 2008 (packed fields).
    pub fn cell_plan(&self, cell: usize) -> &BankPlan
        requires { cell < length self.now.cells }
        ensures { result.now ≡ cell_banks self.now (cell_at self.now cell) }
    {
        &self.cells.as_slice()[cell].plan
    }

    /// How many blocks the rows of the cells take: for each cell its pages, each with the blocks of its banks. It takes no
    /// memory. Source: after Johnson et al., VLDB 2008 (packed fields); pages and blocks are this project's own.
    pub fn blocks(&self) -> u64
        ensures { result ≡ blocks self.now }
    {
        let mut blocks = 0;
        for cell in self.cells.as_slice() {
            blocks += cell.blocks();
        }
        blocks
    }
}
