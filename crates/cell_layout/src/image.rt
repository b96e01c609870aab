// What a table is in memory.
ghost use Rattle.std.specs.Prelude.{◌≡◌, IsTrue, IfOk, map, []};
ghost use Rattle.cell_layout.specs.Layout.{empty_image};
ghost use Rattle.cell_layout.specs.Valid.{is_valid};
ghost use Rattle.blink_base.specs.RowFits.{is_schema};

mod admit;
mod append;
mod build;
mod cells;
mod rows;

use crate::Cell;
use blink_base::{Column, List, Roomy, Row, Schema};
use order_codes::Dict;
use order_codes::laws::places_decode_to_their_values;
use std::alloc::{AllocError, Global};
use std::marker::Model;
use word_pool::Ledger;

/// What a table is in memory, seen as its image: per column its classes, the cells with the codes of their rows, and the
/// rows that are in no cell. Source: after Raman et al., ICDE 2008 (frequency partitioning).
#[derive(Drop)]
pub struct Image<M: Ledger> {
    /// The columns, and the primary key.
    pub schema: Schema,
    /// The classes of each column.
    pub dicts: List<Dict<M>>,
    /// The cells, in lexicographic order of their class numbers.
    pub cells: Roomy<Cell>,
    /// The rows that are in no cell.
    pub rest: Roomy<Row>,
    /// How many rows there are in all.
    pub rows: u64,
}

impl<M: Ledger> Model for Image<M> {
    ghost use Rattle.cell_layout.specs.Image.{TableImage};
    ghost use Rattle.cell_layout.specs.CellRepr.{image_of, IsImageRepr};

    ghost Value = { TableImage };

    ghost view = { λ a. image_of a.schema a.dicts a.cells.0 a.rest.0 };

    ghost invariant = { λ a. IsImageRepr a.schema a.dicts a.cells.0 a.rest.0 a.rows };
}

impl<M: Ledger> Image<M> {
    /// The image of a table without rows, before its first layout: no column has classes. The schema is one that a table may
    /// have.
    pub fn empty(alloc: Global, schema: Schema) -> Result<Image<M>, AllocError>
        requires { IsTrue (is_schema schema) }
        ensures empty { IfOk result (λ image. image ≡ empty_image schema) }
        ensures valid { IfOk result (λ image. IsTrue (is_valid image)) }
    {
        places_decode_to_their_values();
        let dicts = without_classes(alloc, schema.columns.as_slice())?;
        Ok(Image {
            schema,
            dicts,
            cells: Roomy::new(alloc),
            rest: Roomy::new(alloc),
            rows: 0,
        })
    }
}

// No classes for each column.
fn without_classes<M: Ledger>(
    alloc: Global,
    columns: &[Column],
) -> Result<List<Dict<M>>, AllocError>
    ensures { IfOk result (λ dicts. dicts ≡ map (λ column. []) columns.now) }
{
    let mut dicts = List::new(alloc);
    for _column in columns {
        match Dict::of(List::new(alloc)) {
            Some(dict) => dicts.push(dict)?,
            None => unreachable!(),
        }
    }
    Ok(dicts)
}
