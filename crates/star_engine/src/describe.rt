// What DESCRIBE tells of a table.
ghost use Rattle.std.specs.Prelude.{◌≡◌, ◌<◌, IfOk, map, length};
ghost use Rattle.bank_pack.specs.Banks.{tuplet_bits};
ghost use Rattle.cell_layout.specs.Image.{cell_at};
ghost use Rattle.star_engine.specs.Causes.{IsAnswer};
ghost use Rattle.star_engine.specs.State.{Tables};
ghost use Rattle.star_engine.specs.TableLayout.{cell_line, class_lines, column_line, column_lines, is_key_column, layout_of, described};
ghost use Rattle.star_engine.specs.EngineRepr.{IsEngineOf};

use crate::{Engine, EngineError};
use bank_pack::BankPlan;
use blink_base::{Column, List, Refusal, Schema, Word};
use cell_layout::Image;
use order_codes::Dict;
use report_text::{CellLine, ClassLine, ColumnLine, LayoutLines};
use std::alloc::{AllocError, Global};
use word_pool::Ledger;

// The width and the size of each class.
fn class_lines<M: Ledger>(alloc: Global, dict: &Dict<M>) -> Result<List<ClassLine>, AllocError>
    ensures { IfOk result (λ lines. lines ≡ class_lines dict.now) }
{
    let mut lines = List::new(alloc);
    for class in 0..dict.classes() {
        lines.push(ClassLine {
            width: dict.width(class),
            size: dict.size(class),
        })?;
    }
    Ok(lines)
}

// Whether a column is the key.
fn is_key(key: Option<u32>, column: usize) -> bool
    ensures { result ≡ is_key_column key column }
{
    match key {
        Some(key) => key as usize == column,
        None => false,
    }
}

// The line of a column, by its number.
fn column_line<M: Ledger>(
    alloc: Global,
    schema: &Schema,
    at: usize,
    column: &Column,
    dict: &Dict<M>,
) -> Result<ColumnLine, AllocError>
    ensures { IfOk result (λ line. line ≡ column_line schema.now (at, (column.now, dict.now))) }
{
    Ok(ColumnLine {
        name: column.name.copy(alloc)?,
        kind: column.kind,
        classes: class_lines(alloc, dict)?,
        key: is_key(schema.key, at),
    })
}

// The lines of the columns.
fn column_lines<M: Ledger>(
    alloc: Global,
    schema: &Schema,
    dicts: &[Dict<M>],
) -> Result<List<ColumnLine>, AllocError>
    requires { length dicts.now ≡ length schema.now.columns }
    ensures { IfOk result (λ lines. lines ≡ column_lines schema.now dicts.now) }
{
    let mut lines = List::new(alloc);
    let columns = schema.columns.as_slice();
    for at in 0..columns.len() {
        lines.push(column_line(alloc, schema, at, &columns[at], &dicts[at])?)?;
    }
    Ok(lines)
}

// The width of a tuplet of each bank, in bits.
fn bank_widths(alloc: Global, plan: &BankPlan) -> Result<List<u32>, AllocError>
    ensures { IfOk result (λ widths. widths ≡ map tuplet_bits plan.now) }
{
    let mut widths = List::new(alloc);
    for bank in 0..plan.banks() {
        widths.push(plan.shape(bank).bits())?;
    }
    Ok(widths)
}

// The line of a cell.
fn cell_line<M: Ledger>(
    alloc: Global,
    image: &Image<M>,
    cell: usize,
) -> Result<CellLine, AllocError>
    requires { cell < length image.now.cells }
    ensures { IfOk result (λ line. line ≡ cell_line image.now (cell_at image.now cell)) }
{
    Ok(CellLine {
        classes: List::from_vec(Vec::from_slice(alloc, image.cell_classes(cell))?),
        rows: image.cell_rows(cell),
        pages: image.cell_pages(cell),
        banks: bank_widths(alloc, image.cell_plan(cell))?,
    })
}

// The lines of the cells.
fn cell_lines<M: Ledger>(alloc: Global, image: &Image<M>) -> Result<List<CellLine>, AllocError>
    ensures { IfOk result (λ lines. lines ≡ map (cell_line image.now) image.now.cells) }
{
    let mut lines = List::new(alloc);
    for cell in 0..image.cell_count() {
        lines.push(cell_line(alloc, image, cell)?)?;
    }
    Ok(lines)
}

// The layout of a table of this name.
fn layout_of<M: Ledger>(
    alloc: Global,
    name: &Word,
    image: &Image<M>,
) -> Result<LayoutLines, AllocError>
    ensures { IfOk result (λ lines. lines ≡ layout_of name.now image.now) }
{
    Ok(LayoutLines {
        table: name.copy(alloc)?,
        rows: image.row_count(),
        blocks: image.blocks(),
        columns: column_lines(alloc, image.schema(), image.dictionaries())?,
        cells: cell_lines(alloc, image)?,
        rest: image.rest_count() as u64,
    })
}

impl<M: Ledger> Engine<M> {
    /// The layout of a table: its rows and blocks, the classes of each column, the cells, and how many rows are in none.
    /// DESCRIBE.
    ///
    /// It is refused with [`Refusal::UnknownTable`] exactly where there is no table of this name. [`EngineError::Memory`]
    /// comes where there isn't enough memory. Source: this project's own.
    pub fn describe(&self, alloc: Global, name: &Word) -> Result<LayoutLines, EngineError>
        ensures { (tables : Tables) → IsEngineOf tables self.now → IsAnswer result (described tables name.now) }
    {
        match self.find(name.as_str()) {
            Some(table) => Ok(layout_of(alloc, &table.name, &table.image)?),
            None => Err(EngineError::Refused(Refusal::UnknownTable(name.copy(alloc)?))),
        }
    }
}
