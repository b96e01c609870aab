// The text of DESCRIBE.
ghost use Rattle.std.specs.Prelude.{◌≡◌, ◌++◌, ◌∷◌, [], codes, map, flat_map, IfOk, OnOk};
ghost use Rattle.std.specs.Fmt.{decimal};
ghost use Rattle.report_text.specs.Texts.{line_text, class_text, column_bytes, cell_bytes, layout_bytes, kind_text, key_words, each_behind};

use crate::words::{add_line, add_number, add_word, add_words, numbers_text};
use crate::{CellLine, ClassLine, ColumnLine, LayoutLines};
use blink_base::{Kind, List};
use itoa::Buffer;
use std::alloc::{AllocError, Global};

// The name of a kind.
fn kind_text(kind: Kind) -> &'static [u8]
    ensures { result.now ≡ kind_text kind }
{
    match kind {
        Kind::Int => b"int",
        Kind::Text => b"text",
        Kind::Date => b"date",
    }
}

// Adds a blank, and the width and size of a class.
fn add_class(text: &mut Vec<u8>, class: ClassLine) -> Result<(), AllocError>
    ensures { OnOk result (text.new.items ≡ text.old.items ++ (codes " " ++ class_text class)) }
{
    text.push(b' ')?;
    add_number(text, u32::from(class.width))?;
    text.push(b':')?;
    add_number(text, class.size)?;
    Ok(())
}

// Adds the widths and sizes of classes, with a blank before each.
fn add_classes(text: &mut Vec<u8>, classes: &[ClassLine]) -> Result<(), AllocError>
    ensures { OnOk result (text.new.items ≡ text.old.items ++ each_behind (codes " ") (map class_text classes.now)) }
{
    for class in classes {
        add_class(text, *class)?;
    }
    Ok(())
}

// Adds the word of the primary key, with a blank before it.
fn add_key(text: &mut Vec<u8>, key: bool) -> Result<(), AllocError>
    ensures { OnOk result (text.new.items ≡ text.old.items ++ each_behind (codes " ") (key_words key)) }
{
    if key {
        add_word(text, b"key")?;
    }
    Ok(())
}

// Adds the line of a column.
fn add_column(text: &mut Vec<u8>, column: &ColumnLine) -> Result<(), AllocError>
    ensures { OnOk result (text.new.items ≡ text.old.items ++ column_bytes column.now) }
{
    let mut count_buffer = Buffer::new();
    let count = count_buffer.format(column.classes.len()).as_bytes();
    text.extend_from_slice(b"column")?;
    add_word(text, column.name.as_str().as_bytes())?;
    add_word(text, kind_text(column.kind))?;
    add_words(text, &[b"classes", count])?;
    add_classes(text, column.classes.as_slice())?;
    add_key(text, column.key)?;
    text.push(b'\n')?;
    Ok(())
}

// Adds the lines of columns.
fn add_columns(text: &mut Vec<u8>, columns: &[ColumnLine]) -> Result<(), AllocError>
    ensures { OnOk result (text.new.items ≡ text.old.items ++ flat_map column_bytes columns.now) }
{
    for column in columns {
        add_column(text, column)?;
    }
    Ok(())
}

// Adds the line of a cell.
fn add_cell(alloc: Global, text: &mut Vec<u8>, cell: &CellLine) -> Result<(), AllocError>
    ensures { OnOk result (text.new.items ≡ text.old.items ++ cell_bytes cell.now) }
{
    let classes = numbers_text(alloc, b'.', cell.classes.as_slice())?;
    let banks = numbers_text(alloc, b',', cell.banks.as_slice())?;
    let mut rows_buffer = Buffer::new();
    let mut pages_buffer = Buffer::new();
    let rows = rows_buffer.format(cell.rows).as_bytes();
    let pages = pages_buffer.format(cell.pages).as_bytes();
    add_line(
        text,
        b"cell",
        &[
            classes.as_slice(),
            b"rows",
            rows,
            b"pages",
            pages,
            b"banks",
            banks.as_slice(),
        ],
    )
}

// Adds the lines of cells.
fn add_cells(alloc: Global, text: &mut Vec<u8>, cells: &[CellLine]) -> Result<(), AllocError>
    ensures { OnOk result (text.new.items ≡ text.old.items ++ flat_map cell_bytes cells.now) }
{
    for cell in cells {
        add_cell(alloc, text, cell)?;
    }
    Ok(())
}

// Adds the line of a table.
fn add_table(text: &mut Vec<u8>, lines: &LayoutLines) -> Result<(), AllocError>
    ensures { OnOk result (text.new.items ≡ text.old.items
        ++ line_text (codes "table" ∷ lines.now.table ∷ codes "rows" ∷ decimal lines.now.rows ∷ codes "blocks" ∷ decimal lines.now.blocks ∷ [])) }
{
    let mut rows_buffer = Buffer::new();
    let mut blocks_buffer = Buffer::new();
    let name = lines.table.as_str().as_bytes();
    let rows = rows_buffer.format(lines.rows).as_bytes();
    let blocks = blocks_buffer.format(lines.blocks).as_bytes();
    add_line(text, b"table", &[name, b"rows", rows, b"blocks", blocks])
}

// Adds the line of the rows in no cell.
fn add_rest(text: &mut Vec<u8>, rest: u64) -> Result<(), AllocError>
    ensures { OnOk result (text.new.items ≡ text.old.items ++ line_text (codes "rest" ∷ decimal rest ∷ [])) }
{
    let mut buffer = Buffer::new();
    add_line(text, b"rest", &[buffer.format(rest).as_bytes()])
}

/// The text of DESCRIBE: the line of the table, a line for each column and each cell, and the line of the rows in no
/// cell. AllocError where memory runs out. Source: this project's own.
pub fn layout_text(alloc: Global, lines: &LayoutLines) -> Result<List<u8>, AllocError>
    ensures { IfOk result (λ text. text ≡ layout_bytes lines.now) }
{
    let mut text = Vec::new(alloc);
    add_table(&mut text, lines)?;
    add_columns(&mut text, lines.columns.as_slice())?;
    add_cells(alloc, &mut text, lines.cells.as_slice())?;
    add_rest(&mut text, lines.rest)?;
    Ok(List::from_vec(text))
}
