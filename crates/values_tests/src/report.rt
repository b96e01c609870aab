// The printed lines.
use blink_base::{Kind, List, Refusal, Word};
use report_text::{
    CellLine, ClassLine, ColumnLine, LayoutLines, added_text, created_text, dropped_text,
    layout_text, refusal_text, reorganized_text,
};
use std::alloc::{AllocError, Global};
use std::test::Fail;

// The line of a refusal by its number.
fn refusal_line(alloc: Global, number: u8) -> Result<List<u8>, AllocError> {
    match number {
        0 => refusal_text(
            alloc,
            &Refusal::UnknownColumn(Word::from_str(alloc, "t.a")?),
        ),
        _ => refusal_text(alloc, &Refusal::BadValue { at: 12, field: 3 }),
    }
}

#[test]
fn refusals_are_printed(rt: HostRuntime) -> Result<(), Fail> {
    let rows: [(u8, &[u8]); 2] = [
        (0, b"refused: unknown column t.a\n"),
        (1, b"refused: bad value 12 3\n"),
    ];
    for (number, line) in rows {
        assert_eq!(rt; refusal_line(rt.alloc(), number)?.as_slice(), line);
    }
    Ok(())
}

// A column of a table.
fn column(
    alloc: Global,
    name: &str,
    kind: Kind,
    classes: Vec<ClassLine>,
    key: bool,
) -> Result<ColumnLine, AllocError> {
    Ok(ColumnLine {
        name: Word::from_str(alloc, name)?,
        kind,
        classes: List::from_vec(classes),
        key,
    })
}

// A table of two columns and two cells.
fn layout(alloc: Global) -> Result<LayoutLines, AllocError> {
    let year = vec![in alloc;
        ClassLine { width: 1, size: 2 },
        ClassLine {
            width: 12,
            size: 4000
        },
    ]?;
    let town = vec![in alloc; ClassLine { width: 3, size: 8 }]?;
    let columns = vec![in alloc;
        column(alloc, "year", Kind::Int, year, true)?,
        column(alloc, "town", Kind::Text, town, false)?,
    ]?;
    let cells = vec![in alloc;
        CellLine {
            classes: List::from_vec(vec![in alloc; 0, 0]?),
            rows: 110,
            pages: 1,
            banks: List::from_vec(vec![in alloc; 8, 16]?),
        },
        CellLine {
            classes: List::from_vec(vec![in alloc; 1, 0]?),
            rows: 18446744073709551615,
            pages: 30,
            banks: List::from_vec(vec![in alloc; 16]?),
        },
    ]?;
    Ok(LayoutLines {
        table: Word::from_str(alloc, "sales")?,
        rows: 1142,
        blocks: 3,
        columns: List::from_vec(columns),
        cells: List::from_vec(cells),
        rest: 2,
    })
}

#[test]
fn layouts_are_printed(rt: HostRuntime) -> Result<(), Fail> {
    let text = "table sales rows 1142 blocks 3\n\
        column year int classes 2 1:2 12:4000 key\n\
        column town text classes 1 3:8\n\
        cell 0.0 rows 110 pages 1 banks 8,16\n\
        cell 1.0 rows 18446744073709551615 pages 30 banks 16\n\
        rest 2\n";
    let lines = layout(rt.alloc())?;
    assert_eq!(rt;
        layout_text(rt.alloc(), &lines)?.as_slice(),
        text.as_bytes()
    );
    Ok(())
}

// The line of a change by its number.
fn change_line(alloc: Global, number: u8) -> Result<List<u8>, AllocError> {
    let name = Word::from_str(alloc, "t")?;
    match number {
        0 => created_text(alloc, &name),
        1 => dropped_text(alloc, &name),
        2 => reorganized_text(alloc, &name),
        _ => added_text(alloc, 140),
    }
}

#[test]
fn changes_are_printed(rt: HostRuntime) -> Result<(), Fail> {
    let rows: [(u8, &[u8]); 4] = [
        (0, b"created t\n"),
        (1, b"dropped t\n"),
        (2, b"reorganized t\n"),
        (3, b"added 140\n"),
    ];
    for (number, line) in rows {
        assert_eq!(rt; change_line(rt.alloc(), number)?.as_slice(), line);
    }
    Ok(())
}
