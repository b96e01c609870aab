// The columns that a query names, and where the value of each is found beside a row of its fact.
ghost use Rattle.std.specs.Prelude.{◌≡◌, ◌==◌, ◌∷◌, ◌++◌, [], IfOk, OnOk, flat_map};
ghost use Rattle.std.specs.List.{list_any, position_or_len};
ghost use Rattle.star_select.specs.Picks.{expr_refs, item_refs, named_refs, pick_of, wanted_columns};
ghost use Rattle.star_select.specs.WantedColumns.{wanted_of, with_wanted};

use late_decode::Pick;
use star_bind::{BoundExpr, BoundItem, ColumnRef, Query, Tie};
use std::alloc::{AllocError, Global};

// A place as a short number. A list that is too long for one takes more memory than there is.
pub(crate) fn short(place: usize) -> Result<u32, AllocError>
    ensures { IfOk result (λ short. short ≡ place) }
{
    if place > u32::MAX as usize {
        return Err(AllocError);
    }
    Ok(place as u32)
}

// Adds one column.
fn add_one(refs: &mut Vec<ColumnRef>, a: ColumnRef) -> Result<(), AllocError>
    ensures { OnOk result (refs.new.items ≡ refs.old.items ++ a ∷ []) }
{
    refs.push(a)?;
    Ok(())
}

// Adds two columns.
fn add_two(refs: &mut Vec<ColumnRef>, a: ColumnRef, b: ColumnRef) -> Result<(), AllocError>
    ensures { OnOk result (refs.new.items ≡ refs.old.items ++ a ∷ b ∷ []) }
{
    refs.push(a)?;
    refs.push(b)?;
    Ok(())
}

// Adds the columns that an expression names.
fn add_expr_refs(refs: &mut Vec<ColumnRef>, expr: BoundExpr) -> Result<(), AllocError>
    ensures { OnOk result (refs.new.items ≡ refs.old.items ++ expr_refs expr) }
{
    match expr {
        BoundExpr::One(a) => add_one(refs, a),
        BoundExpr::Times(a, b) => add_two(refs, a, b),
        BoundExpr::Plus(a, b) => add_two(refs, a, b),
        BoundExpr::Minus(a, b) => add_two(refs, a, b),
    }
}

// Adds the columns that an item names.
fn add_item_refs(refs: &mut Vec<ColumnRef>, item: BoundItem) -> Result<(), AllocError>
    ensures { OnOk result (refs.new.items ≡ refs.old.items ++ item_refs item) }
{
    match item {
        BoundItem::Column(r) => add_one(refs, r),
        BoundItem::Count => Ok(()),
        BoundItem::Sum(expr) => add_expr_refs(refs, expr),
        BoundItem::Average(expr) => add_expr_refs(refs, expr),
        BoundItem::Least(r) => add_one(refs, r),
        BoundItem::Greatest(r) => add_one(refs, r),
    }
}

// The columns that items name, in their order.
fn item_refs(alloc: Global, items: &[BoundItem]) -> Result<Vec<ColumnRef>, AllocError>
    ensures { IfOk result (λ refs. refs.items ≡ flat_map item_refs items.now) }
{
    let mut refs = Vec::new(alloc);
    for item in items {
        add_item_refs(&mut refs, *item)?;
    }
    Ok(refs)
}

// The columns that items and groups name, in the order of the text.
fn named_refs(alloc: Global, query: &Query) -> Result<Vec<ColumnRef>, AllocError>
    ensures { IfOk result (λ refs. refs.items ≡ named_refs query.now) }
{
    let mut refs = item_refs(alloc, query.items.as_slice())?;
    refs.extend_from_slice(query.groups.as_slice())?;
    Ok(refs)
}

// The place of a column among others; their number where it isn't there.
fn column_place(columns: &[u32], column: u32) -> usize
    ensures { result ≡ position_or_len (λ c. c == column) columns.now }
{
    for (at, c) in columns.iter().enumerate() {
        if *c == column {
            return at;
        }
    }
    columns.len()
}

// Whether a column is among others.
fn is_among(columns: &[u32], column: u32) -> bool
    ensures { result ≡ list_any (λ c. c == column) columns.now }
{
    columns.contains(&column)
}

// Adds a named column where it is one of the table and isn't there yet.
fn add_wanted(columns: &mut Vec<u32>, table: u32, r: ColumnRef) -> Result<(), AllocError>
    ensures { OnOk result (columns.new.items ≡ with_wanted table columns.old.items r) }
{
    if r.table != table {
        return Ok(());
    }
    if is_among(columns.as_slice(), r.column) {
        return Ok(());
    }
    columns.push(r.column)?;
    Ok(())
}

// The columns of a table among named ones, each once.
fn wanted_of(alloc: Global, refs: &[ColumnRef], table: u32) -> Result<Vec<u32>, AllocError>
    ensures { IfOk result (λ columns. columns.items ≡ wanted_of table refs.now) }
{
    let mut columns = Vec::new(alloc);
    for r in refs {
        add_wanted(&mut columns, table, *r)?;
    }
    Ok(columns)
}

// The columns of a dimension that are wanted beside its key, each once.
pub(crate) fn wanted_columns(
    alloc: Global,
    query: &Query,
    table: u32,
) -> Result<Vec<u32>, AllocError>
    ensures { IfOk result (λ columns. columns.items ≡ wanted_columns query.now table) }
{
    let refs = named_refs(alloc, query)?;
    wanted_of(alloc, refs.as_slice(), table)
}

// The place of the tie that leads to a dimension; the number of ties where none does.
fn tie_place(ties: &[Tie], table: u32) -> usize
    ensures { result ≡ position_or_len (λ t. t.dimension == table) ties.now }
{
    for (at, tie) in ties.iter().enumerate() {
        if tie.dimension == table {
            return at;
        }
    }
    ties.len()
}

// Where the value of a column is found beside a row of the fact.
pub(crate) fn pick_of(alloc: Global, query: &Query, r: ColumnRef) -> Result<Pick, AllocError>
    ensures { IfOk result (λ pick. pick ≡ pick_of query.now r) }
{
    if r.table == query.fact {
        return Ok(Pick::Fact(r.column));
    }
    let tie = short(tie_place(query.ties.as_slice(), r.table))?;
    let columns = wanted_columns(alloc, query, r.table)?;
    let place = short(column_place(columns.as_slice(), r.column))?;
    Ok(Pick::Dimension { tie, place })
}
