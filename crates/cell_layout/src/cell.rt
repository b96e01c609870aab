// Rows whose values are in the same classes.
ghost use Rattle.std.specs.Prelude.{◌≡◌, ◌≢◌, ◌==◌, ◌<◌, ◌≤◌, ◌*◌, ◌+◌, ◌++◌, ◌∷◌, [], ℕ, List as Listed, OnOk, All, length, sum_by, slice_index_or as get_or, IfOk, map, true};
ghost use Rattle.bank_pack.specs.Banks.{blocks_for, page_blocks, pages_for};
ghost use Rattle.cell_layout.specs.CellIndex.{HasPushed, AreWithin};
ghost use Rattle.cell_layout.specs.CellRepr.{row_of_codes, most_image_rows};
ghost use Rattle.blink_lists.specs.declared.limits.TheConstants.{MOST_COLUMNS, MOST_ROWS};
ghost use Rattle.std.specs.List.{list_all, list_any};
ghost use Rattle.masked_compare.specs.Fields.{is_width};
ghost use Rattle.cell_layout.specs.Blocks.{banks_for, cell_widths};
ghost use Rattle.cell_layout.specs.InsertRowRepr.{IsFirst};
ghost use Rattle.cell_layout.specs.MergeCells.{AreRoomier, HaveRoom, IsAbsorbed, HasAppended};

use crate::row_codes::RowCodes;
use bank_pack::BankPlan;
use blink_base::{List, Roomy};
use blink_lists::PAGE_ROWS;
use order_codes::Dict;
use std::alloc::{AllocError, Global};
use word_pool::Ledger;

/// The rows whose values are in the same classes. Source: after Raman et al., ICDE 2008 (cells of a frequency partition).
#[derive(Drop)]
pub struct Cell {
    /// The number of the class of each column.
    pub classes: List<u32>,
    /// Which columns share a word.
    pub plan: BankPlan,
    /// The codes of each column, in the order of the rows.
    pub codes: List<Roomy<u32>>,
    /// How many rows there are.
    pub rows: u64,
}

impl Cell {
    // The cell of a row that is the first with its class numbers.
    pub(crate) fn of<M: Ledger>(
        alloc: Global,
        dicts: &[Dict<M>],
        row: &RowCodes,
    ) -> Result<Cell, AllocError>
        requires few { length dicts.now ≤ MOST_COLUMNS }
        requires within { AreWithin dicts.now row.now.classes.items row.now.codes.items (length dicts.now) }
        ensures { IfOk result (λ cell. IsFirst dicts.now cell row.now.classes.items row.now.codes.items) }
    {
        let plan = plan_of(alloc, dicts, row.classes.as_slice())?;
        let classes = List::from_vec(Vec::from_slice(alloc, row.classes.as_slice())?);
        let codes = lists_of(alloc, row.codes.as_slice())?;
        Ok(Cell {
            classes,
            plan,
            codes,
            rows: 1,
        })
    }

    // The code of a row in a column.
    #[tactic(auto, using(crate::proofs::CellReprLemmas::code_of_row))]
    pub(crate) fn code(&self, row: u64, column: usize) -> u32
        requires full { All (λ codes. length codes.0 ≡ self.now.rows) self.now.codes }
        requires column { column < length self.now.codes }
        requires row { row < self.now.rows }
        ensures { result ≡ get_or (row_of_codes self.now.codes row) column 0 }
    {
        self.codes.as_slice()[column].as_slice()[row as usize]
    }

    // Whether a row has this code in a column.
    pub(crate) fn has_code(&self, column: usize, code: u32) -> bool
        requires { column < length self.now.codes }
        ensures { (d : Listed ℕ × ℕ) → result ≡ list_any (λ held. held == code) (get_or self.now.codes column d).0 }
    {
        self.codes.as_slice()[column].as_slice().contains(&code)
    }

    // Puts a row behind the others. Where memory is wanting the cell is given up.
    pub(crate) fn push(&mut self, codes: &[u32]) -> Result<(), AllocError>
        requires few { self.old.rows < most_image_rows }
        requires codes { length codes.now ≡ length self.old.codes }
        ensures classes { OnOk result (self.new.classes ≡ self.old.classes) }
        ensures plan { OnOk result (self.new.plan ≡ self.old.plan) }
        ensures codes { OnOk result (HasPushed self.old.codes self.new.codes codes.now) }
        ensures rows { OnOk result (self.new.rows ≡ self.old.rows + 1) }
    {
        push_codes(&mut self.codes, codes)?;
        self.rows += 1;
        Ok(())
    }

    // How many pages its rows take.
    pub(crate) fn pages(&self) -> u64
        requires { self.now.rows ≤ most_image_rows }
        ensures { result ≡ pages_for self.now.rows }
    {
        pages_of(self.rows)
    }

    /// How many blocks its rows take: its pages, each with the blocks of its banks. It takes no memory. Source: after Johnson
    /// et al., VLDB 2008 (packed fields); pages and blocks are this project's own.
    pub fn blocks(&self) -> u64
        requires banks { length self.now.plan ≤ MOST_COLUMNS }
        requires rows { self.now.rows ≤ most_image_rows }
        ensures number { result ≡ blocks_for self.now.plan self.now.rows }
        ensures few { result ≤ self.now.rows * 128 }
    {
        pages_of(self.rows) * page_blocks(&self.plan)
    }
}

// Which columns of these classes share a word.
fn plan_of<M: Ledger>(
    alloc: Global,
    dicts: &[Dict<M>],
    classes: &[u32],
) -> Result<BankPlan, AllocError>
    requires few { length dicts.now ≤ MOST_COLUMNS }
    requires count { length classes.now ≡ length dicts.now }
    requires numbers { (k : ℕ) → k < length dicts.now → get_or classes.now k 0 < length (get_or dicts.now k []) }
    ensures { IfOk result (λ plan. plan ≡ banks_for dicts.now classes.now) }
{
    let widths = widths_of(alloc, dicts, classes)?;
    BankPlan::of(alloc, widths.as_slice())
}

// The widths of these classes.
fn widths_of<M: Ledger>(
    alloc: Global,
    dicts: &[Dict<M>],
    classes: &[u32],
) -> Result<Vec<u8>, AllocError>
    requires count { length classes.now ≡ length dicts.now }
    requires numbers { (k : ℕ) → k < length dicts.now → get_or classes.now k 0 < length (get_or dicts.now k []) }
    ensures widths { IfOk result (λ widths. widths.items ≡ cell_widths dicts.now classes.now) }
    ensures narrow { IfOk result (λ widths. list_all is_width widths.items ≡ true) }
    ensures count { IfOk result (λ widths. length widths.items ≡ length dicts.now) }
{
    let mut widths = Vec::with_capacity(alloc, dicts.len())?;
    for column in 0..dicts.len() {
        widths.push(dicts[column].width(classes[column]))?;
    }
    Ok(widths)
}

// Each number as a list of its own.
fn lists_of(alloc: Global, numbers: &[u32]) -> Result<List<Roomy<u32>>, AllocError>
    ensures { IfOk result (λ lists. map (λ list. list.0) lists ≡ map (λ number. number ∷ []) numbers.now) }
{
    let mut lists = Vec::with_capacity(alloc, numbers.len())?;
    for number in numbers {
        let mut list = Roomy::new(alloc);
        list.push(*number)?;
        lists.push(list)?;
    }
    Ok(List::from_vec(lists))
}

// Puts a code behind those of each column.
fn push_codes(columns: &mut List<Roomy<u32>>, codes: &[u32]) -> Result<(), AllocError>
    requires { length codes.now ≡ length columns.old }
    ensures { OnOk result (HasPushed columns.old columns.new codes.now) }
{
    for column in 0..codes.len() {
        push_code(columns, column, codes[column])?;
    }
    Ok(())
}

// Puts a code behind those of a column.
fn push_code(columns: &mut List<Roomy<u32>>, column: usize, code: u32) -> Result<(), AllocError>
    requires { column < length columns.old }
    ensures count { length columns.new ≡ length columns.old }
    ensures here { OnOk result ((d : Listed ℕ × ℕ) → (get_or columns.new column d).0 ≡ (get_or columns.old column d).0 ++ code ∷ []) }
    ensures others { (k : ℕ) (d : Listed ℕ × ℕ) → k ≢ column → get_or columns.new k d ≡ get_or columns.old k d }
{
    match columns.get_mut(column) {
        Some(codes) => codes.push(code),
        None => unreachable!(),
    }
}

// How many pages so many rows take.
fn pages_of(rows: u64) -> u64
    requires { rows ≤ most_image_rows }
    ensures number { result ≡ pages_for rows }
    ensures few { result ≤ rows }
{
    rows.div_ceil(PAGE_ROWS)
}

// How many blocks a page of each bank takes.
#[tactic(auto, using(crate::proofs::BlockLemmas::page_few))]
fn page_blocks(plan: &BankPlan) -> u64
    requires { length plan.now ≤ MOST_COLUMNS }
    ensures number { result ≡ sum_by page_blocks plan.now }
    ensures few { result ≤ 128 }
{
    let mut blocks = 0;
    for bank in 0..plan.banks() {
        blocks += u64::from(plan.shape(bank).bits() / 8);
    }
    blocks
}

// Makes room for so many codes in each column.
pub(crate) fn reserve_columns(columns: &mut List<Roomy<u32>>, rows: usize) -> Result<(), AllocError>
    ensures same { AreRoomier columns.old columns.new }
    ensures room { OnOk result (HaveRoom columns.new rows) }
{
    for column in 0..columns.len() {
        reserve_column(columns, column, rows)?;
    }
    Ok(())
}

// Makes room for so many codes in a column.
fn reserve_column(
    columns: &mut List<Roomy<u32>>,
    column: usize,
    rows: usize,
) -> Result<(), AllocError>
    requires { column < length columns.old }
    ensures count { length columns.new ≡ length columns.old }
    ensures same { (d : Listed ℕ × ℕ) → (get_or columns.new column d).0 ≡ (get_or columns.old column d).0 }
    ensures more { (d : Listed ℕ × ℕ) → (get_or columns.old column d).1 ≤ (get_or columns.new column d).1 }
    ensures room { OnOk result ((d : Listed ℕ × ℕ) → rows ≤ (get_or columns.new column d).1) }
    ensures others { (k : ℕ) (d : Listed ℕ × ℕ) → k ≢ column → get_or columns.new k d ≡ get_or columns.old k d }
{
    match columns.get_mut(column) {
        Some(codes) => codes.reserve(rows),
        None => unreachable!(),
    }
}

// Adds the rows of a cell behind those of another.
pub(crate) fn absorb(cell: &mut Cell, more: &Cell)
    requires columns { length more.now.codes ≡ length cell.old.codes }
    requires room { (k : ℕ) (e : Listed ℕ × ℕ) → k < length more.now.codes → length (get_or more.now.codes k e).0 ≤ (get_or cell.old.codes k e).1 }
    requires few { cell.old.rows + more.now.rows ≤ MOST_ROWS }
    ensures { IsAbsorbed cell.old cell.new more.now }
{
    append_columns(&mut cell.codes, more.codes.as_slice());
    cell.rows += more.rows;
}

// Puts the codes of each column behind those of another.
fn append_columns(columns: &mut List<Roomy<u32>>, more: &[Roomy<u32>])
    requires columns { length more.now ≡ length columns.old }
    requires room { (k : ℕ) (e : Listed ℕ × ℕ) → k < length more.now → length (get_or more.now k e).0 ≤ (get_or columns.old k e).1 }
    ensures { HasAppended columns.old columns.new more.now }
{
    for column in 0..more.len() {
        append_column(columns, column, more[column].as_slice());
    }
}

// Puts codes behind those of a column.
fn append_column(columns: &mut List<Roomy<u32>>, column: usize, codes: &[u32])
    requires within { column < length columns.old }
    requires room { (e : Listed ℕ × ℕ) → length codes.now ≤ (get_or columns.old column e).1 }
    ensures count { length columns.new ≡ length columns.old }
    ensures here { (d : Listed ℕ × ℕ) → (get_or columns.new column d).0 ≡ (get_or columns.old column d).0 ++ codes.now }
    ensures others { (k : ℕ) (d : Listed ℕ × ℕ) → k ≢ column → get_or columns.new k d ≡ get_or columns.old k d }
{
    match columns.get_mut(column) {
        Some(all) => put_codes(all, codes),
        None => unreachable!(),
    }
}

// Puts codes behind others. It takes no memory.
fn put_codes(all: &mut Roomy<u32>, codes: &[u32])
    requires { length codes.now ≤ all.old.1 }
    ensures { all.new.0 ≡ all.old.0 ++ codes.now }
{
    for code in codes {
        all.put(*code);
    }
}
