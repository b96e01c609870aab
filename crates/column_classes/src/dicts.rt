// The dictionaries of rows.
ghost use Rattle.std.specs.Prelude.{◌≡◌, ◌≤◌, ◌+◌, ◌++◌, ◌==◌, ◌∷◌, [], ℕ, All, IfOk, OnOk, List as Listed, length, map, take};
ghost use Rattle.std.specs.List.{list_any};
ghost use Rattle.blink_base.specs.declared.value.Value.{Value as Held};
ghost use Rattle.column_classes.specs.ColumnClasses.{classes_if, column_values, counts_of, divided_columns, ranked_columns};
ghost use Rattle.blink_lists.specs.declared.limits.TheConstants.{MOST_COLUMNS, MOST_ROWS};
ghost use Rattle.blink_lists.specs.Lists.{numbers_from};
ghost use Rattle.blink_base.specs.Values.{Row as Values};
ghost use Rattle.blink_histogram.specs.Ranks.{ranked};
ghost use Rattle.freq_partition.specs.Division.{saving_of};
ghost use Rattle.column_classes.specs.ColumnStats.{AreRanked, IsColumn, IsRanked};
ghost use Rattle.column_classes.specs.CodedColumn.{ArePlacesOf};

use crate::CodedColumn;
use crate::column_stats::{RankedColumn, ranked_columns};
use blink_base::{List, Row};
use freq_partition::{Chosen, choose_columns};
use order_codes::Dict;
use std::alloc::{AllocError, Global};
use word_pool::Ledger;

/// What a layout needs of the columns of its rows. Source: this project's own.
#[derive(Drop)]
pub struct ColumnCodes<M: Ledger> {
    /// A dictionary a column.
    pub dicts: List<Dict<M>>,
    /// The places of the values of each column, row by row.
    pub places: List<CodedColumn>,
}

/// The classes that held rows and a batch behind them call for: a dictionary a column, and the place of each value.
/// There are at most 32 columns and 8,388,608 rows, each with a value per column. Source: after Raman et al., ICDE 2008
/// (frequency partitioning).
pub fn column_codes<M: Ledger>(
    alloc: Global,
    held: &[Row],
    batch: &[Row],
    columns: usize,
) -> Result<ColumnCodes<M>, AllocError>
    requires columns { columns ≤ MOST_COLUMNS }
    requires held { All (λ row. length row ≡ columns) held.now }
    requires batch { All (λ row. length row ≡ columns) batch.now }
    requires few { length held.now + length batch.now ≤ MOST_ROWS }
    ensures classes { IfOk result (λ codes. codes.dicts ≡ divided_columns (ranked_columns (held.now ++ batch.now) columns)) }
    ensures count { IfOk result (λ codes. length codes.dicts ≡ columns) }
    ensures places { IfOk result (λ codes. ArePlacesOf (held.now ++ batch.now) codes.dicts codes.places) }
{
    let all = ranked_columns(alloc, held, batch, columns)?;
    let savings = savings_of(alloc, all.as_slice())?;
    let chosen = choose_columns(savings.as_slice());
    let mut codes = ColumnCodes {
        dicts: List::new(alloc),
        places: List::new(alloc),
    };
    let mut number = 0;
    for column in all {
        add_column(alloc, column, is_chosen(&chosen, number), &mut codes)?;
        number += 1;
    }
    Ok(codes)
}

// Adds the dictionary and the places of a column behind those of others.
fn add_column<M: Ledger>(
    alloc: Global,
    column: RankedColumn,
    divided: bool,
    codes: &mut ColumnCodes<M>,
) -> Result<(), AllocError>
    requires { IsColumn column }
    ensures dicts { OnOk result ((values : Listed Held) → IsRanked (ranked values) column → codes.new.dicts ≡ codes.old.dicts ++ classes_if divided (ranked values) ∷ []) }
    ensures places { OnOk result ((rows : Listed Values) → column.column ≡ column_values rows (length codes.old.dicts) → ArePlacesOf rows codes.old.dicts codes.old.places → ArePlacesOf rows codes.new.dicts codes.new.places) }
{
    let (dict, places) = column.coded(alloc, divided)?;
    codes.dicts.push(dict)?;
    codes.places.push(places)?;
    Ok(())
}

// Whether a column is one of those that are divided.
fn is_chosen(chosen: &Chosen, column: usize) -> bool
    requires { chosen.now.count ≤ length chosen.now.columns }
    ensures { result ≡ list_any (λ k. k == column) (take chosen.now.count chosen.now.columns) }
{
    for place in 0..usize::from(chosen.count) {
        if chosen.columns[place] as usize == column {
            return true;
        }
    }
    false
}

// What the best division of each column saves.
fn savings_of(alloc: Global, columns: &[RankedColumn]) -> Result<Vec<u64>, AllocError>
    ensures { IfOk result (λ savings. (rows : Listed Values) (n : ℕ) → AreRanked rows n columns.now → savings.items ≡ map (λ values. saving_of (counts_of values)) (map (λ column. ranked (column_values rows column)) (numbers_from 0 n))) }
{
    let mut savings = Vec::with_capacity(alloc, columns.len())?;
    for column in columns {
        savings.push(column.saving)?;
    }
    Ok(savings)
}
