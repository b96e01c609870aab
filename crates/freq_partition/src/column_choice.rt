// The columns that are divided.
ghost use Rattle.std.specs.Prelude.{◌≡◌, ◌≤◌, nat_lt, length, map, filter, take};
ghost use Rattle.std.specs.Ordering.{nat_cmp};
ghost use Rattle.blink_lists.specs.Lists.{in_order, numbered};
ghost use Rattle.freq_partition.specs.Division.{chosen_columns, padded, saving_cmp};
ghost use Rattle.freq_partition.specs.ColumnChoice.{saved_in};
ghost use Rattle.freq_partition.specs.TopThree.{items_in};

use crate::top_three::TopThree;
use blink_lists::MOST_COLUMNS;
use std::cmp::Reverse;

/// The columns that get their best division. Source: this project's own.
#[derive(Clone, Copy, Debug, PartialEq, Eq)]
pub struct Chosen {
    /// How many columns there are: at most three.
    pub count: u8,
    /// The columns, counted from 0, in rising order; zeros behind them.
    pub columns: [u32; 3],
}

// What a column saves; the order is by falling saving, then by the column.
#[derive(Clone, Copy, PartialEq, Eq, PartialOrd, Ord)]
struct ColumnSaving {
    saving: Reverse<u64>,
    column: u32,
}

/// The columns of the greatest savings above 0, at most three and the earlier of equal ones, in rising order.
///
/// `savings` has, for each of at most 32 columns, the cost of one class less that of the best division. It takes no
/// memory. Source: this project's own.
pub fn choose_columns(savings: &[u64]) -> Chosen
    requires { length savings.now ≤ MOST_COLUMNS }
    ensures count { result.count ≡ length (chosen_columns savings.now) }
    ensures columns { result.columns ≡ padded 3 (chosen_columns savings.now) }
{
    chosen_of(rising(greatest_of(savings)))
}

// The three greatest savings above 0.
fn greatest_of(savings: &[u64]) -> TopThree<ColumnSaving>
    requires { length savings.now ≤ MOST_COLUMNS }
    ensures first { saved_in result ≡ take 3 (in_order saving_cmp (filter (λ p. nat_lt 0 p.1) (numbered savings.now))) }
    ensures within { result.count ≤ 3 }
{
    let mut greatest = TopThree::none(ColumnSaving {
        saving: Reverse(0),
        column: 0,
    });
    for column in (0..savings.len()).rev() {
        let saving = savings[column];
        let saves = saving > 0;
        if saves {
            greatest = greatest.with(ColumnSaving {
                saving: Reverse(saving),
                column: column as u32,
            });
        }
    }
    greatest
}

// The columns of the savings, in rising order.
fn rising(greatest: TopThree<ColumnSaving>) -> TopThree<u32>
    requires { greatest.count ≤ 3 }
    ensures rising { items_in result ≡ in_order nat_cmp (map (λ p. p.0) (saved_in greatest)) }
    ensures within { result.count ≤ 3 }
{
    let mut columns = TopThree::none(0);
    if greatest.count > 2 {
        columns = columns.with(greatest.third.column);
    }
    if greatest.count > 1 {
        columns = columns.with(greatest.second.column);
    }
    if greatest.count > 0 {
        columns = columns.with(greatest.first.column);
    }
    columns
}

// The columns as an answer.
fn chosen_of(columns: TopThree<u32>) -> Chosen
    requires { columns.count ≤ 3 }
    ensures count { result.count ≡ length (items_in columns) }
    ensures columns { result.columns ≡ padded 3 (items_in columns) }
{
    let first = if columns.count > 0 { columns.first } else { 0 };
    let second = if columns.count > 1 { columns.second } else { 0 };
    let third = if columns.count > 2 { columns.third } else { 0 };
    Chosen {
        count: columns.count as u8,
        columns: [first, second, third],
    }
}
