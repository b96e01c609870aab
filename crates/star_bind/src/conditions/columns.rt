// The columns that parts of a condition name.
ghost use Rattle.std.specs.Prelude.{[], ◌≡◌, ◌==◌, OnOk, IfOk, map};
ghost use Rattle.std.specs.List.{list_any};
ghost use Rattle.blink_lists.specs.Lists.{joined, once_each};
ghost use Rattle.star_bind.specs.CappedCounts.{with_column, add_once};

use blink_base::List;
use std::alloc::{AllocError, Global};

// A part of a condition with its columns.
pub(crate) trait HasColumns {
    ghost use Rattle.std.specs.Prelude.{◌≡◌, ℕ, List};

    // The columns that it names, in the order of their first mention.
    ghost names: { Self → List ℕ };

    fn columns(&self) -> &List<usize>
        ensures { result.now ≡ names self.now };
}

// Whether a column is among these.
fn has(columns: &[usize], column: usize) -> bool
    ensures { result ≡ list_any (λ x. x == column) columns.now }
{
    columns.iter().any(|x| *x == column)
}

// Adds a column where it isn't there yet.
pub(crate) fn add_column(all: &mut List<usize>, column: usize) -> Result<(), AllocError>
    ensures { OnOk result (all.new ≡ with_column all.old column) }
{
    if has(all.as_slice(), column) {
        return Ok(());
    }
    all.push(column)
}

// Adds the columns that aren't there yet.
fn add_columns(all: &mut List<usize>, more: &[usize]) -> Result<(), AllocError>
    ensures { OnOk result (all.new ≡ add_once all.old more.now) }
{
    for column in more {
        add_column(all, *column)?;
    }
    Ok(())
}

// The columns of several parts, each once.
pub(crate) fn columns_in<P: HasColumns>(
    alloc: Global,
    parts: &[P],
) -> Result<List<usize>, AllocError>
    ensures { IfOk result (λ columns. columns ≡ once_each (λ x y. x == y) (joined (map P.names parts.now))) }
{
    let mut all = List::new(alloc);
    for part in parts {
        let columns = part.columns();
        add_columns(&mut all, columns.as_slice())?;
    }
    Ok(all)
}
