// The files of a demonstration, in memory.
ghost use Rattle.std.specs.Prelude.{◌≡◌, ◌≤◌, [], IfOk};
ghost use Rattle.blink_edge.specs.Memory.{fresh};
ghost use Rattle.blink_gen.specs.Demo.{demo_files};

use crate::customers::customer_file;
use crate::months::month_file;
use crate::order_list::order_file;
use crate::parts::part_file;
use crate::{MOST_DEMO_ROWS, MOST_SEED};
use blink_edge::Shelf;
use std::alloc::{AllocError, Global};

/// The files `date.csv`, `customer.csv`, `part.csv` and `lineorder.csv`, with so many rows in the last, on a shelf of
/// which no call is to fail. The same seed and rows give the same bytes. AllocError where memory runs out. Source: this
/// project's own; the tables are after the star schema benchmark (O'Neil et al., TPCTC 2009).
pub fn files(alloc: Global, seed: u32, rows: u32) -> Result<Shelf, AllocError>
    requires seed { seed ≤ MOST_SEED }
    requires rows { rows ≤ MOST_DEMO_ROWS }
    ensures { IfOk result (λ shelf. shelf ≡ record { files = demo_files seed rows; plan = fresh [] }) }
{
    let mut shelf = Shelf::new(alloc, Vec::new(alloc));
    shelf.set("date.csv", month_file(alloc)?)?;
    shelf.set("customer.csv", customer_file(alloc)?)?;
    shelf.set("part.csv", part_file(alloc)?)?;
    shelf.set("lineorder.csv", order_file(alloc, seed, rows)?)?;
    Ok(shelf)
}
