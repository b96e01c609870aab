// The file of orders.
ghost use Rattle.std.specs.Prelude.{◌≡◌, ◌≤◌, IfOk};
ghost use Rattle.blink_gen.specs.Demo.{order_file};

use crate::MOST_SEED;
use crate::generator::Generator;
use crate::order::{add_order, draw_order};
use std::alloc::{AllocError, Global};

const HEADER: &[u8] =
    b"lo_orderkey,lo_custkey,lo_partkey,lo_orderdate,lo_quantity,lo_discount,lo_price,lo_revenue\n";

// No record has more bytes where there are at most a million orders: seven digits, 3, 3, 6, 2, 2, 4 and 6 of them, and
// eight bytes behind the fields.
const LONGEST_RECORD: usize = 41;

// The file of so many orders, drawn from a seed. AllocError where memory runs out.
pub(crate) fn order_file(alloc: Global, seed: u32, rows: u32) -> Result<Vec<u8>, AllocError>
    requires { seed ≤ MOST_SEED }
    ensures { IfOk result (λ file. file.items ≡ order_file seed rows) }
{
    let mut file = Vec::with_capacity(alloc, HEADER.len() + rows as usize * LONGEST_RECORD)?;
    file.extend_from_slice(HEADER)?;
    let mut generator = Generator::new(seed);
    for before in 0..rows {
        let order = draw_order(&mut generator, before + 1);
        add_order(&mut file, &order)?;
    }
    Ok(file)
}
