// The file of months.
ghost use Rattle.std.specs.Prelude.{◌≡◌, ◌<◌, ◌++◌, IfOk, OnOk};
ghost use Rattle.blink_gen.specs.Demo.{month_file, month_record};
ghost use Rattle.blink_gen.specs.Orders.{month_key};

use crate::fields::add_number;
use crate::limits::MONTHS;
use std::alloc::{AllocError, Global};

const HEADER: &[u8] = b"d_datekey,d_year,d_month\n";

const FIRST_YEAR: u32 = 1992;

// The longest record has so many bytes, as that of December 1992.
const LONGEST_RECORD: usize = 15;

// The key of the month behind so many others.
pub(crate) fn month_key(before: u32) -> u32
    requires { before < MONTHS }
    ensures { result ≡ month_key before }
{
    (FIRST_YEAR + before / 12) * 100 + (before % 12 + 1)
}

// Adds the record of the month behind so many others.
fn add_month(text: &mut Vec<u8>, before: u32) -> Result<(), AllocError>
    requires { before < MONTHS }
    ensures { OnOk result (text.new.items ≡ text.old.items ++ month_record before) }
{
    add_number(text, month_key(before), b",")?;
    add_number(text, FIRST_YEAR + before / 12, b",")?;
    add_number(text, before % 12 + 1, b"\n")
}

// The file of all months. AllocError where memory runs out.
pub(crate) fn month_file(alloc: Global) -> Result<Vec<u8>, AllocError>
    ensures { IfOk result (λ file. file.items ≡ month_file 84) }
{
    let mut file = Vec::with_capacity(alloc, HEADER.len() + MONTHS as usize * LONGEST_RECORD)?;
    file.extend_from_slice(HEADER)?;
    for month in 0..MONTHS {
        add_month(&mut file, month)?;
    }
    Ok(file)
}
