// The file of customers.
ghost use Rattle.std.specs.Prelude.{◌≡◌, ◌++◌, ◌%◌, [], slice_index_or, IfOk, OnOk};
ghost use Rattle.blink_gen.specs.Demo.{customer_file, customer_record, regions};

use crate::fields::add_number;
use crate::limits::CUSTOMERS;
use std::alloc::{AllocError, Global};

const HEADER: &[u8] = b"c_custkey,c_city,c_region\n";

// The longest record has so many bytes, as that of customer 119.
const LONGEST_RECORD: usize = 23;

// The region of the customer of this number.
fn region(number: u32) -> &'static [u8]
    ensures { result.now ≡ slice_index_or regions (number % 5) [] }
{
    match number % 5 {
        0 => b"AFRICA",
        1 => b"AMERICA",
        2 => b"ASIA",
        3 => b"EUROPE",
        _ => b"MIDDLE EAST",
    }
}

// Adds the record of the customer of this number.
fn add_customer(text: &mut Vec<u8>, number: u32) -> Result<(), AllocError>
    ensures { OnOk result (text.new.items ≡ text.old.items ++ customer_record number) }
{
    add_number(text, number, b",CITY")?;
    add_number(text, number % 20, b",")?;
    text.extend_from_slice(region(number))?;
    text.push(b'\n')?;
    Ok(())
}

// The file of all customers. AllocError where memory runs out.
pub(crate) fn customer_file(alloc: Global) -> Result<Vec<u8>, AllocError>
    ensures { IfOk result (λ file. file.items ≡ customer_file 200) }
{
    let mut file = Vec::with_capacity(alloc, HEADER.len() + CUSTOMERS as usize * LONGEST_RECORD)?;
    file.extend_from_slice(HEADER)?;
    for before in 0..CUSTOMERS {
        add_customer(&mut file, before + 1)?;
    }
    Ok(file)
}
