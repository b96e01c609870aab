// The file of parts.
ghost use Rattle.std.specs.Prelude.{◌≡◌, ◌++◌, IfOk, OnOk};
ghost use Rattle.blink_gen.specs.Demo.{part_file, part_record};

use crate::fields::add_number;
use crate::limits::PARTS;
use std::alloc::{AllocError, Global};

const HEADER: &[u8] = b"p_partkey,p_category,p_brand\n";

// The longest record has so many bytes, as that of part 100.
const LONGEST_RECORD: usize = 16;

// Adds the record of the part of this number.
fn add_part(text: &mut Vec<u8>, number: u32) -> Result<(), AllocError>
    ensures { OnOk result (text.new.items ≡ text.old.items ++ part_record number) }
{
    add_number(text, number, b",CAT")?;
    add_number(text, number % 5, b",BRAND")?;
    add_number(text, number % 25, b"\n")
}

// The file of all parts. AllocError where memory runs out.
pub(crate) fn part_file(alloc: Global) -> Result<Vec<u8>, AllocError>
    ensures { IfOk result (λ file. file.items ≡ part_file 100) }
{
    let mut file = Vec::with_capacity(alloc, HEADER.len() + PARTS as usize * LONGEST_RECORD)?;
    file.extend_from_slice(HEADER)?;
    for before in 0..PARTS {
        add_part(&mut file, before + 1)?;
    }
    Ok(file)
}
