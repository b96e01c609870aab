// Whole numbers as fields of a record.
ghost use Rattle.std.specs.Prelude.{◌≡◌, ◌++◌, OnOk};
ghost use Rattle.std.specs.Fmt.{decimal};

use itoa::Buffer;
use std::alloc::AllocError;

// Adds a number, and the bytes behind it.
pub(crate) fn add_number(text: &mut Vec<u8>, number: u32, behind: &[u8]) -> Result<(), AllocError>
    ensures { OnOk result (text.new.items ≡ text.old.items ++ (decimal number ++ behind.now)) }
{
    let mut buffer = Buffer::new();
    text.extend_from_slice(buffer.format(number).as_bytes())?;
    text.extend_from_slice(behind)?;
    Ok(())
}
