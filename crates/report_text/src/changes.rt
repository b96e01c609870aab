// The lines of statements that changed the tables.
ghost use Rattle.std.specs.Prelude.{◌≡◌, IfOk};
ghost use Rattle.report_text.specs.Texts.{created_bytes, dropped_bytes, reorganized_bytes, added_bytes};

use crate::words::line_text;
use blink_base::{List, Word};
use itoa::Buffer;
use std::alloc::{AllocError, Global};

/// The line of a table that was made. AllocError where memory runs out. Source: this project's own.
pub fn created_text(alloc: Global, name: &Word) -> Result<List<u8>, AllocError>
    ensures { IfOk result (λ text. text ≡ created_bytes name.now) }
{
    line_text(alloc, b"created", &[name.as_str().as_bytes()])
}

/// The line of a table that was dropped. AllocError where memory runs out. Source: this project's own.
pub fn dropped_text(alloc: Global, name: &Word) -> Result<List<u8>, AllocError>
    ensures { IfOk result (λ text. text ≡ dropped_bytes name.now) }
{
    line_text(alloc, b"dropped", &[name.as_str().as_bytes()])
}

/// The line of a table that was laid out anew. AllocError where memory runs out. Source: this project's own.
pub fn reorganized_text(alloc: Global, name: &Word) -> Result<List<u8>, AllocError>
    ensures { IfOk result (λ text. text ≡ reorganized_bytes name.now) }
{
    line_text(alloc, b"reorganized", &[name.as_str().as_bytes()])
}

/// The line of so many rows that were added. AllocError where memory runs out. Source: this project's own.
pub fn added_text(alloc: Global, n: u64) -> Result<List<u8>, AllocError>
    ensures { IfOk result (λ text. text ≡ added_bytes n) }
{
    let mut buffer = Buffer::new();
    line_text(alloc, b"added", &[buffer.format(n).as_bytes()])
}
