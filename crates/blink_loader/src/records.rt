// The records of a CSV text, one behind the other.
ghost use Rattle.std.specs.Prelude.{◌≡◌, ◌∷◌, [], IfOk, slice_index_or};
ghost use Rattle.std.specs.Bool.{MatchBool};
ghost use Rattle.csv.specs.Records.{fields_of};
ghost use Rattle.blink_loader.specs.Records.{records_of, same_name};

use csv::{ByteRecord, Reader, ReaderBuilder};
use std::alloc::{AllocError, Global};
use std::marker::Model;

// A reader of a text, which contracts see as the records that are left.
#[derive(Drop)]
pub(crate) struct Records<'a> {
    reader: Reader<&'a [u8]>,
    done: bool,
}

impl<'a> Model for Records<'a> {
    ghost use Rattle.std.specs.Prelude.{List, ℕ};
    ghost use Rattle.blink_loader.specs.RecordsLeft.{records_left, IsReading};

    ghost Value = { List (List (List ℕ)) };

    ghost view = { λ r. records_left r.done r.reader };

    ghost invariant = { λ r. IsReading r.done r.reader };
}

impl<'a> Records<'a> {
    pub(crate) fn new(alloc: Global, text: &'a [u8]) -> Records<'a>
        ensures { result ≡ records_of text.now }
    {
        let reader = ReaderBuilder::new()
            .has_headers(false)
            .flexible(true)
            .from_reader(alloc, text);
        Records {
            reader,
            done: false,
        }
    }

    // Reads the next record into `row`, in the place of what it held, and tells whether there was one. `row` keeps its
    // memory, and takes more only where it has too little room.
    pub(crate) fn next(&mut self, row: &mut ByteRecord) -> Result<bool, AllocError>
        ensures { IfOk result (λ found. MatchBool found (self.old ≡ fields_of row.new ∷ self.new) (self.old ≡ [])) }
    {
        if self.done {
            return Ok(false);
        }
        let Ok(found) = self.reader.read_byte_record(row) else {
            self.done = true;
            return Err(AllocError);
        };
        self.done = !found;
        Ok(found)
    }
}

// The field at a place, empty past the end.
pub(crate) fn field_of(row: &ByteRecord, at: usize) -> &[u8]
    ensures { result.now ≡ slice_index_or (fields_of row.now) at [] }
{
    match row.get(at) {
        Some(field) => field,
        None => &[],
    }
}

// Whether two names are equal, the case of ASCII letters apart.
pub(crate) fn same_name(name: &str, field: &[u8]) -> bool
    ensures { result ≡ same_name name.now field.now }
{
    name.as_bytes().eq_ignore_ascii_case(field)
}
