// The codes of a row.
ghost use Rattle.std.specs.Prelude.{◌≡◌, ◌<◌, [], IfSome, Some, length, slice_index_or as get_or};
ghost use Rattle.blink_base.specs.Values.{Row as Values};
ghost use Rattle.blink_base.specs.declared.value.Value.{Value as Held};
ghost use Rattle.order_codes.specs.Dictionary.{place_of_value};
ghost use Rattle.cell_layout.specs.Places.{HasPlacesAt, IsPlaceIn};

use blink_base::Value;
use column_classes::CodedColumn;
use order_codes::laws::places_decode_to_their_values;
use order_codes::{CodePlace, Dict};
use std::alloc::{AllocError, Global};
use word_pool::Ledger;

// How many places of cells are remembered, each under a number of ten bits.
const HINTS: usize = 1024;

// The class numbers and the codes of a row, column by column, and where the cells of such rows were found last.
#[derive(Drop)]
pub(crate) struct RowCodes {
    pub(crate) classes: Vec<u32>,
    pub(crate) codes: Vec<u32>,
    // The class numbers, mixed into one.
    mixed: u32,
    // The places of cells, by the highest ten bits of the mixed number.
    hints: Vec<usize>,
}

impl RowCodes {
    ghost use Rattle.std.specs.Prelude.{◌≤◌, IfOk, OnOk, true, Ok, vec_capacity};
    ghost use Rattle.cell_layout.specs.Image.{is_coded, coded};
    ghost use Rattle.cell_layout.specs.CellIndex.{AreWithin};
    ghost use Rattle.cell_layout.specs.Places.{AreCodesOf};

    // Of no row yet, with room for so many columns.
    pub(crate) fn new(alloc: Global, columns: usize) -> Result<RowCodes, AllocError>
        ensures classes { IfOk result (λ codes. columns ≤ vec_capacity codes.classes) }
        ensures codes { IfOk result (λ codes. columns ≤ vec_capacity codes.codes) }
    {
        Ok(RowCodes {
            classes: Vec::with_capacity(alloc, columns)?,
            codes: Vec::with_capacity(alloc, columns)?,
            mixed: 0,
            hints: vec![in alloc; 0; HINTS]?,
        })
    }

    // Becomes those of a row, where each of its values has a code.
    pub(crate) fn read<M: Ledger>(
        &mut self,
        dicts: &[Dict<M>],
        row: &[Value],
    ) -> Result<bool, AllocError>
        requires full { length row.now ≡ length dicts.now }
        ensures told { OnOk result (result ≡ Ok (is_coded dicts.now row.now)) }
        ensures classes { result ≡ Ok true → self.new.classes.items ≡ (coded dicts.now row.now).classes }
        ensures codes { result ≡ Ok true → self.new.codes.items ≡ (coded dicts.now row.now).codes }
        ensures within { result ≡ Ok true → AreWithin dicts.now self.new.classes.items self.new.codes.items (length dicts.now) }
    {
        self.classes.clear();
        self.codes.clear();
        let mut mixed = 0;
        for column in 0..dicts.len() {
            match find_place(dicts, column, row) {
                Some(place) => {
                    self.classes.push(place.class)?;
                    self.codes.push(place.code)?;
                    mixed = mix(mixed, place.class);
                }
                None => return Ok(false),
            }
        }
        self.mixed = mixed;
        Ok(true)
    }

    // Becomes those of the row of a number, by the places of its values: the row is not read. It takes no memory.
    pub(crate) fn take<M: Ledger>(
        &mut self,
        dicts: &[Dict<M>],
        places: &[CodedColumn],
        number: usize,
    )
        requires row { (row : Values) × (length row ≡ length dicts.now) × HasPlacesAt dicts.now places.now number row }
        requires class_room { length dicts.now ≤ vec_capacity self.old.classes }
        requires code_room { length dicts.now ≤ vec_capacity self.old.codes }
        ensures row { (row : Values) → length row ≡ length dicts.now → HasPlacesAt dicts.now places.now number row → AreCodesOf dicts.now row self.new.classes.items self.new.codes.items }
        ensures within { AreWithin dicts.now self.new.classes.items self.new.codes.items (length dicts.now) }
        ensures class_room { vec_capacity self.new.classes ≡ vec_capacity self.old.classes }
        ensures code_room { vec_capacity self.new.codes ≡ vec_capacity self.old.codes }
    {
        self.classes.clear();
        self.codes.clear();
        let mut mixed = 0;
        for column in 0..dicts.len() {
            let place = known_place(dicts, places, number, column);
            self.classes.push_reserved(place.class);
            self.codes.push_reserved(place.code);
            mixed = mix(mixed, place.class);
        }
        self.mixed = mixed;
    }

    // Where the cell of a row with such class numbers was found last; it may have another place.
    pub(crate) fn hint(&self) -> usize {
        match self.hints.get(self.slot()) {
            Some(at) => *at,
            None => 0,
        }
    }

    // Remembers where the cell of the row stands.
    pub(crate) fn found(&mut self, at: usize)
        ensures classes { self.new.classes ≡ self.old.classes }
        ensures codes { self.new.codes ≡ self.old.codes }
    {
        let slot = self.slot();
        if let Some(hint) = self.hints.get_mut(slot) {
            *hint = at;
        }
    }

    // Which of the hints is that of the row.
    fn slot(&self) -> usize {
        (self.mixed >> 22) as usize
    }
}

// Mixes one more class number into others. The factor is odd, so that no number is lost.
fn mix(mixed: u32, class: u32) -> u32 {
    mixed.wrapping_add(class).wrapping_mul(0x9e37_79b1)
}

// The class and the code of a row's value in a column, where it has one.
fn find_place<M: Ledger>(dicts: &[Dict<M>], column: usize, row: &[Value]) -> Option<CodePlace>
    requires column { column < length dicts.now }
    requires full { length row.now ≡ length dicts.now }
    ensures place { (v : Held) → result ≡ place_of_value (get_or dicts.now column []) (get_or row.now column v) }
    ensures within { IfSome result (IsPlaceIn (get_or dicts.now column [])) }
{
    // What decodes is within, and the lists of a dictionary are the classes of a column.
    places_decode_to_their_values();
    let dict = &dicts[column];
    let _classes = dict.classes();
    dict.find(&row[column])
}

// The class and the code of the value of a row's column, by the places of the column.
fn known_place<M: Ledger>(
    dicts: &[Dict<M>],
    places: &[CodedColumn],
    number: usize,
    column: usize,
) -> CodePlace
    requires column { column < length dicts.now }
    requires row { (row : Values) × HasPlacesAt dicts.now places.now number row }
    ensures place { (row : Values) (v : Held) → HasPlacesAt dicts.now places.now number row → Some result ≡ place_of_value (get_or dicts.now column []) (get_or row column v) }
    ensures within { IsPlaceIn (get_or dicts.now column []) result }
{
    // What decodes is within, and the lists of a dictionary are the classes of a column.
    places_decode_to_their_values();
    let _classes = dicts[column].classes();
    places[column].get(number)
}
