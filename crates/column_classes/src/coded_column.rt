// The places of a column's values.
ghost use Rattle.std.specs.Prelude.{◌≡◌, ◌≤◌, ◌<◌, IfOk, IsTrue, Some, length, slice_get};
ghost use Rattle.std.specs.List.{list_any};
ghost use Rattle.std.specs.Map.{keys_of};
ghost use Rattle.blink_base.specs.declared.value.Value.{Value as Held};
ghost use Rattle.blink_base.specs.Values.{same_value};
ghost use Rattle.blink_histogram.specs.Ranks.{counted};
ghost use Rattle.blink_lists.specs.Lists.{joined};
ghost use Rattle.order_codes.specs.Dictionary.{are_classes, class_at};
ghost use Rattle.column_classes.specs.CodedColumn.{ArePlacesIn, HavePlaces};

use blink_base::{List, Value};
use blink_histogram::{Interner, NumberedColumn};
use order_codes::CodePlace;
use order_codes::laws::{places_decode_to_their_values, values_are_found_where_they_were};
use std::alloc::{AllocError, Global};
use std::marker::Model;

/// The class and the code of each value of a column, row by row, seen as the list of them. No value is looked for: each is
/// found by its number. Source: after Raman et al., ICDE 2008 (order-preserving codes within a partition).
#[derive(Drop)]
pub struct CodedColumn {
    // By the numbers of the values.
    places: Vec<CodePlace>,
    // By row.
    numbers: Vec<u32>,
}

impl Model for CodedColumn {
    ghost use Rattle.std.specs.Prelude.{◌<◌, All, List, length};
    ghost use Rattle.order_codes.specs.declared.place.CodePlace.{CodePlace};
    ghost use Rattle.column_classes.specs.CodedColumn.{places_by};

    ghost Value = { List CodePlace };

    ghost view = { λ c. places_by c.places.items c.numbers.items };

    ghost invariant = { λ c. All (λ n. n < length c.places.items) c.numbers.items };
}

impl CodedColumn {
    // Of a column with these classes.
    pub(crate) fn of(
        alloc: Global,
        column: NumberedColumn,
        classes: &[List<Value>],
    ) -> Result<CodedColumn, AllocError>
        requires classes { IsTrue (are_classes classes.now) }
        requires values { (v : Held) → list_any (same_value v) (joined classes.now) ≡ list_any (same_value v) (keys_of (counted column)) }
        ensures { IfOk result (λ coded. ArePlacesIn classes.now column coded) }
    {
        places_decode_to_their_values();
        values_are_found_where_they_were();
        let interner = column.interner();
        let mut places = first_places(alloc, interner.len())?;
        for class in 0..classes.len() {
            place_class(interner, classes, class, &mut places);
        }
        Ok(CodedColumn {
            places,
            numbers: column.into_numbers(),
        })
    }

    /// The class and the code of the value of a row. It takes no memory.
    pub fn get(&self, row: usize) -> CodePlace
        requires { row < length self.now }
        ensures { slice_get self.now row ≡ Some result }
    {
        self.places[self.numbers[row] as usize]
    }
}

// So many places, each the first of all.
fn first_places(alloc: Global, count: usize) -> Result<Vec<CodePlace>, AllocError>
    ensures { IfOk result (λ places. length places.items ≡ count) }
{
    let mut places = Vec::with_capacity(alloc, count)?;
    for _number in 0..count {
        places.push(CodePlace { class: 0, code: 0 })?;
    }
    Ok(places)
}

// Writes the places of the values of a class, behind those of the classes before it.
fn place_class(
    interner: &Interner,
    classes: &[List<Value>],
    class: usize,
    places: &mut Vec<CodePlace>,
)
    requires classes { IsTrue (are_classes classes.now) }
    requires within { class < length classes.now }
    requires long { length places.old.items ≡ length interner.now }
    requires before { HavePlaces interner.now classes.now places.old.items class 0 }
    ensures long { length places.new.items ≡ length interner.now }
    ensures here { HavePlaces interner.now classes.now places.new.items class (length (class_at classes.now class)) }
{
    let values = classes[class].as_slice();
    for code in 0..values.len() {
        if let Some(number) = interner.find(&values[code]) {
            places[number as usize] = CodePlace {
                class: class as u32,
                code: code as u32,
            };
        }
    }
}
