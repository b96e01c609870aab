// The tables that are there, and the FROM entries of a query.
ghost use Rattle.std.specs.Prelude.{◌≡◌, Some, IfOk, filter, filter_map, map, is_none};
ghost use Rattle.std.specs.Option.{option_copied};
ghost use Rattle.blink_lists.specs.Lists.{first_of};
ghost use Rattle.star_bind.specs.BindAnswer.{refusal_of};
ghost use Rattle.star_bind.specs.BoundQuery.{Schemas, entry_of};
ghost use Rattle.star_bind.specs.Checks.{IsChecked, is_why};
ghost use Rattle.star_bind.specs.Lookup.{scope_from};

use crate::BindFault;
use crate::names::scope::Entry;
use blink_base::{Refusal, Schema, Word};
use std::alloc::Global;

/// The tables that are there, as far as their schemas. Source: this project's own.
pub trait Catalog {
    /// Their schemas, by name.
    ghost schemas: { Self → Schemas };

    /// The schema of the table of a name; None where there is none. It takes no memory.
    fn find(&self, name: &str) -> Option<&Schema>
        ensures { option_copied result ≡ schemas self.now name.now };
}

// The refusal of a table that isn't there.
fn unknown_table(alloc: Global, name: &Word) -> BindFault
    ensures { is_why (refusal_of result) (Some (Refusal.UnknownTable name.now)) }
{
    match name.copy(alloc) {
        Ok(word) => BindFault::UnknownTable(word),
        Err(_) => BindFault::Memory,
    }
}

// The FROM entries of a query, or the first table that isn't there.
pub(crate) fn entries<'a, C: Catalog>(
    alloc: Global,
    catalog: &'a C,
    tables: &'a [Word],
) -> Result<Vec<Entry<'a>>, BindFault>
    ensures entries { IfOk result (λ entries. scope_from entries.items ≡ filter_map (entry_of (C.schemas catalog.now)) tables.now) }
    ensures checked { IsChecked result (first_of (map (λ name. Refusal.UnknownTable name) (filter (λ name. is_none (C.schemas catalog.now name)) tables.now))) }
{
    let mut entries = Vec::with_capacity(alloc, tables.len())?;
    for name in tables {
        let Some(schema) = catalog.find(name.as_str()) else {
            return Err(unknown_table(alloc, name));
        };
        let Ok(()) = entries.push(Entry { name, schema }) else {
            return Err(BindFault::Memory);
        };
    }
    Ok(entries)
}
