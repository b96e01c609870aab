// Tables by name, and the answer of `bind` to the text of a query over them.
ghost use Rattle.std.specs.Prelude.{◌≡◌, true, map, Some, None, IfOk, codes, if◌then◌else◌};
ghost use Rattle.std.specs.Str.{bytes_eq};
ghost use Rattle.binding_tests.specs.Allowed.{column_of, are_allowed};

use blink_base::{Column, Kind, List, Schema, Word};
use star_bind::{BindFault, Catalog, Query, bind};
use star_lex::tokens;
use star_sql::{Statement, parse};
use std::alloc::{AllocError, Global};

// Tables p (a, b), u (a, b text), d (k key, n text), e (j key, m) and f (fk, gk, v).
#[derive(Drop)]
pub(crate) struct Tables {
    p: Schema,
    u: Schema,
    d: Schema,
    e: Schema,
    f: Schema,
}

impl Catalog for Tables {
    ghost schemas = { λ s name. if bytes_eq name (codes "p") then Some s.p else (if bytes_eq name (codes "u") then Some s.u else (if bytes_eq name (codes "d") then Some s.d else (if bytes_eq name (codes "e") then Some s.e else (if bytes_eq name (codes "f") then Some s.f else None)))) };

    fn find(&self, name: &str) -> Option<&Schema> {
        if name == "p" {
            return Some(&self.p);
        }
        if name == "u" {
            return Some(&self.u);
        }
        if name == "d" {
            return Some(&self.d);
        }
        if name == "e" {
            return Some(&self.e);
        }
        if name == "f" {
            return Some(&self.f);
        }
        None
    }
}

// A schema of columns by name and kind.
fn schema(alloc: Global, columns: &[(&str, Kind)], key: Option<u32>) -> Result<Schema, AllocError>
    ensures { IfOk result (λ schema. schema ≡ record { columns = map column_of columns.now; key = key }) }
{
    let mut list = List::new(alloc);
    for (name, kind) in columns {
        list.push(Column {
            name: Word::from_str(alloc, name)?,
            kind: *kind,
        })?;
    }
    Ok(Schema { columns: list, key })
}

// All tables; each has a schema that a table may have.
fn all_tables(alloc: Global) -> Result<Tables, AllocError>
    ensures { IfOk result (λ tables. are_allowed tables.p tables.u tables.d tables.e tables.f ≡ true) }
{
    Ok(Tables {
        p: schema(alloc, &[("a", Kind::Int), ("b", Kind::Int)], None)?,
        u: schema(alloc, &[("a", Kind::Int), ("b", Kind::Text)], None)?,
        d: schema(alloc, &[("k", Kind::Int), ("n", Kind::Text)], Some(0))?,
        e: schema(alloc, &[("j", Kind::Int), ("m", Kind::Int)], Some(0))?,
        f: schema(
            alloc,
            &[("fk", Kind::Int), ("gk", Kind::Int), ("v", Kind::Int)],
            None,
        )?,
    })
}

// What `bind` answers to a text of at most 2,000 bytes; None where it is no query.
pub(crate) fn bound(
    alloc: Global,
    text: &str,
) -> Result<Option<Result<Query, BindFault>>, AllocError> {
    if text.len() > 2000 {
        return Ok(None);
    }
    let Ok(list) = tokens(alloc, text.as_bytes()) else {
        return Ok(None);
    };
    let Ok(statement) = parse(alloc, &list) else {
        return Ok(None);
    };
    let Statement::Select(select) = statement else {
        return Ok(None);
    };
    let tables = all_tables(alloc)?;
    Ok(Some(bind(alloc, &tables, &select)))
}
