// Statements over an engine.
ghost use Rattle.std.specs.Prelude.{◌≡◌, ◌≤◌, ◌<◌, IsTrue};
ghost use Rattle.blink_lists.specs.declared.limits.TheConstants.{MOST_ROWS};
ghost use Rattle.star_sql.specs.WellFormed.{is_well_formed};
ghost use Rattle.star_engine.specs.EngineRepr.{HasTables};

use blink_base::{Limits, List, Word};
use report_text::refusal_text;
use star_engine::{Engine, EngineError};
use star_lex::tokens;
use star_sql::{Statement, parse};
use std::alloc::{AllocError, Global};
use std::marker::Brand;
use std::sync::ledger;
use std::sync::ledger::Blank;
use std::test::Fail;
use word_pool::{Ledger, Steps, Tally};

// The text of a statement, the CSV text that it reads, and what is answered.
type Case = (&'static [u8], &'static [u8], &'static str);

const CHANGES: [Case; 25] = [
    (b"CREATE TABLE t (a INT, b TEXT)", b"", "0"),
    (b"CREATE TABLE t (c DATE)", b"", "refused: table exists t\n"),
    (
        b"CREATE TABLE u (a INT, a TEXT)",
        b"",
        "refused: bad columns\n",
    ),
    (
        b"CREATE TABLE u (a INT PRIMARY KEY, b TEXT PRIMARY KEY)",
        b"",
        "refused: bad columns\n",
    ),
    (
        b"CREATE TABLE u (a INT, b INT, c INT, d INT, e INT, f INT, g INT, h INT, i INT, j INT, k INT, l INT, m INT, n INT, o INT, p INT, q INT, r INT, s INT, t INT, u INT, v INT, w INT, x INT, y INT, z INT, aa INT, ab INT, ac INT, ad INT, ae INT, af INT, ag INT)",
        b"",
        "refused: bad columns\n",
    ),
    (
        b"LOAD INTO t FROM 'f'",
        b"A,b\n1,\"x,\"\"y\"\"\"\n\n2,\n",
        "2",
    ),
    (b"LOAD INTO t FROM 'f'", b"b,a\n", "refused: header\n"),
    (
        b"LOAD INTO t FROM 'f'",
        b"a,b\n1,x\n2\n",
        "refused: arity 2\n",
    ),
    (b"APPEND INTO t FROM 'f'", b"a,b\n1,x\n2,y\n", "2"),
    (b"LOAD INTO u FROM 'f'", b"", "refused: unknown table u\n"),
    (b"CREATE TABLE e (a INT, d DATE)", b"", "0"),
    (
        b"INSERT INTO e VALUES (1, '2024-02-29'), ('x', DATE '2024-01-01')",
        b"",
        "refused: bad value 2 1\n",
    ),
    (b"INSERT INTO e VALUES (1)", b"", "refused: arity 1\n"),
    (
        b"INSERT INTO e VALUES (-999999999999999, DATE '2024-02-29')",
        b"",
        "1",
    ),
    (
        b"INSERT INTO e VALUES (1, DATE '2023-02-29')",
        b"",
        "refused: bad value 1 2\n",
    ),
    (
        b"LOAD INTO e FROM 'f'",
        b"a,d\n1,2024-02-29\n1000000000000000,2024-01-01\n",
        "refused: bad value 2 1\n",
    ),
    (
        b"LOAD INTO e FROM 'f'",
        b"a,d\n999999999999999,2024-02-29\n",
        "1",
    ),
    (b"CREATE TABLE d (k INT PRIMARY KEY)", b"", "0"),
    (
        b"INSERT INTO d VALUES (1), (2), (1)",
        b"",
        "refused: duplicate key 3\n",
    ),
    (b"INSERT INTO d VALUES (1), (2)", b"", "2"),
    (b"REORGANIZE TABLE d", b"", "0"),
    (
        b"INSERT INTO d VALUES (3), (2)",
        b"",
        "refused: duplicate key 2\n",
    ),
    (b"DROP TABLE d", b"", "0"),
    (b"REORGANIZE TABLE d", b"", "refused: unknown table d\n"),
    (b"DROP TABLE d", b"", "refused: unknown table d\n"),
];

const FEW_ROWS: [Case; 6] = [
    (b"CREATE TABLE d (k INT PRIMARY KEY)", b"", "0"),
    (
        b"INSERT INTO d VALUES (1), (2), (1)",
        b"",
        "refused: too many rows\n",
    ),
    (
        b"INSERT INTO d VALUES (1), (1)",
        b"",
        "refused: duplicate key 2\n",
    ),
    (b"LOAD INTO d FROM 'f'", b"k\n1\n2\n", "2"),
    (
        b"APPEND INTO d FROM 'f'",
        b"k\n1\n",
        "refused: too many rows\n",
    ),
    (b"REORGANIZE TABLE d", b"", "0"),
];

// The number that a call answers, as a text, or its refusal.
fn told(alloc: Global, changed: Result<u64, EngineError>) -> Result<List<u8>, AllocError> {
    match changed {
        Ok(count) => Ok(List::from_vec(format!(in alloc; "{count}")?.into_bytes())),
        Err(EngineError::Refused(why)) => refusal_text(alloc, &why),
        Err(EngineError::Memory) => Err(AllocError),
    }
}

fn without_count(changed: Result<(), EngineError>) -> Result<u64, EngineError> {
    match changed {
        Ok(()) => Ok(0),
        Err(why) => Err(why),
    }
}

// Runs a statement on the engine.
fn run<M: Ledger>(
    alloc: Global,
    engine: &mut Engine<M>,
    statement: &Statement,
    csv: &[u8],
    decodes: &mut Steps<M>,
) -> Result<u64, EngineError>
    requires sound { HasTables engine.old }
    requires formed { IsTrue (is_well_formed statement.now) }
    ensures { HasTables engine.new }
{
    match statement {
        Statement::Create { name, columns } => without_count(engine.create(alloc, name, columns)),
        Statement::Drop { name } => without_count(engine.drop_table(alloc, name)),
        Statement::Load { name, file: _ } => engine.load(alloc, name, csv, decodes),
        Statement::Append { name, file: _ } => engine.append(alloc, name, csv, decodes),
        Statement::Insert { name, rows } => engine.insert(alloc, name, rows, decodes),
        Statement::Reorganize { name } => without_count(engine.reorganize(alloc, name, decodes)),
        _ => Err(EngineError::Memory),
    }
}

// The answer to the text of a statement.
fn answer<M: Ledger>(
    alloc: Global,
    engine: &mut Engine<M>,
    sql: &[u8],
    csv: &[u8],
    decodes: &mut Steps<M>,
) -> Result<List<u8>, AllocError>
    requires { HasTables engine.old }
    ensures { HasTables engine.new }
{
    if sql.len() > 1000 {
        return Err(AllocError);
    }
    let Ok(tokens) = tokens(alloc, sql) else {
        return Err(AllocError);
    };
    let Ok(statement) = parse(alloc, &tokens) else {
        return Err(AllocError);
    };
    told(alloc, run(alloc, engine, &statement, csv, decodes))
}

// How many of the cases are answered as they should be, up to the first that isn't.
fn answered<N: ledger::Ledger>(
    alloc: Global,
    blank: Blank,
    rows: u64,
    cases: &[Case],
) -> Result<usize, AllocError>
    requires name { blank.name ≡ N.name }
    requires parts { blank.parts ≡ N.parts }
    requires some { 0 < blank.parts }
    requires few { rows ≤ MOST_ROWS }
{
    let mut steps: Steps<Tally<N>> = Steps::new(Tally::new(blank));
    let mut engine: Engine<Tally<N>> = Engine::new(alloc, Limits { rows, blocks: 1 });
    for (place, (sql, csv, wanted)) in cases.iter().enumerate() {
        let told = answer(alloc, &mut engine, sql, csv, &mut steps)?;
        if told.as_slice() != wanted.as_bytes() {
            return Ok(place);
        }
    }
    Ok(cases.len())
}

// How many tables are made, of one column each, up to the first that is refused, and that refusal.
fn tables_made<N: ledger::Ledger>(
    alloc: Global,
    blank: Blank,
) -> Result<(usize, List<u8>), AllocError>
    requires name { blank.name ≡ N.name }
    requires parts { blank.parts ≡ N.parts }
    requires some { 0 < blank.parts }
{
    let mut steps: Steps<Tally<N>> = Steps::new(Tally::new(blank));
    let mut engine: Engine<Tally<N>> = Engine::new(alloc, Limits { rows: 1, blocks: 1 });
    for _ in 0..100 {
        let sql = format!(in alloc; "CREATE TABLE t{} (a INT)", engine.tables.len())?;
        let told = answer(alloc, &mut engine, sql.as_bytes(), b"", &mut steps)?;
        if told.as_slice() != "0".as_bytes() {
            return Ok((engine.tables.len(), told));
        }
    }
    Ok((engine.tables.len(), List::new(alloc)))
}

#[test]
fn tables_are_changed(rt: HostRuntime) -> Result<(), Fail> {
    let all = answered::<Brand>(rt.alloc(), Blank::new(1), 8_388_608, &CHANGES)?;
    assert_eq!(rt; all, CHANGES.len());
    Ok(())
}

#[test]
fn rows_are_limited(rt: HostRuntime) -> Result<(), Fail> {
    let all = answered::<Brand>(rt.alloc(), Blank::new(1), 2, &FEW_ROWS)?;
    assert_eq!(rt; all, FEW_ROWS.len());
    Ok(())
}

#[test]
fn tables_are_limited(rt: HostRuntime) -> Result<(), Fail> {
    let (made, refused) = tables_made::<Brand>(rt.alloc(), Blank::new(1))?;
    assert_eq!(rt; made, 64);
    assert_eq!(rt; refused.as_slice(), "refused: too many tables\n".as_bytes());
    Ok(())
}

#[test]
fn tables_are_found(rt: HostRuntime) -> Result<(), Fail> {
    let alloc = rt.alloc();
    let engine: Engine<Tally<Brand>> = Engine::new(alloc, Limits { rows: 1, blocks: 1 });
    let name = Word::from_str(alloc, "t")?;
    assert!(rt; engine.room_for(alloc, &name).is_ok());
    assert!(rt; engine.find("t").is_none());
    Ok(())
}
