// Statements as their tokens say them.
use crate::select::{push, push_select};
use blink_base::{Kind, List, Word};
use star_lex::{Token, tokens};
use star_sql::{ColumnDef, Literal, Statement, parse};
use std::alloc::{AllocError, Global};
use std::test::Fail;

// Texts, each with the statement that it says, or with why it says none.
const STATEMENTS: [(&str, &str); 31] = [
    (
        "CREATE TABLE date (date DATE)",
        "create date date Date false",
    ),
    (
        "create Table T (a int primary KEY, table text)",
        "create t a Int true table Text false",
    ),
    ("CREATE TABLE t ()", "Syntax"),
    ("CREATE TABLE t (a PRIMARY KEY INT)", "Syntax"),
    ("CREATE TABLE t (a INT PRIMARY)", "Syntax"),
    ("CREATE TABLE t (a INT,)", "Syntax"),
    ("DROP TABLE table", "drop table"),
    ("DROP TABLE order", "Syntax"),
    ("DROP TABLE t t", "Syntax"),
    ("LOAD INTO t FROM 'a.csv'", "load t a.csv"),
    ("append into t from ''", "append t "),
    ("LOAD INTO t FROM a", "Syntax"),
    ("REORGANIZE TABLE t", "reorganize t"),
    ("DESCRIBE date", "describe date"),
    ("EXPORT TABLE t TO 'f'", "export t f"),
    ("IMPORT TABLE t FROM 'f'", "import t f"),
    ("IMPORT TABLE t TO 'f'", "Syntax"),
    (
        "INSERT INTO t VALUES (1, - 2, 'x', DATE '1999-01-01')",
        "insert t false 1 true 2 'x' date '1999-01-01';",
    ),
    (
        "INSERT INTO t VALUES (-0), ('it''s')",
        "insert t true 0; 'it's';",
    ),
    ("INSERT INTO t VALUES ()", "Syntax"),
    ("INSERT INTO t VALUES", "Syntax"),
    ("INSERT INTO t VALUES (1) (2)", "Syntax"),
    ("INSERT INTO t VALUES (1),", "Syntax"),
    ("INSERT INTO t VALUES (+ 1)", "Syntax"),
    ("INSERT INTO t VALUES (- - 1)", "Syntax"),
    ("INSERT INTO t VALUES (x '1')", "Syntax"),
    ("", "Syntax"),
    ("((((((((((((((((((((((((((((((((", "Syntax"),
    ("(((((((((((((((((((((((((((((((((", "Deep"),
    (")(((((((((((((((((((((((((((((((((", "Syntax"),
    ("((((((((((((((((((((((((((((((((())", "Deep"),
];

fn bool_text(yes: bool) -> &'static str {
    if yes { "true" } else { "false" }
}

fn kind_text(kind: Kind) -> &'static str {
    match kind {
        Kind::Int => "Int",
        Kind::Text => "Text",
        Kind::Date => "Date",
    }
}

fn push_number(
    alloc: Global,
    line: &mut String,
    minus: bool,
    value: i64,
) -> Result<(), AllocError> {
    let text = format!(in alloc; "{value}")?;
    push(line, &[" ", bool_text(minus), " ", text.as_str()])
}

// The literals of a row.
fn push_row(alloc: Global, line: &mut String, row: &[Literal]) -> Result<(), AllocError> {
    for literal in row {
        match literal {
            Literal::Number { minus, value } => push_number(alloc, line, *minus, *value)?,
            Literal::Text(text) => push(line, &[" '", text.as_str(), "'"])?,
            Literal::Date(text) => push(line, &[" date '", text.as_str(), "'"])?,
        }
    }
    push(line, &[";"])
}

fn push_rows(alloc: Global, line: &mut String, rows: &[List<Literal>]) -> Result<(), AllocError> {
    for row in rows {
        push_row(alloc, line, row.as_slice())?;
    }
    Ok(())
}

fn push_columns(line: &mut String, columns: &[ColumnDef]) -> Result<(), AllocError> {
    for column in columns {
        push(line, &[" ", column.name.as_str()])?;
        push(line, &[" ", kind_text(column.kind)])?;
        push(line, &[" ", bool_text(column.key)])?;
    }
    Ok(())
}

fn push_name(line: &mut String, verb: &str, name: &Word) -> Result<(), AllocError> {
    push(line, &[verb, " ", name.as_str()])
}

fn push_file(line: &mut String, verb: &str, name: &Word, file: &Word) -> Result<(), AllocError> {
    push(line, &[verb, " ", name.as_str(), " ", file.as_str()])
}

// A statement, its optional words and its literals.
fn push_statement(
    alloc: Global,
    line: &mut String,
    statement: &Statement,
) -> Result<(), AllocError> {
    match statement {
        Statement::Create { name, columns } => {
            push_name(line, "create", name)?;
            push_columns(line, columns.as_slice())
        }
        Statement::Insert { name, rows } => {
            push_name(line, "insert", name)?;
            push_rows(alloc, line, rows.as_slice())
        }
        Statement::Drop { name } => push_name(line, "drop", name),
        Statement::Load { name, file } => push_file(line, "load", name, file),
        Statement::Append { name, file } => push_file(line, "append", name, file),
        Statement::Reorganize { name } => push_name(line, "reorganize", name),
        Statement::Describe { name } => push_name(line, "describe", name),
        Statement::Export { name, file } => push_file(line, "export", name, file),
        Statement::Import { name, file } => push_file(line, "import", name, file),
        Statement::Select(query) => push_select(alloc, line, "select", query),
        Statement::Explain(query) => push_select(alloc, line, "explain", query),
    }
}

fn line_of(alloc: Global, statement: &Statement) -> Result<String, AllocError> {
    let mut line = String::new(alloc);
    push_statement(alloc, &mut line, statement)?;
    Ok(line)
}

// The tokens of a text.
pub(crate) fn tokens_of(alloc: Global, text: &str) -> Result<List<Token>, AllocError> {
    if text.len() > 2_000_000 {
        return Ok(List::new(alloc));
    }
    match tokens(alloc, text.as_bytes()) {
        Ok(read) => Ok(read),
        Err(_) => Ok(List::new(alloc)),
    }
}

// What a text says.
pub(crate) fn shown(alloc: Global, text: &str) -> Result<String, AllocError> {
    match parse(alloc, &tokens_of(alloc, text)?) {
        Ok(statement) => line_of(alloc, &statement),
        Err(fault) => format!(in alloc; "{fault:?}"),
    }
}

// How many rows a text inserts.
fn rows_read(alloc: Global, text: &str) -> Result<usize, AllocError> {
    let read = parse(alloc, &tokens_of(alloc, text)?);
    match &read {
        Ok(Statement::Insert { name: _, rows }) => Ok(rows.len()),
        _ => Ok(0),
    }
}

#[test]
fn statements_are_read(rt: HostRuntime) -> Result<(), Fail> {
    for (text, want) in STATEMENTS {
        let line = shown(rt.alloc(), text)?;
        assert_eq!(rt; line.as_str(), want, "where {want} is wanted");
    }
    Ok(())
}

#[test]
fn many_rows_are_read(rt: HostRuntime) -> Result<(), Fail> {
    let alloc = rt.alloc();
    let mut text = String::from_str(alloc, "INSERT INTO t VALUES (1)")?;
    for _ in 1..200_000u32 {
        text.push_str(",(-2)")?;
    }
    let rows = rows_read(alloc, text.as_str())?;
    assert_eq!(rt; rows, 200_000);
    Ok(())
}
