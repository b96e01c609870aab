// SELECT as its tokens say it.
use crate::sql::{shown, tokens_of};
use blink_base::{Op, Word};
use star_sql::{
    ColumnName, Cond, Expr, Item, Literal, OrderKey, Primary, Select, Statement, TestWords, Way,
    What, parse,
};
use std::alloc::{AllocError, Global};
use std::test::Fail;

// Texts, each with what it says behind an arrow; where no arrow stands, no statement is spelled so.
const SELECTS: &str = "\
SELECT a FROM t => select a; from t
select t.a, b AS c from T, u => select t.a; b as c; from t u
SELECT count, sum AS avg FROM min => select count; sum as avg; from min
SELECT count.max FROM count WHERE sum = avg => select count.max; from count where {[sum Equal avg;]}
SELECT COUNT(*) AS n, count(*) FROM t => select Count as n; Count; from t
SELECT SUM(a), avg(t.a), MIN(b), MAX(t.b) FROM t => select Sum(a); Avg(t.a); Min(b); Max(t.b); from t
SELECT SUM(a * b), SUM(a + t.b) AS s, AVG(t.a - b) FROM t => select Sum(a*b); Sum(a+t.b) as s; Avg(t.a-b); from t
SELECT a FROM t WHERE a = 1 OR b <> 2 AND c < 3 OR d <= 4 => select a; from t where {[a Equal 1;][b Unequal 2;c Less 3;][d LessEqual 4;]}
SELECT a FROM t WHERE a > -5 AND t.b >= 'x' => select a; from t where {[a Greater -5;t.b GreaterEqual 'x';]}
SELECT a FROM t, u WHERE t.a = u.b AND t.a = b => select a; from t u where {[t.a Equal u.b;t.a Equal b;]}
SELECT a FROM t WHERE a = DATE '1999-01-01' AND a = date AND date = date.date => select a; from t where {[a Equal d'1999-01-01';a Equal date;date Equal date.date;]}
SELECT a FROM t WHERE a BETWEEN 1 AND 2 AND b = 3 OR c BETWEEN DATE 'x' AND DATE 'y' => select a; from t where {[a between 1 2;b Equal 3;][c between d'x' d'y';]}
SELECT a FROM t WHERE a IN (1) AND t.b IN ('x', DATE 'y', -2) => select a; from t where {[a in 1;t.b in 'x' d'y' -2;]}
SELECT a FROM t WHERE a LIKE 'x%' OR b LIKE '' => select a; from t where {[a like 'x%';][b like '';]}
SELECT a FROM t WHERE (a = 1 OR b = 2) AND c = 3 => select a; from t where {[{[a Equal 1;][b Equal 2;]};c Equal 3;]}
SELECT a FROM t WHERE ((a = 1)) OR (b = 2 AND (c = 3 OR d = 4)) => select a; from t where {[{[{[a Equal 1;]};]};][{[b Equal 2;{[c Equal 3;][d Equal 4;]};]};]}
SELECT a FROM t GROUP BY a, t.b => select a; from t group a t.b
SELECT a FROM t GROUP BY rollup => select a; from t group rollup
SELECT a FROM t ORDER BY a, b ASC, t.c DESC => select a; from t order a Plain b Asc t.c Desc
SELECT a FROM t LIMIT 0 => select a; from t limit 0
SELECT a FROM t WHERE a = date GROUP BY date ORDER BY date LIMIT 7 => select a; from t where {[a Equal date;]} group date order date Plain limit 7
SELECT a FROM t WHERE a = b LIMIT 999999999999999 => select a; from t where {[a Equal b;]} limit 999999999999999
EXPLAIN SELECT a FROM t WHERE a = 1 ORDER BY a DESC => explain a; from t where {[a Equal 1;]} order a Desc
SELECT
SELECT FROM t
SELECT a
SELECT a FROM
SELECT a, FROM t
SELECT a FROM t,
SELECT * FROM t
SELECT a b FROM t
SELECT a AS FROM t
SELECT a AS b.c FROM t
SELECT (a) FROM t
SELECT and FROM t
SELECT a FROM order
SELECT a FROM t.u
SELECT a.b.c FROM t
SELECT .a FROM t
SELECT COUNT(a) FROM t
SELECT COUNT() FROM t
SELECT COUNT(* FROM t
SELECT t.count(*) FROM t
SELECT SUM(*) FROM t
SELECT SUM(a * b * c) FROM t
SELECT SUM(a / b) FROM t
SELECT SUM(1) FROM t
SELECT MIN(a + b) FROM t
SELECT MAX(a, b) FROM t
SELECT first(a) FROM t
SELECT a FROM t WHERE
SELECT a FROM t WHERE a
SELECT a FROM t WHERE a =
SELECT a FROM t WHERE 1 = a
SELECT a FROM t WHERE a = (1)
SELECT a FROM t WHERE a = - b
SELECT a FROM t WHERE a = 1 AND
SELECT a FROM t WHERE a = 1 OR OR b = 2
SELECT a FROM t WHERE a = 1 b = 2
SELECT a FROM t WHERE NOT a = 1
SELECT a FROM t WHERE a IS NULL
SELECT a FROM t WHERE a = NULL
SELECT a FROM t WHERE a BETWEEN 1
SELECT a FROM t WHERE a BETWEEN 1 AND b
SELECT a FROM t WHERE a BETWEEN 1 OR 2
SELECT a FROM t WHERE a BETWEEN (1 AND 2)
SELECT a FROM t WHERE a IN ()
SELECT a FROM t WHERE a IN 1
SELECT a FROM t WHERE a IN (b)
SELECT a FROM t WHERE a IN (1,)
SELECT a FROM t WHERE a LIKE b
SELECT a FROM t WHERE a LIKE 1
SELECT a FROM t WHERE a LIKE DATE 'x'
SELECT a FROM t WHERE DATE 'x' = a
SELECT a FROM t WHERE a = t.date 'x'
SELECT a FROM t WHERE a = 'x' 'y'
SELECT a FROM t WHERE ()
SELECT a FROM t WHERE (a = 1
SELECT a FROM t WHERE a = 1)
SELECT a FROM t WHERE (a) = 1
SELECT a FROM t WHERE (a = 1) (b = 2)
SELECT a FROM t GROUP BY
SELECT a FROM t GROUP a
SELECT a FROM t GROUP BY 1
SELECT a FROM t GROUP BY a b
SELECT a FROM t ORDER BY a ASC DESC
SELECT a FROM t ORDER a
SELECT a FROM t ORDER BY a,
SELECT a FROM t LIMIT
SELECT a FROM t LIMIT -1
SELECT a FROM t LIMIT a
SELECT a FROM t LIMIT 1 LIMIT 2
SELECT a FROM t ORDER BY a GROUP BY a
SELECT a FROM t LIMIT 1 ORDER BY a
SELECT a FROM t GROUP BY a WHERE a = 1
EXPLAIN
EXPLAIN DROP TABLE t
EXPLAIN EXPLAIN SELECT a FROM t
SELECT DISTINCT a FROM t
";

pub(crate) fn push(line: &mut String, parts: &[&str]) -> Result<(), AllocError> {
    for part in parts {
        line.push_str(part)?;
    }
    Ok(())
}

fn op_text(op: &Op) -> &'static str {
    match op {
        Op::Equal => "Equal",
        Op::Unequal => "Unequal",
        Op::Less => "Less",
        Op::LessEqual => "LessEqual",
        Op::Greater => "Greater",
        Op::GreaterEqual => "GreaterEqual",
    }
}

fn way_text(way: &Way) -> &'static str {
    match way {
        Way::Plain => "Plain",
        Way::Asc => "Asc",
        Way::Desc => "Desc",
    }
}

fn push_column(line: &mut String, column: &ColumnName) -> Result<(), AllocError> {
    match &column.table {
        Some(table) => push(line, &[table.as_str(), ".", column.column.as_str()]),
        None => push(line, &[column.column.as_str()]),
    }
}

fn push_two(
    line: &mut String,
    first: &ColumnName,
    mark: &[&str],
    second: &ColumnName,
) -> Result<(), AllocError> {
    push_column(line, first)?;
    push(line, mark)?;
    push_column(line, second)
}

fn push_expr(line: &mut String, expr: &Expr) -> Result<(), AllocError> {
    match expr {
        Expr::One(column) => push_column(line, column),
        Expr::Times(first, second) => push_two(line, first, &["*"], second),
        Expr::Plus(first, second) => push_two(line, first, &["+"], second),
        Expr::Minus(first, second) => push_two(line, first, &["-"], second),
    }
}

fn push_aggregate(line: &mut String, name: &str, expr: &Expr) -> Result<(), AllocError> {
    push(line, &[name, "("])?;
    push_expr(line, expr)?;
    push(line, &[")"])
}

fn push_bound(line: &mut String, name: &str, column: &ColumnName) -> Result<(), AllocError> {
    push(line, &[name, "("])?;
    push_column(line, column)?;
    push(line, &[")"])
}

fn push_what(line: &mut String, what: &What) -> Result<(), AllocError> {
    match what {
        What::Column(column) => push_column(line, column),
        What::Count => push(line, &["Count"]),
        What::Sum(expr) => push_aggregate(line, "Sum", expr.get()),
        What::Avg(expr) => push_aggregate(line, "Avg", expr.get()),
        What::Min(column) => push_bound(line, "Min", column),
        What::Max(column) => push_bound(line, "Max", column),
    }
}

fn push_item(line: &mut String, item: &Item) -> Result<(), AllocError> {
    push(line, &[" "])?;
    push_what(line, &item.what)?;
    match &item.name {
        Some(name) => push(line, &[" as ", name.as_str(), ";"]),
        None => push(line, &[";"]),
    }
}

fn push_items(line: &mut String, items: &[Item]) -> Result<(), AllocError> {
    for item in items {
        push_item(line, item)?;
    }
    Ok(())
}

fn push_number(alloc: Global, line: &mut String, sign: &str, value: i64) -> Result<(), AllocError> {
    let text = format!(in alloc; "{value}")?;
    push(line, &[" ", sign, text.as_str()])
}

fn push_literal(alloc: Global, line: &mut String, literal: &Literal) -> Result<(), AllocError> {
    match literal {
        Literal::Number { minus: true, value } => push_number(alloc, line, "-", *value),
        Literal::Number {
            minus: false,
            value,
        } => push_number(alloc, line, "", *value),
        Literal::Text(text) => push(line, &[" '", text.as_str(), "'"]),
        Literal::Date(text) => push(line, &[" d'", text.as_str(), "'"]),
    }
}

fn push_literals(alloc: Global, line: &mut String, literals: &[Literal]) -> Result<(), AllocError> {
    for literal in literals {
        push_literal(alloc, line, literal)?;
    }
    Ok(())
}

fn push_compare(
    alloc: Global,
    line: &mut String,
    op: &Op,
    literal: &Literal,
) -> Result<(), AllocError> {
    push(line, &[" ", op_text(op)])?;
    push_literal(alloc, line, literal)
}

fn push_between(
    alloc: Global,
    line: &mut String,
    low: &Literal,
    high: &Literal,
) -> Result<(), AllocError> {
    push(line, &[" between"])?;
    push_literal(alloc, line, low)?;
    push_literal(alloc, line, high)
}

fn push_among(alloc: Global, line: &mut String, list: &[Literal]) -> Result<(), AllocError> {
    push(line, &[" in"])?;
    push_literals(alloc, line, list)
}

fn push_test(alloc: Global, line: &mut String, test: &TestWords) -> Result<(), AllocError> {
    match test {
        TestWords::Compare {
            column,
            op,
            literal,
        } => {
            push_column(line, column)?;
            push_compare(alloc, line, op, literal)
        }
        TestWords::Columns { left, op, right } => {
            push_two(line, left, &[" ", op_text(op), " "], right)
        }
        TestWords::Between { column, low, high } => {
            push_column(line, column)?;
            push_between(alloc, line, low, high)
        }
        TestWords::Among { column, list } => {
            push_column(line, column)?;
            push_among(alloc, line, list.as_slice())
        }
        TestWords::Like { column, pattern } => {
            push_column(line, column)?;
            push(line, &[" like '", pattern.as_str(), "'"])
        }
    }
}

// A condition in braces, each conjunction of it in brackets, and `;` behind each primary.
fn push_condition(
    alloc: Global,
    depth: usize,
    line: &mut String,
    condition: &Cond,
) -> Result<(), AllocError> {
    push(line, &["{"])?;
    for conjunction in condition.any.as_slice() {
        push(line, &["["])?;
        for primary in conjunction.all.as_slice() {
            match primary {
                Primary::Test(test) => push_test(alloc, line, test)?,
                Primary::Group(inner) => {
                    if depth > 0 {
                        push_condition(alloc, depth - 1, line, inner.get())?;
                    }
                }
            }
            push(line, &[";"])?;
        }
        push(line, &["]"])?;
    }
    push(line, &["}"])
}

fn push_where(
    alloc: Global,
    line: &mut String,
    condition: &Option<Cond>,
) -> Result<(), AllocError> {
    match condition {
        Some(condition) => {
            push(line, &[" where "])?;
            push_condition(alloc, 40, line, condition)
        }
        None => Ok(()),
    }
}

fn push_groups(line: &mut String, columns: &[ColumnName]) -> Result<(), AllocError> {
    for (at, column) in columns.iter().enumerate() {
        push(line, &[if at == 0 { " group " } else { " " }])?;
        push_column(line, column)?;
    }
    Ok(())
}

fn push_keys(line: &mut String, keys: &[OrderKey]) -> Result<(), AllocError> {
    for (at, key) in keys.iter().enumerate() {
        push(line, &[if at == 0 { " order " } else { " " }])?;
        push_column(line, &key.column)?;
        push(line, &[" ", way_text(&key.way)])?;
    }
    Ok(())
}

fn push_tables(line: &mut String, tables: &[Word]) -> Result<(), AllocError> {
    push(line, &[" from"])?;
    for table in tables {
        push(line, &[" ", table.as_str()])?;
    }
    Ok(())
}

fn push_limit(alloc: Global, line: &mut String, limit: &Option<u64>) -> Result<(), AllocError> {
    match limit {
        Some(limit) => {
            let text = format!(in alloc; "{limit}")?;
            push(line, &[" limit ", text.as_str()])
        }
        None => Ok(()),
    }
}

// The parts of a SELECT that are there.
pub(crate) fn push_select(
    alloc: Global,
    line: &mut String,
    verb: &str,
    query: &Select,
) -> Result<(), AllocError> {
    push(line, &[verb])?;
    push_items(line, query.items.as_slice())?;
    push_tables(line, query.tables.as_slice())?;
    push_where(alloc, line, &query.condition)?;
    push_groups(line, query.groups.as_slice())?;
    push_keys(line, query.order.as_slice())?;
    push_limit(alloc, line, &query.limit)
}

// A condition in so many pairs of parentheses, and what it says.
fn nested(alloc: Global, pairs: u32) -> Result<String, AllocError> {
    let mut text = String::from_str(alloc, "SELECT a FROM t WHERE ")?;
    for _ in 0..pairs {
        text.push_str("(")?;
    }
    text.push_str("a = 1")?;
    for _ in 0..pairs {
        text.push_str(")")?;
    }
    shown(alloc, text.as_str())
}

// How many primaries the first conjunction of the condition has.
fn primaries_read(alloc: Global, text: &str) -> Result<usize, AllocError> {
    let read = parse(alloc, &tokens_of(alloc, text)?);
    if let Ok(Statement::Select(query)) = &read
        && let Some(condition) = &query.condition
        && let [conjunction] = condition.any.as_slice()
    {
        return Ok(conjunction.all.len());
    }
    Ok(0)
}

#[test]
fn selects_are_read(rt: HostRuntime) -> Result<(), Fail> {
    for row in SELECTS.lines() {
        let (text, want) = row.split_once(" => ").unwrap_or((row, "Syntax"));
        let line = shown(rt.alloc(), text)?;
        assert_eq!(rt; line.as_str(), want, "at {text}");
    }
    Ok(())
}

#[test]
fn conditions_nest_to_a_depth(rt: HostRuntime) -> Result<(), Fail> {
    let alloc = rt.alloc();
    let deepest = nested(alloc, 32)?;
    assert!(rt;
        deepest
            .as_str()
            .starts_with("select a; from t where {[{[{[")
    );
    let deeper = nested(alloc, 33)?;
    assert_eq!(rt; deeper.as_str(), "Deep");
    Ok(())
}

#[test]
fn long_conditions_are_read(rt: HostRuntime) -> Result<(), Fail> {
    let alloc = rt.alloc();
    let mut text = String::from_str(alloc, "SELECT a FROM t WHERE a=1")?;
    for _ in 0..100_000u32 {
        text.push_str(" AND a=1")?;
    }
    let primaries = primaries_read(alloc, text.as_str())?;
    assert_eq!(rt; primaries, 100_001);
    Ok(())
}
