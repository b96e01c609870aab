// Statements, and the query that each is bound to.
use crate::tables::bound;
use blink_base::{List, Op, Test, Tree, Value};
use star_bind::{BoundExpr, BoundItem, ColumnRef, Conjunction, Query};
use std::alloc::{AllocError, Global};
use std::test::Fail;

fn op_text(op: Op) -> &'static str {
    match op {
        Op::Equal => "=",
        Op::Unequal => "<>",
        Op::Less => "<",
        Op::LessEqual => "<=",
        Op::Greater => ">",
        Op::GreaterEqual => ">=",
    }
}

fn value_text(alloc: Global, value: &Value) -> Result<String, AllocError> {
    match value {
        Value::Int(number) => format!(in alloc; "{}", number),
        Value::Text(word) => format!(in alloc; "'{}'", word.as_str()),
        Value::Date(date) => format!(in alloc; "d{}", date),
    }
}

fn test_text(alloc: Global, test: &Test) -> Result<String, AllocError> {
    match test {
        Test::Is(op, value) => {
            let shown = value_text(alloc, value)?;
            format!(in alloc; "{}{}", op_text(*op), shown.as_str())
        }
        Test::Between(low, high) => {
            let first = value_text(alloc, low)?;
            let last = value_text(alloc, high)?;
            format!(in alloc; "{}..{}", first.as_str(), last.as_str())
        }
        Test::Among(values) => {
            let mut text = String::from_str(alloc, "in")?;
            for value in values.as_slice() {
                text.push_str(" ")?;
                text.push_str(value_text(alloc, value)?.as_str())?;
            }
            Ok(text)
        }
        Test::Prefix(front) => format!(in alloc; "{}%", front.as_str()),
    }
}

// A tree: the tests of an AND with & between them, those of an OR with |, each in parentheses.
#[cycle(trees)]
fn tree_text(alloc: Global, tree: &Tree) -> Result<String, AllocError> {
    match tree {
        Tree::Leaf(test) => test_text(alloc, test),
        Tree::All(trees) => trees_text(alloc, trees.as_slice(), "&"),
        Tree::Any(trees) => trees_text(alloc, trees.as_slice(), "|"),
    }
}

#[cycle(trees)]
fn trees_text(alloc: Global, trees: &[Tree], between: &str) -> Result<String, AllocError> {
    let mut text = String::from_str(alloc, "(")?;
    for tree in trees {
        if text.len() > 1 {
            text.push_str(between)?;
        }
        text.push_str(tree_text(alloc, tree)?.as_str())?;
    }
    text.push_str(")")?;
    Ok(text)
}

// A conjunction: the number of each column with its tree.
fn conjunction_text(alloc: Global, conjunction: &Conjunction) -> Result<String, AllocError> {
    let mut text = String::from_str(alloc, "[")?;
    for test in conjunction.tests.as_slice() {
        if text.len() > 1 {
            text.push_str(" ")?;
        }
        let tree = tree_text(alloc, &test.tree)?;
        text.push_str(format!(in alloc; "{}:{}", test.column, tree.as_str())?.as_str())?;
    }
    text.push_str("]")?;
    Ok(text)
}

// The conditions on the tables, with ; between them.
fn filters_text(alloc: Global, filters: &[List<Conjunction>]) -> Result<String, AllocError> {
    let mut text = String::new(alloc);
    for conjunctions in filters {
        if text.len() > 0 {
            text.push_str(";")?;
        }
        for conjunction in conjunctions.as_slice() {
            text.push_str(conjunction_text(alloc, conjunction)?.as_str())?;
        }
    }
    Ok(text)
}

fn ref_text(alloc: Global, column: ColumnRef) -> Result<String, AllocError> {
    format!(in alloc; "{}.{}", column.table, column.column)
}

fn expr_text(alloc: Global, expr: BoundExpr) -> Result<String, AllocError> {
    let (left, mark, right) = match expr {
        BoundExpr::One(a) => return ref_text(alloc, a),
        BoundExpr::Times(a, b) => (a, "*", b),
        BoundExpr::Plus(a, b) => (a, "+", b),
        BoundExpr::Minus(a, b) => (a, "-", b),
    };
    let first = ref_text(alloc, left)?;
    let last = ref_text(alloc, right)?;
    format!(in alloc; "{}{}{}", first.as_str(), mark, last.as_str())
}

fn item_text(alloc: Global, item: BoundItem) -> Result<String, AllocError> {
    let (function, inside) = match item {
        BoundItem::Column(a) => return ref_text(alloc, a),
        BoundItem::Count => return String::from_str(alloc, "count"),
        BoundItem::Sum(e) => ("sum", expr_text(alloc, e)?),
        BoundItem::Average(e) => ("avg", expr_text(alloc, e)?),
        BoundItem::Least(a) => ("min", ref_text(alloc, a)?),
        BoundItem::Greatest(a) => ("max", ref_text(alloc, a)?),
    };
    format!(in alloc; "{} {}", function, inside.as_str())
}

// The fact and the ties, the conditions, the items with their names, the groups, the order and the limit.
fn query_text(alloc: Global, query: &Query) -> Result<String, AllocError> {
    let mut text = format!(in alloc; "fact {}", query.fact)?;
    for tie in query.ties.as_slice() {
        text.push_str(format!(in alloc; " tie {}.{}", tie.dimension, tie.column)?.as_str())?;
    }
    text.push_str(" where ")?;
    text.push_str(filters_text(alloc, query.filters.as_slice())?.as_str())?;
    for item in query.items.as_slice() {
        text.push_str(", ")?;
        text.push_str(item_text(alloc, *item)?.as_str())?;
    }
    for name in query.names.as_slice() {
        text.push_str(" ")?;
        text.push_str(name.as_str())?;
    }
    if query.grouped {
        text.push_str(" by")?;
    }
    for group in query.groups.as_slice() {
        text.push_str(" ")?;
        text.push_str(ref_text(alloc, *group)?.as_str())?;
    }
    for key in query.order.as_slice() {
        let way = if key.falling { "-" } else { "+" };
        text.push_str(format!(in alloc; " {}{}", way, key.item)?.as_str())?;
    }
    if let Some(limit) = query.limit {
        text.push_str(format!(in alloc; " limit {}", limit)?.as_str())?;
    }
    Ok(text)
}

// The query that a statement is bound to.
fn told(alloc: Global, text: &str) -> Result<String, AllocError> {
    match bound(alloc, text)? {
        Some(Ok(query)) => query_text(alloc, &query),
        Some(Err(_)) => String::from_str(alloc, "refused"),
        None => String::from_str(alloc, "no query"),
    }
}

// Statements, and the query that each is bound to.
const QUERIES: [(&str, &str); 18] = [
    ("SELECT a FROM p", "fact 0 where [], 0.0 a"),
    (
        "SELECT a FROM p WHERE a = 1",
        "fact 0 where [0:(=1)], 0.0 a",
    ),
    // Tests of one column are one, in the order in which their columns are first named.
    (
        "SELECT b FROM p WHERE b < 2 AND a = 1 AND b <> -3",
        "fact 0 where [1:(<2&<>-3) 0:=1], 0.1 b",
    ),
    (
        "SELECT a FROM p WHERE a = 1 OR a = 2",
        "fact 0 where [0:(((=1)|(=2)))], 0.0 a",
    ),
    // The first part varies slowest.
    (
        "SELECT a FROM p WHERE (a = 1 OR b = 1) AND (a = 2 OR b = 2)",
        "fact 0 where [0:((=1)&(=2))][0:(=1) 1:(=2)][1:(=1) 0:(=2)][1:((=1)&(=2))], 0.0 a",
    ),
    // What names one column alone is one conjunction.
    (
        "SELECT a FROM p WHERE (b = 1 OR b = 2) AND a = 1",
        "fact 0 where [1:((=1)|(=2)) 0:=1], 0.0 a",
    ),
    (
        "SELECT b FROM u WHERE b LIKE 'x%' AND a BETWEEN 1 AND 2 AND b IN ('y', 'z')",
        "fact 0 where [1:(x%&in 'y' 'z') 0:1..2], 0.1 b",
    ),
    (
        "SELECT v FROM f, d WHERE (fk = k AND v = 1)",
        "fact 0 tie 1.0 where [2:(=1)];[], 0.2 v",
    ),
    (
        "SELECT f.v, n FROM d, f WHERE k = gk AND n = 'x'",
        "fact 1 tie 0.1 where [1:(='x')];[], 1.2, 0.1 f.v n",
    ),
    // Two ties on one column of the fact.
    (
        "SELECT v, n FROM f, d, e WHERE fk = k AND fk = j AND n LIKE 'x%' ORDER BY n DESC, v LIMIT 3",
        "fact 0 tie 1.0 tie 2.0 where [];[1:(x%)];[], 0.2, 1.1 v n -1 +0 limit 3",
    ),
    // Of two tables that could be the fact, the first in FROM is.
    (
        "SELECT n FROM d, e WHERE k = j",
        "fact 0 tie 1.0 where [];[], 0.1 n",
    ),
    (
        "SELECT n FROM e, d WHERE k = j",
        "fact 0 tie 1.0 where [];[], 1.1 n",
    ),
    // A key of ORDER BY is an AS name before it is a column.
    (
        "SELECT a AS b, b AS c FROM p ORDER BY b",
        "fact 0 where [], 0.0, 0.1 b c +0",
    ),
    (
        "SELECT b AS a, a AS b FROM p ORDER BY p.a, a",
        "fact 0 where [], 0.1, 0.0 a b +1 +0",
    ),
    (
        "SELECT a AS x, b FROM p ORDER BY a DESC",
        "fact 0 where [], 0.0, 0.1 x b -0",
    ),
    (
        "SELECT b, SUM(a * p.b) AS s, AVG(a), MIN(a), MAX(b), COUNT(*) FROM p GROUP BY b, a",
        "fact 0 where [], 0.1, sum 0.0*0.1, avg 0.0, min 0.0, max 0.1, count b s avg(a) min(a) max(b) count(*) by 0.1 0.0",
    ),
    (
        "SELECT SUM(a - b), SUM(a + b), SUM(p.a) FROM p",
        "fact 0 where [], sum 0.0-0.1, sum 0.0+0.1, sum 0.0 sum(a-b) sum(a+b) sum(p.a)",
    ),
    (
        "SELECT a FROM p WHERE a > 1 LIMIT 0",
        "fact 0 where [0:(>1)], 0.0 a limit 0",
    ),
];

#[test]
fn queries_are_bound(rt: HostRuntime) -> Result<(), Fail> {
    for (text, want) in &QUERIES {
        let line = told(rt.alloc(), text)?;
        assert_eq!(rt; line.as_str(), *want, "{text}");
    }
    Ok(())
}
