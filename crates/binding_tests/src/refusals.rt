// Statements, and the first refusal of each.
use crate::tables::bound;
use star_bind::BindFault;
use std::alloc::{AllocError, Global};
use std::test::Fail;

// What refuses a statement, with the name that it tells; "ok" where nothing does.
fn told(alloc: Global, text: &str) -> Result<String, AllocError> {
    let Some(answer) = bound(alloc, text)? else {
        return String::from_str(alloc, "no query");
    };
    match answer {
        Ok(_) => String::from_str(alloc, "ok"),
        Err(BindFault::UnknownTable(name)) => format!(in alloc; "unknown table {}", name.as_str()),
        Err(BindFault::UnknownColumn(name)) => format!(in alloc;
            "unknown column {}",
            name.as_str()
        ),
        Err(BindFault::Ambiguous(name)) => format!(in alloc; "ambiguous column {}", name.as_str()),
        Err(BindFault::WrongKind) => String::from_str(alloc, "wrong kind"),
        Err(BindFault::NotStar) => String::from_str(alloc, "not a star query"),
        Err(BindFault::NotGrouped) => String::from_str(alloc, "not grouped"),
        Err(BindFault::Wide) => String::from_str(alloc, "too many conjunctions"),
        Err(BindFault::Memory) => String::from_str(alloc, "memory"),
    }
}

// Statements, and what refuses each.
const QUERIES: [(&str, &str); 37] = [
    ("SELECT a FROM p", "ok"),
    ("SELECT a FROM x", "unknown table x"),
    ("SELECT z FROM p, x, y", "unknown table x"),
    ("SELECT z FROM p", "unknown column z"),
    ("SELECT p.z FROM p", "unknown column p.z"),
    ("SELECT a, z FROM p, u", "unknown column z"),
    ("SELECT a FROM p, u", "ambiguous column a"),
    ("SELECT a FROM p, u ORDER BY p.a", "unknown column p.a"),
    ("SELECT a AS b, b AS c FROM p ORDER BY b", "ok"),
    ("SELECT a AS x FROM p ORDER BY x DESC", "ok"),
    ("SELECT b FROM p ORDER BY a", "unknown column a"),
    ("SELECT a FROM p ORDER BY p.a", "ok"),
    ("SELECT b AS a, a AS b FROM p ORDER BY p.a", "ok"),
    ("SELECT a FROM p, u WHERE p.a = 'x'", "ambiguous column a"),
    ("SELECT p.a FROM p, u WHERE p.a = 'x'", "wrong kind"),
    ("SELECT b FROM u WHERE b LIKE 'x_%'", "wrong kind"),
    ("SELECT b FROM u WHERE b LIKE 'x%'", "ok"),
    ("SELECT SUM(b) FROM u", "wrong kind"),
    ("SELECT p.a FROM p, u WHERE p.b = u.b", "wrong kind"),
    ("SELECT a FROM p WHERE a = b", "not a star query"),
    ("SELECT p.a FROM p, u", "not a star query"),
    ("SELECT p.a, SUM(u.a) FROM p, u", "not a star query"),
    ("SELECT COUNT(*) FROM p, p", "not a star query"),
    ("SELECT v FROM f, d WHERE fk = k", "ok"),
    ("SELECT v FROM d, f WHERE (k = fk)", "ok"),
    ("SELECT v FROM f, d WHERE (fk = k AND v = 1)", "ok"),
    (
        "SELECT v FROM f, d WHERE (fk = k AND v = 1) OR n = 'x'",
        "not a star query",
    ),
    ("SELECT v FROM f, d WHERE fk <> k", "not a star query"),
    (
        "SELECT fk, n FROM f, d WHERE fk = k AND (fk = 1 OR n = 'two')",
        "not a star query",
    ),
    (
        "SELECT n, AVG(fk) FROM f, d WHERE fk = k GROUP BY n",
        "not a star query",
    ),
    ("SELECT v FROM f, d, e WHERE fk = k AND fk = j", "ok"),
    ("SELECT n FROM d, e WHERE k = j", "ok"),
    ("SELECT n FROM e, d WHERE k = j", "ok"),
    ("SELECT COUNT(*) FROM f, d WHERE fk = k", "not a star query"),
    ("SELECT a, COUNT(*) FROM p", "not grouped"),
    ("SELECT a, COUNT(*) FROM p GROUP BY a", "ok"),
    ("SELECT b, COUNT(*) FROM p GROUP BY a", "not grouped"),
];

// Statements in three parts, of which the second stands so many times, and what refuses each: 64 and 65 conjunctions, items
// that aren't grouped over 65, and 6, 7 and 60 factors of two columns.
const WIDE: [(&str, &str, u32, &str, &str); 6] = [
    (
        "SELECT a FROM p WHERE a=1",
        " OR b=1 OR a=2",
        31,
        " OR b=3",
        "ok",
    ),
    (
        "SELECT a FROM p WHERE a=1",
        " OR b=1 OR a=2",
        32,
        "",
        "too many conjunctions",
    ),
    (
        "SELECT a, SUM(b) FROM p WHERE a=1",
        " OR b=1 OR a=2",
        32,
        "",
        "not grouped",
    ),
    (
        "SELECT a FROM p WHERE (a = 1 OR b = 1)",
        " AND (a = 1 OR b = 1)",
        5,
        "",
        "ok",
    ),
    (
        "SELECT a FROM p WHERE (a = 1 OR b = 1)",
        " AND (a = 1 OR b = 1)",
        6,
        "",
        "too many conjunctions",
    ),
    (
        "SELECT a FROM p WHERE (a=1 OR b=1)",
        " AND (a=1 OR b=1)",
        59,
        "",
        "too many conjunctions",
    ),
];

// A text in three parts, of which the second stands so many times.
fn repeated(
    alloc: Global,
    front: &str,
    part: &str,
    times: u32,
    end: &str,
) -> Result<String, AllocError> {
    let mut text = String::from_str(alloc, front)?;
    for _ in 0..times {
        text.push_str(part)?;
    }
    text.push_str(end)?;
    Ok(text)
}

#[test]
fn first_refusals_are_told(rt: HostRuntime) -> Result<(), Fail> {
    for (text, want) in &QUERIES {
        let line = told(rt.alloc(), text)?;
        assert_eq!(rt; line.as_str(), *want, "{text}");
    }
    Ok(())
}

#[test]
fn conjunctions_are_counted(rt: HostRuntime) -> Result<(), Fail> {
    for (front, part, times, end, want) in &WIDE {
        let text = repeated(rt.alloc(), front, part, *times, end)?;
        let line = told(rt.alloc(), text.as_str())?;
        assert_eq!(rt; line.as_str(), *want, "{front}{part}");
    }
    Ok(())
}
