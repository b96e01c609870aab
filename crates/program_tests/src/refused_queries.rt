// What refuses queries, and that they change nothing.
use crate::queries::{Case, Setting, expect_answers, expect_behind};
use blink_run::Status;
use std::alloc::{AllocError, Global};
use std::process::Abort;
use std::test::Fail;

// Small tables.
const SMALL: [Setting; 1] = [(
    "CREATE TABLE t (a INT); \
         CREATE TABLE u (a INT, b TEXT); \
         CREATE TABLE p (a INT, b INT); \
         CREATE TABLE f (fk INT, gk INT, v INT, s DATE); \
         CREATE TABLE d (k INT PRIMARY KEY, n TEXT); \
         CREATE TABLE e (j INT PRIMARY KEY, m TEXT); \
         INSERT INTO p VALUES (1, 2), (2, 1); \
         INSERT INTO u VALUES (1, 'x'); \
         INSERT INTO f VALUES (1, 1, 5, '2024-02-29'); \
         INSERT INTO d VALUES (1, 'one')",
    &[],
    "created t\ncreated u\ncreated p\ncreated f\ncreated d\ncreated e\nadded 2\nadded 1\nadded 1\nadded 1\n",
)];

// Queries that just aren't refused.
const SMALL_CASES: [Case; 2] = [
    // Conditions that are just not too many, and those of one column, which are one.
    (
        "SELECT a FROM p WHERE (a = 1 OR b = 1) AND (a = 1 OR b = 1) AND (a = 1 OR b = 1) AND (a = 1 OR b = 1) AND (a = 1 OR b = 1) AND (a = 1 OR b = 1); \
         SELECT a FROM p WHERE (a = 1 OR a = 2) AND (a = 1 OR a = 2) AND (a = 1 OR a = 2) AND (a = 1 OR a = 2) AND (a = 1 OR a = 2) AND (a = 1 OR a = 2) AND (a = 1 OR a = 2); \
         SELECT a FROM p WHERE (a = 1 OR a = 3) AND b = 2",
        "a\n1\n2\n2 rows\n\
         a\n1\n2\n2 rows\n\
         a\n1\n1 rows\n",
    ),
    // Names that are known though they stand twice, and ties in parentheses.
    (
        "SELECT a AS z, b AS a FROM p ORDER BY a; \
         SELECT v FROM f, d WHERE (fk = k AND v = 5); \
         SELECT v, n, m FROM f, d, e WHERE ((fk = k)) AND gk = j; \
         SELECT MAX(v) AS n FROM f, d WHERE fk = k ORDER BY n; \
         SELECT p.b, SUM(p.a) FROM p GROUP BY b ORDER BY p.b DESC",
        "z,a\n2,1\n1,2\n2 rows\n\
         v\n5\n1 rows\n\
         v,n,m\n0 rows\n\
         n\n5\n1 rows\n\
         p.b,sum(p.a)\n2,1\n1,2\n2 rows\n",
    ),
];

// Queries, and the first refusal of each.
const REFUSED: &[(&str, &str)] = &[
    // Texts and tokens that are no statement.
    (
        "SELECT a FROM t WHERE a = 1000000000000000",
        "number too long",
    ),
    ("SELECT", "syntax"),
    ("SELECT a FROM t WHERE NOT a = 1", "syntax"),
    ("SELECT * FROM t", "syntax"),
    ("SELECT COUNT(a) FROM t", "syntax"),
    ("SELECT DISTINCT a FROM t", "syntax"),
    ("SELECT a b FROM t", "syntax"),
    ("SELECT a FROM t WHERE a IS NULL", "syntax"),
    ("SELECT a FROM t ORDER BY 1", "syntax"),
    ("SELECT a FROM t LIMIT -1", "syntax"),
    ("SELECT a FROM t GROUP BY a HAVING a = 1", "syntax"),
    ("SELECT a FROM t WHERE a IN ()", "syntax"),
    ("SELECT a FROM t WHERE 1 = a", "syntax"),
    ("SELECT a FROM t LIMIT 1 ORDER BY a", "syntax"),
    // Tables and columns.
    ("SELECT a FROM x", "unknown table x"),
    ("SELECT z FROM p, x, y", "unknown table x"),
    ("SELECT z FROM t", "unknown column z"),
    ("SELECT p.z FROM p", "unknown column p.z"),
    ("SELECT u.a FROM p", "unknown column u.a"),
    ("SELECT a, z FROM p, u", "unknown column z"),
    ("SELECT b FROM p ORDER BY a", "unknown column a"),
    ("SELECT a AS c FROM p WHERE c = 1", "unknown column c"),
    ("SELECT COUNT(*) AS c FROM p GROUP BY c", "unknown column c"),
    (
        "SELECT a FROM p WHERE y = 1 GROUP BY z ORDER BY x",
        "unknown column y",
    ),
    (
        "SELECT COUNT(*) FROM p ORDER BY count",
        "unknown column count",
    ),
    ("SELECT a FROM t, u", "ambiguous column a"),
    (
        "SELECT p.a FROM p, u WHERE a = 1 AND p.b = 'x'",
        "ambiguous column a",
    ),
    ("SELECT a FROM p, u ORDER BY p.a", "unknown column p.a"),
    ("SELECT a FROM p, p", "ambiguous column a"),
    // Kinds.
    ("SELECT a FROM t WHERE a = 'x'", "wrong kind"),
    ("SELECT b FROM u WHERE b = 1", "wrong kind"),
    ("SELECT b FROM u WHERE b = DATE '2024-01-01'", "wrong kind"),
    ("SELECT a FROM p WHERE a LIKE '1%'", "wrong kind"),
    ("SELECT b FROM u WHERE b LIKE 'x'", "wrong kind"),
    ("SELECT b FROM u WHERE b LIKE 'x_%'", "wrong kind"),
    ("SELECT b FROM u WHERE b LIKE '%x%'", "wrong kind"),
    ("SELECT SUM(b) FROM u", "wrong kind"),
    ("SELECT AVG(a*b) FROM u", "wrong kind"),
    ("SELECT v FROM f WHERE s = '2023-02-29'", "wrong kind"),
    ("SELECT v FROM f WHERE s = 20240229", "wrong kind"),
    ("SELECT SUM(s) FROM f", "wrong kind"),
    ("SELECT a FROM p WHERE a BETWEEN 1 AND 'x'", "wrong kind"),
    ("SELECT a FROM p WHERE a IN (1, 'x')", "wrong kind"),
    ("SELECT v FROM f, d WHERE fk = n", "wrong kind"),
    (
        "SELECT p.a, COUNT(*) FROM p, u WHERE p.a = 'x'",
        "wrong kind",
    ),
    // No star.
    ("SELECT b FROM t, u", "not a star query"),
    ("SELECT COUNT(*) FROM p, p", "not a star query"),
    ("SELECT a FROM p WHERE a = b", "not a star query"),
    ("SELECT COUNT(*) FROM f, d WHERE fk = k", "not a star query"),
    (
        "SELECT n, AVG(v) FROM f, d WHERE fk = k GROUP BY n",
        "not a star query",
    ),
    ("SELECT v FROM f, d WHERE fk <> k", "not a star query"),
    (
        "SELECT v FROM f, d WHERE fk = k AND gk = k",
        "not a star query",
    ),
    (
        "SELECT v FROM f, d WHERE fk = k OR v = 1",
        "not a star query",
    ),
    (
        "SELECT v FROM f, d WHERE fk = k AND (v = 1 OR n = 'one')",
        "not a star query",
    ),
    ("SELECT v FROM f, d, e WHERE fk = k", "not a star query"),
    (
        "SELECT v FROM f, d, e WHERE fk = k AND k = j",
        "not a star query",
    ),
    ("SELECT p.a FROM p, f WHERE p.a = fk", "not a star query"),
    (
        "SELECT v, COUNT(*) FROM f, d WHERE fk = k",
        "not a star query",
    ),
    // Items that aren't grouped, and too many conjunctions.
    ("SELECT a, COUNT(*) FROM t", "not grouped"),
    ("SELECT b, SUM(a) FROM p GROUP BY a", "not grouped"),
    ("SELECT b FROM p GROUP BY a", "not grouped"),
    (
        "SELECT v, SUM(v) FROM f, d WHERE fk = k GROUP BY n",
        "not grouped",
    ),
    (
        "SELECT a FROM p WHERE (a = 1 OR b = 1) AND (a = 1 OR b = 1) AND (a = 1 OR b = 1) AND (a = 1 OR b = 1) AND (a = 1 OR b = 1) AND (a = 1 OR b = 1) AND (a = 1 OR b = 1)",
        "too many conjunctions",
    ),
    (
        "SELECT a, COUNT(*) FROM p WHERE (a = 1 OR b = 1) AND (a = 1 OR b = 1) AND (a = 1 OR b = 1) AND (a = 1 OR b = 1) AND (a = 1 OR b = 1) AND (a = 1 OR b = 1) AND (a = 1 OR b = 1)",
        "not grouped",
    ),
    // Not built yet, whatever they name.
    ("EXPLAIN SELECT a FROM t", "not built"),
    ("EXPLAIN SELECT z FROM x, y", "not built"),
    ("EXPORT TABLE t TO 'x'", "not built"),
    ("IMPORT TABLE z FROM 'x'", "not built"),
];

// What is asked behind each refusal, and what it prints.
const BEHIND: Case = (
    "SELECT a, b FROM p; \
     SELECT fk, n FROM f, d WHERE fk = k; \
     DESCRIBE p",
    "a,b\n1,2\n2,1\n2 rows\n\
     fk,n\n1,one\n1 rows\n\
     table p rows 2 blocks 0\ncolumn a int classes 0\ncolumn b int classes 0\nrest 2\n",
);

// Asks a query that is refused, and then what is asked behind it.
fn expect_refusal(
    rt: &impl Abort,
    alloc: Global,
    query: &str,
    refusal: &str,
) -> Result<(), AllocError> {
    let (behind, told) = BEHIND;
    let asked = format!(in alloc; "{query}; {behind}")?;
    let answer = format!(in alloc; "refused: {refusal}\n{told}")?;
    let case = (asked.as_str(), answer.as_str());
    expect_behind(rt, alloc, &SMALL[0], case, Status::Refused)
}

#[test]
fn a_refused_query_changes_nothing(rt: HostRuntime) -> Result<(), Fail> {
    for (query, refusal) in REFUSED {
        expect_refusal(&rt, rt.alloc(), query, refusal)?;
    }
    Ok(())
}

#[test]
fn small_tables_are_asked(rt: HostRuntime) -> Result<(), Fail> {
    expect_answers(&rt, rt.alloc(), &SMALL, &SMALL_CASES)?;
    Ok(())
}
