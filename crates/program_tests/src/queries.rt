// Queries of one table, over the same rows in several layouts, and whole scripts. SQLite made what is printed.
use crate::run::{CALM, Files, Streams, TableRow, expect_row};
use blink_run::Status;
use std::alloc::{AllocError, Global};
use std::process::Abort;
use std::test::Fail;

// A script that makes tables, its files, and what it prints.
pub(crate) type Setting = (&'static str, Files, &'static str);

// Statements behind such a script, and what they print.
pub(crate) type Case = (&'static str, &'static str);

// Rows in several cells, some of them often.
const ONE_FILES: Files = &[
    (
        "many.csv",
        &[
            ("a,g,d,v", 1),
            ("5,Linz,2024-02-29,7", 100),
            ("4,Wels,2024-03-01,-3", 10),
            ("3,\"Graz, West\",2023-12-31,-4", 10),
            ("2,\"\"\"Au\"\"\",2024-02-29,0", 10),
            ("1,,2024-01-01,100", 10),
        ],
    ),
    (
        "few.csv",
        &[
            ("a,g,d,v", 1),
            ("5,Wels,2023-12-31,-3", 1),
            ("4,Linz,2024-03-01,7", 1),
            ("9,Lienz,0001-01-01,999999999999999", 1),
            ("-9,Wien,9999-12-31,-999999999999999", 1),
        ],
    ),
];

// The same rows laid out at once, with rows of rest and in several cells, in rest alone, and laid out anew.
const ONE: [Setting; 4] = [
    (
        "CREATE TABLE t (a INT, g TEXT, d DATE, v INT); \
         LOAD INTO t FROM 'many.csv'; \
         LOAD INTO t FROM 'few.csv'",
        ONE_FILES,
        "created t\nadded 140\nadded 4\n",
    ),
    (
        "CREATE TABLE t (a INT, g TEXT, d DATE, v INT); \
         LOAD INTO t FROM 'many.csv'; \
         INSERT INTO t VALUES (5, 'Wels', '2023-12-31', -3), (4, 'Linz', DATE '2024-03-01', 7), (9, 'Lienz', '0001-01-01', 999999999999999), (-9, 'Wien', '9999-12-31', -999999999999999)",
        ONE_FILES,
        "created t\nadded 140\nadded 4\n",
    ),
    (
        "CREATE TABLE t (a INT, g TEXT, d DATE, v INT); \
         APPEND INTO t FROM 'few.csv'; \
         APPEND INTO t FROM 'many.csv'",
        ONE_FILES,
        "created t\nadded 4\nadded 140\n",
    ),
    (
        "CREATE TABLE t (a INT, g TEXT, d DATE, v INT); \
         APPEND INTO t FROM 'many.csv'; \
         REORGANIZE TABLE t; \
         APPEND INTO t FROM 'few.csv'",
        ONE_FILES,
        "created t\nadded 140\nreorganized t\nadded 4\n",
    ),
];

// Queries of one table.
const ONE_CASES: [Case; 17] = [
    // Counts, with and without rows.
    (
        "SELECT COUNT(*) FROM t; \
         SELECT COUNT(*) AS n, COUNT(*) FROM t WHERE a = 77; \
         SELECT count ( * ) FROM t WHERE a = 1 AND a = 2",
        "count(*)\n144\n1 rows\n\
         n,count(*)\n0,0\n1 rows\n\
         count(*)\n0\n1 rows\n",
    ),
    // Comparisons of whole numbers.
    (
        "SELECT COUNT(*) FROM t WHERE a = 5; \
         SELECT COUNT(*) FROM t WHERE a <> 5; \
         SELECT COUNT(*) FROM t WHERE a < 4; \
         SELECT COUNT(*) FROM t WHERE a <= 4; \
         SELECT COUNT(*) FROM t WHERE a > 4; \
         SELECT COUNT(*) FROM t WHERE a >= 4; \
         SELECT COUNT(*) FROM t WHERE a > -9; \
         SELECT COUNT(*) FROM t WHERE v <= -999999999999999",
        "count(*)\n101\n1 rows\n\
         count(*)\n43\n1 rows\n\
         count(*)\n31\n1 rows\n\
         count(*)\n42\n1 rows\n\
         count(*)\n102\n1 rows\n\
         count(*)\n113\n1 rows\n\
         count(*)\n143\n1 rows\n\
         count(*)\n1\n1 rows\n",
    ),
    (
        "SELECT COUNT(*) FROM t WHERE a BETWEEN 2 AND 4; \
         SELECT COUNT(*) FROM t WHERE a BETWEEN 4 AND 2; \
         SELECT COUNT(*) FROM t WHERE a IN (1, 9, 77); \
         SELECT COUNT(*) FROM t WHERE a IN (77); \
         SELECT COUNT(*) FROM t WHERE v BETWEEN -4 AND -3; \
         SELECT COUNT(*) FROM t WHERE a IN (5, 5)",
        "count(*)\n31\n1 rows\n\
         count(*)\n0\n1 rows\n\
         count(*)\n11\n1 rows\n\
         count(*)\n0\n1 rows\n\
         count(*)\n21\n1 rows\n\
         count(*)\n101\n1 rows\n",
    ),
    // Of texts, byte by byte.
    (
        "SELECT COUNT(*) FROM t WHERE g = 'Graz, West'; \
         SELECT COUNT(*) FROM t WHERE g = '\"Au\"'; \
         SELECT COUNT(*) FROM t WHERE g = ''; \
         SELECT COUNT(*) FROM t WHERE g = 'linz'; \
         SELECT COUNT(*) FROM t WHERE g <> 'Linz'; \
         SELECT COUNT(*) FROM t WHERE g < 'Linz'; \
         SELECT COUNT(*) FROM t WHERE g <= 'Linz'; \
         SELECT COUNT(*) FROM t WHERE g > 'W'; \
         SELECT COUNT(*) FROM t WHERE g >= 'Wels'; \
         SELECT COUNT(*) FROM t WHERE g BETWEEN 'Graz' AND 'Linz'; \
         SELECT COUNT(*) FROM t WHERE g IN ('', 'Wien', 'Rom')",
        "count(*)\n10\n1 rows\n\
         count(*)\n10\n1 rows\n\
         count(*)\n10\n1 rows\n\
         count(*)\n0\n1 rows\n\
         count(*)\n43\n1 rows\n\
         count(*)\n31\n1 rows\n\
         count(*)\n132\n1 rows\n\
         count(*)\n12\n1 rows\n\
         count(*)\n12\n1 rows\n\
         count(*)\n112\n1 rows\n\
         count(*)\n11\n1 rows\n",
    ),
    (
        "SELECT COUNT(*) FROM t WHERE g LIKE 'Li%'; \
         SELECT COUNT(*) FROM t WHERE g LIKE '%'; \
         SELECT COUNT(*) FROM t WHERE g LIKE 'Linz%'; \
         SELECT COUNT(*) FROM t WHERE g LIKE 'Linzer%'; \
         SELECT COUNT(*) FROM t WHERE g LIKE 'li%'; \
         SELECT COUNT(*) FROM t WHERE g LIKE '\"%'",
        "count(*)\n102\n1 rows\n\
         count(*)\n144\n1 rows\n\
         count(*)\n101\n1 rows\n\
         count(*)\n0\n1 rows\n\
         count(*)\n0\n1 rows\n\
         count(*)\n10\n1 rows\n",
    ),
    // Of dates.
    (
        "SELECT COUNT(*) FROM t WHERE d = '2024-02-29'; \
         SELECT COUNT(*) FROM t WHERE d = DATE '2024-02-29'; \
         SELECT COUNT(*) FROM t WHERE d <> '2024-02-29'; \
         SELECT COUNT(*) FROM t WHERE d < DATE '2024-01-01'; \
         SELECT COUNT(*) FROM t WHERE d <= '2024-01-01'; \
         SELECT COUNT(*) FROM t WHERE d > '2024-02-29'; \
         SELECT COUNT(*) FROM t WHERE d >= '2024-02-29'; \
         SELECT COUNT(*) FROM t WHERE d BETWEEN '2023-12-31' AND DATE '2024-01-01'; \
         SELECT COUNT(*) FROM t WHERE d IN ('0001-01-01', DATE '9999-12-31', '2000-02-29')",
        "count(*)\n110\n1 rows\n\
         count(*)\n110\n1 rows\n\
         count(*)\n34\n1 rows\n\
         count(*)\n12\n1 rows\n\
         count(*)\n22\n1 rows\n\
         count(*)\n12\n1 rows\n\
         count(*)\n122\n1 rows\n\
         count(*)\n21\n1 rows\n\
         count(*)\n2\n1 rows\n",
    ),
    // AND before OR, and parentheses.
    (
        "SELECT COUNT(*) FROM t WHERE a = 5 OR g = 'Wels' AND v < 0; \
         SELECT COUNT(*) FROM t WHERE (a = 5 OR g = 'Wels') AND v < 0; \
         SELECT COUNT(*) FROM t WHERE a = 5 AND g = 'Wels' OR v = 0; \
         SELECT COUNT(*) FROM t WHERE a = 5 AND (g = 'Wels' OR v = 0); \
         SELECT COUNT(*) FROM t WHERE (((a = 4))); \
         SELECT COUNT(*) FROM t WHERE a = 1 OR a <> 1; \
         SELECT COUNT(*) FROM t WHERE (a < 3 OR a > 4) AND (g LIKE 'L%' OR d < '2024-01-01'); \
         SELECT COUNT(*) FROM t WHERE g = 'Wels' AND d = '2024-03-01' AND v = -3 AND a = 4; \
         SELECT COUNT(*) FROM t WHERE a = 1 OR g = 'Wien' OR d = '2024-03-01' OR v = 0",
        "count(*)\n111\n1 rows\n\
         count(*)\n11\n1 rows\n\
         count(*)\n11\n1 rows\n\
         count(*)\n1\n1 rows\n\
         count(*)\n11\n1 rows\n\
         count(*)\n144\n1 rows\n\
         count(*)\n102\n1 rows\n\
         count(*)\n10\n1 rows\n\
         count(*)\n32\n1 rows\n",
    ),
    // Plain lines, equal ones among them, in the order of their items.
    (
        "SELECT g, v FROM t WHERE a <> 5 AND d <> '2024-02-29' AND g <> '' LIMIT 13; \
         SELECT v, g, v FROM t WHERE a = 4 OR a = 9; \
         SELECT d, a FROM t WHERE g LIKE 'W%' AND a <> 4",
        "g,v\n\"Graz, West\",-4\n\"Graz, West\",-4\n\"Graz, West\",-4\n\"Graz, West\",-4\n\"Graz, West\",-4\n\"Graz, West\",-4\n\"Graz, West\",-4\n\"Graz, West\",-4\n\"Graz, West\",-4\n\"Graz, West\",-4\nLienz,999999999999999\nLinz,7\nWels,-3\n13 rows\n\
         v,g,v\n-3,Wels,-3\n-3,Wels,-3\n-3,Wels,-3\n-3,Wels,-3\n-3,Wels,-3\n-3,Wels,-3\n-3,Wels,-3\n-3,Wels,-3\n-3,Wels,-3\n-3,Wels,-3\n7,Linz,7\n999999999999999,Lienz,999999999999999\n12 rows\n\
         d,a\n2023-12-31,5\n9999-12-31,-9\n2 rows\n",
    ),
    // Texts that are quoted, and a line that is empty.
    (
        "SELECT g FROM t WHERE a IN (2, 3) LIMIT 11; \
         SELECT g FROM t WHERE a = 1 LIMIT 2; \
         SELECT g, a FROM t WHERE a = 1 LIMIT 1; \
         SELECT MAX(g), MIN(g) FROM t WHERE a BETWEEN 1 AND 3",
        "g\n\"\"\"Au\"\"\"\n\"\"\"Au\"\"\"\n\"\"\"Au\"\"\"\n\"\"\"Au\"\"\"\n\"\"\"Au\"\"\"\n\"\"\"Au\"\"\"\n\"\"\"Au\"\"\"\n\"\"\"Au\"\"\"\n\"\"\"Au\"\"\"\n\"\"\"Au\"\"\"\n\"Graz, West\"\n11 rows\n\
         g\n\"\"\n\"\"\n2 rows\n\
         g,a\n,1\n1 rows\n\
         max(g),min(g)\n\"Graz, West\",\n1 rows\n",
    ),
    // Aggregates of all rows, sums that have more than 64 bits, and averages that are cut towards zero.
    (
        "SELECT COUNT(*), SUM(v), AVG(v), MIN(v), MAX(v), MIN(g), MAX(g), MIN(d), MAX(d) FROM t; \
         SELECT SUM(v*v), AVG(v*v), SUM(a*v), SUM(a+v), SUM(a-v), AVG(a-v) FROM t; \
         SELECT SUM(v), AVG(v), SUM(a-v), AVG(a-v) FROM t WHERE v BETWEEN -4 AND -3",
        "count(*),sum(v),avg(v),min(v),max(v),min(g),max(g),min(d),max(d)\n144,1634,11,-999999999999999,999999999999999,,Wien,0001-01-01,9999-12-31\n1 rows\n\
         sum(v*v),avg(v*v),sum(a*v),sum(a+v),sum(a-v),avg(a-v)\n1999999999999996000000000105210,13888888888888861111111111841,18000000000004255,2243,-1025,-7\n1 rows\n\
         sum(v),avg(v),sum(a-v),avg(a-v)\n-73,-3,148,7\n1 rows\n",
    ),
    // NULL over no rows, but no line of a group.
    (
        "SELECT COUNT(*), SUM(a), AVG(v), MIN(g), MAX(d), MIN(a), SUM(a*v) FROM t WHERE a = 77; \
         SELECT g, COUNT(*), SUM(a) FROM t WHERE a = 77 GROUP BY g; \
         SELECT SUM(a) AS nothing FROM t WHERE g = 'Rom'; \
         SELECT a, g FROM t WHERE a = 77",
        "count(*),sum(a),avg(v),min(g),max(d),min(a),sum(a*v)\n0,NULL,NULL,NULL,NULL,NULL,NULL\n1 rows\n\
         g,count(*),sum(a)\n0 rows\n\
         nothing\nNULL\n1 rows\n\
         a,g\n0 rows\n",
    ),
    // Groups over cells and rest.
    (
        "SELECT g, COUNT(*), SUM(v), MIN(a), MAX(d) FROM t GROUP BY g; \
         SELECT a, COUNT(*), AVG(v) FROM t WHERE v < 1000 AND v > -1000 GROUP BY a",
        "g,count(*),sum(v),min(a),max(d)\n,10,1000,1,2024-01-01\n\"\"\"Au\"\"\",10,0,2,2024-02-29\n\"Graz, West\",10,-40,3,2023-12-31\nLienz,1,999999999999999,9,0001-01-01\nLinz,101,707,4,2024-03-01\nWels,11,-33,4,2024-03-01\nWien,1,-999999999999999,-9,9999-12-31\n7 rows\n\
         a,count(*),avg(v)\n1,10,100\n2,10,0\n3,10,-4\n4,11,-2\n5,101,6\n5 rows\n",
    ),
    // Groups by several columns, by one that is no item, by one twice, and without an aggregate.
    (
        "SELECT a, g, COUNT(*) FROM t GROUP BY g, a; \
         SELECT COUNT(*) FROM t GROUP BY g; \
         SELECT SUM(v), d FROM t WHERE a > 0 AND a < 9 GROUP BY a, d; \
         SELECT g, g FROM t WHERE a > 3 GROUP BY g, t.g; \
         SELECT d FROM t GROUP BY d, a",
        "a,g,count(*)\n-9,Wien,1\n1,,10\n2,\"\"\"Au\"\"\",10\n3,\"Graz, West\",10\n4,Linz,1\n4,Wels,10\n5,Linz,100\n5,Wels,1\n9,Lienz,1\n9 rows\n\
         count(*)\n1\n1\n10\n10\n10\n11\n101\n7 rows\n\
         sum(v),d\n-40,2023-12-31\n-23,2024-03-01\n-3,2023-12-31\n0,2024-02-29\n700,2024-02-29\n1000,2024-01-01\n6 rows\n\
         g,g\nLienz,Lienz\nLinz,Linz\nWels,Wels\n3 rows\n\
         d\n0001-01-01\n2023-12-31\n2023-12-31\n2024-01-01\n2024-02-29\n2024-02-29\n2024-03-01\n9999-12-31\n8 rows\n",
    ),
    // Order by columns and AS names; lines that tie go by all items.
    (
        "SELECT a, g, COUNT(*) AS n FROM t GROUP BY a, g ORDER BY n DESC, g; \
         SELECT a, g FROM t GROUP BY a, g ORDER BY g DESC, a ASC; \
         SELECT MAX(v) AS top, a FROM t GROUP BY a ORDER BY top DESC LIMIT 3; \
         SELECT g, v FROM t WHERE a IN (9, -9) OR a = 4 AND v = 7 OR a = 5 AND v = -3 ORDER BY v DESC",
        "a,g,n\n5,Linz,100\n1,,10\n2,\"\"\"Au\"\"\",10\n3,\"Graz, West\",10\n4,Wels,10\n9,Lienz,1\n4,Linz,1\n5,Wels,1\n-9,Wien,1\n9 rows\n\
         a,g\n-9,Wien\n4,Wels\n5,Wels\n4,Linz\n5,Linz\n9,Lienz\n3,\"Graz, West\"\n2,\"\"\"Au\"\"\"\n1,\n9 rows\n\
         top,a\n999999999999999,9\n100,1\n7,4\n3 rows\n\
         g,v\nLienz,999999999999999\nLinz,7\nWels,-3\nWien,-999999999999999\n4 rows\n",
    ),
    // An AS name hides a column in ORDER BY alone, and the table's name shows the column.
    (
        "SELECT a AS v, v AS a FROM t WHERE a > 5 OR v = 7 AND g = 'Linz' AND a = 4 OR g = 'Wels' AND v = -3 AND a = 5 ORDER BY a; \
         SELECT a AS v, v AS a FROM t WHERE a > 5 OR v = 7 AND g = 'Linz' AND a = 4 OR g = 'Wels' AND v = -3 AND a = 5 ORDER BY t.a DESC; \
         SELECT v AS x, a AS x FROM t WHERE a = 9 OR g = 'Wels' AND v = -3 AND a = 5 ORDER BY x; \
         SELECT t.a AS b, SUM(v) FROM t WHERE d < '2024-01-01' GROUP BY a ORDER BY a DESC",
        "v,a\n5,-3\n4,7\n9,999999999999999\n3 rows\n\
         v,a\n9,999999999999999\n5,-3\n4,7\n3 rows\n\
         x,x\n-3,5\n999999999999999,9\n2 rows\n\
         b,sum(v)\n9,999999999999999\n5,-3\n3,-40\n3 rows\n",
    ),
    // LIMIT, and LIMIT 0.
    (
        "SELECT a FROM t ORDER BY a DESC LIMIT 2; \
         SELECT a FROM t WHERE a = 9 LIMIT 999999999999999; \
         SELECT a FROM t LIMIT 0; \
         SELECT COUNT(*), SUM(a) FROM t LIMIT 0; \
         SELECT g, COUNT(*) FROM t GROUP BY g LIMIT 1",
        "a\n9\n5\n2 rows\n\
         a\n9\n1 rows\n\
         a\n0 rows\n\
         count(*),sum(a)\n0 rows\n\
         g,count(*)\n,10\n1 rows\n",
    ),
    // Names of items.
    (
        "SELECT T.A, Count ( * ), SUM(t.A * V), avg( a - v ), Min(T.g) AS Least FROM T WHERE a = 2 GROUP BY t.a; \
         SELECT a FROM t WHERE a IN (1, 9) AND t.g LIKE 'L%' -- the end",
        "t.a,count(*),sum(t.a*v),avg(a-v),least\n2,10,0,2,\"\"\"Au\"\"\"\n1 rows\n\
         a\n9\n1 rows\n",
    ),
];

// Whole scripts.
const SCRIPTS: [TableRow<'static>; 15] = [
    // A table without a layout.
    (
        "run",
        "CREATE TABLE t (a INT); \
         INSERT INTO t VALUES (3),(1),(3); \
         SELECT a FROM t; \
         SELECT COUNT(*), SUM(a) FROM t WHERE a > 9; \
         ",
        &[],
        Status::Done,
        "created t\nadded 3\n\
         a\n1\n3\n3\n3 rows\n\
         count(*),sum(a)\n0,NULL\n1 rows\n",
    ),
    // A table without rows.
    (
        "run",
        "CREATE TABLE t (a INT, g TEXT); \
         SELECT a, g FROM t; \
         SELECT COUNT(*), SUM(a), AVG(a), MIN(g) FROM t; \
         SELECT g, COUNT(*) FROM t GROUP BY g",
        &[],
        Status::Done,
        "created t\n\
         a,g\n0 rows\n\
         count(*),sum(a),avg(a),min(g)\n0,NULL,NULL,NULL\n1 rows\n\
         g,count(*)\n0 rows\n",
    ),
    // More rows than a page has, and values of two classes.
    (
        "run",
        "CREATE TABLE t (a INT); \
         LOAD INTO t FROM 'c.csv'; \
         SELECT COUNT(*) FROM t; \
         SELECT COUNT(*), SUM(a) FROM t WHERE a = 4; \
         SELECT COUNT(*) FROM t WHERE a <> 4",
        &[("c.csv", &[("a", 1), ("4", 1025)])],
        Status::Done,
        "created t\nadded 1025\n\
         count(*)\n1025\n1 rows\n\
         count(*),sum(a)\n1025,4100\n1 rows\n\
         count(*)\n0\n1 rows\n",
    ),
    (
        "run",
        "CREATE TABLE t (a INT); \
         LOAD INTO t FROM 'c.csv'; \
         SELECT a, COUNT(*) FROM t GROUP BY a; \
         SELECT COUNT(*) FROM t WHERE a = 5; \
         SELECT COUNT(*) FROM t WHERE a <> 5; \
         SELECT COUNT(*) FROM t WHERE a BETWEEN 2 AND 5; \
         SELECT AVG(a) FROM t WHERE a <= 2",
        &[(
            "c.csv",
            &[
                ("a", 1),
                ("5", 100),
                ("4", 10),
                ("3", 10),
                ("2", 10),
                ("1", 10),
            ],
        )],
        Status::Done,
        "created t\nadded 140\n\
         a,count(*)\n1,10\n2,10\n3,10\n4,10\n5,100\n5 rows\n\
         count(*)\n100\n1 rows\n\
         count(*)\n40\n1 rows\n\
         count(*)\n130\n1 rows\n\
         avg(a)\n1\n1 rows\n",
    ),
    // Sets of more and of fewer than eight runs of codes.
    (
        "run",
        "CREATE TABLE t (a INT); \
         LOAD INTO t FROM 'n.csv'; \
         SELECT COUNT(*) FROM t WHERE a IN (1,3,5,7,9,11,13,15); \
         SELECT COUNT(*), SUM(a) FROM t WHERE a IN (1,3,5,7,9,11,13,15,17); \
         SELECT a FROM t WHERE a IN (17,15,13,11,9,7,5,3,1) AND a > 10",
        &[(
            "n.csv",
            &[
                ("a", 1),
                ("1", 1),
                ("2", 1),
                ("3", 1),
                ("4", 1),
                ("5", 1),
                ("6", 1),
                ("7", 1),
                ("8", 1),
                ("9", 1),
                ("10", 1),
                ("11", 1),
                ("12", 1),
                ("13", 1),
                ("14", 1),
                ("15", 1),
                ("16", 1),
                ("17", 1),
                ("18", 1),
                ("19", 1),
                ("20", 1),
            ],
        )],
        Status::Done,
        "created t\nadded 20\n\
         count(*)\n8\n1 rows\n\
         count(*),sum(a)\n9,81\n1 rows\n\
         a\n11\n13\n15\n17\n4 rows\n",
    ),
    // A row of rest, and the same laid out anew.
    (
        "run",
        "CREATE TABLE t (a INT); \
         LOAD INTO t FROM 'l.csv'; \
         APPEND INTO t FROM 'm.csv'; \
         SELECT COUNT(*) FROM t WHERE a = 7; \
         SELECT a FROM t; \
         REORGANIZE TABLE t; \
         SELECT COUNT(*) FROM t WHERE a = 7; \
         SELECT a FROM t",
        &[
            ("l.csv", &[("a", 1), ("1", 2)]),
            ("m.csv", &[("a", 1), ("7", 1)]),
        ],
        Status::Done,
        "created t\nadded 2\nadded 1\n\
         count(*)\n1\n1 rows\n\
         a\n1\n1\n7\n3 rows\n\
         reorganized t\n\
         count(*)\n1\n1 rows\n\
         a\n1\n1\n7\n3 rows\n",
    ),
    // Orders and days.
    (
        "run",
        "CREATE TABLE date (d_datekey INT PRIMARY KEY, d_year INT); \
         CREATE TABLE lineorder (lo_orderkey INT, lo_orderdate INT, lo_quantity INT, lo_extendedprice INT, lo_discount INT); \
         INSERT INTO date VALUES (19930101,1993),(19930615,1993),(19940101,1994); \
         INSERT INTO lineorder VALUES (1,19930101,10,1000,2),(2,19930615,24,500,3),(3,19930615,25,700,1),(4,19940101,5,900,2),(5,19930101,1,100,4),(6,19930101,24,200,1); \
         SELECT SUM(lo_extendedprice*lo_discount) AS revenue FROM lineorder, date WHERE lo_orderdate = d_datekey AND d_year = 1993 AND lo_discount BETWEEN 1 AND 3 AND lo_quantity < 25; \
         -- one line",
        &[],
        Status::Done,
        "created date\ncreated lineorder\nadded 3\nadded 6\n\
         revenue\n3700\n1 rows\n",
    ),
    // Rows of rest of the fact and of the dimension.
    (
        "run",
        "CREATE TABLE d (k INT PRIMARY KEY, n TEXT); \
         CREATE TABLE f (fk INT); \
         LOAD INTO d FROM 'd.csv'; \
         INSERT INTO d VALUES (3,'three'); \
         LOAD INTO f FROM 'f.csv'; \
         INSERT INTO f VALUES (2); \
         SELECT fk, n FROM f, d WHERE fk = k; \
         SELECT n FROM f, d WHERE fk = k AND fk < 3; \
         SELECT fk, n FROM f, d WHERE fk = k AND (fk = 1 OR n = 'two'); \
         SELECT COUNT(*) FROM f, d WHERE fk = k; \
         SELECT n, AVG(fk) FROM f, d WHERE fk = k GROUP BY n",
        &[
            ("d.csv", &[("k,n", 1), ("1,one", 1), ("2,two", 1)]),
            ("f.csv", &[("fk", 1), ("1", 1), ("3", 1), ("9", 1)]),
        ],
        Status::Refused,
        "created d\ncreated f\nadded 2\nadded 1\nadded 3\nadded 1\n\
         fk,n\n1,one\n2,two\n3,three\n3 rows\n\
         n\none\ntwo\n2 rows\n\
         refused: not a star query\n\
         refused: not a star query\n\
         refused: not a star query\n",
    ),
    // A refused batch adds no row.
    (
        "run",
        "CREATE TABLE d (k INT PRIMARY KEY); \
         INSERT INTO d VALUES (1),(2),(1); \
         SELECT COUNT(*) FROM d; \
         INSERT INTO d VALUES (2),(1); \
         INSERT INTO d VALUES (3),(2); \
         SELECT k FROM d",
        &[],
        Status::Refused,
        "created d\n\
         refused: duplicate key 3\n\
         count(*)\n0\n1 rows\n\
         added 2\n\
         refused: duplicate key 2\n\
         k\n1\n2\n2 rows\n",
    ),
    // Averages that are cut towards zero.
    (
        "run",
        "CREATE TABLE f (g TEXT, v INT); \
         INSERT INTO f VALUES ('x',-3), ('y',5), ('x',-4); \
         SELECT g, COUNT(*), AVG(v) AS m FROM f GROUP BY g ORDER BY m DESC; \
         ",
        &[],
        Status::Done,
        "created f\nadded 3\n\
         g,count(*),m\ny,1,5\nx,2,-3\n2 rows\n",
    ),
    // Fields with quotes, and an empty one.
    (
        "run",
        "CREATE TABLE t (a INT, b TEXT); \
         LOAD INTO t FROM 'q.csv'; \
         SELECT b, a FROM t; \
         SELECT b FROM t",
        &[(
            "q.csv",
            &[("A,b", 1), ("1,\"x,\"\"y\"\"\"", 1), ("", 1), ("2,", 1)],
        )],
        Status::Done,
        "created t\nadded 2\n\
         b,a\n,2\n\"x,\"\"y\"\"\",1\n2 rows\n\
         b\n\"\"\n\"x,\"\"y\"\"\"\n2 rows\n",
    ),
    // A dropped table is gone, and so are its rows under its name.
    (
        "run",
        "CREATE TABLE t (a INT); \
         INSERT INTO t VALUES (1); \
         DROP TABLE t; \
         SELECT a FROM t; \
         CREATE TABLE t (b TEXT); \
         SELECT b FROM t",
        &[],
        Status::Refused,
        "created t\nadded 1\ndropped t\n\
         refused: unknown table t\n\
         created t\n\
         b\n0 rows\n",
    ),
    // Texts of quotes, semicolons, line feeds and blanks, and one that reads as NULL does.
    (
        "run",
        "CREATE TABLE t (g TEXT); \
         INSERT INTO t VALUES ('it''s'), ('a\nb'), (' b'), ('NULL'), ('ü;'); \
         SELECT g FROM t; \
         SELECT g AS h FROM t WHERE g IN ('it''s', 'ü;') ORDER BY h DESC; \
         SELECT COUNT(*) FROM t WHERE g LIKE 'a%'; \
         SELECT MAX(g), MIN(g) FROM t",
        &[],
        Status::Done,
        "created t\nadded 5\n\
         g\n b\nNULL\n\"a\nb\"\nit's\nü;\n5 rows\n\
         h\nü;\nit's\n2 rows\n\
         count(*)\n1\n1 rows\n\
         max(g),min(g)\nü;, b\n1 rows\n",
    ),
    // A text that isn't closed takes the rest.
    (
        "run",
        "CREATE TABLE t (a INT); \
         INSERT INTO t VALUES (3),(1),(3); \
         SELECT COUNT(*) FROM t; \
         SELECT 'a",
        &[],
        Status::Refused,
        "created t\nadded 3\n\
         count(*)\n3\n1 rows\n\
         refused: syntax\n",
    ),
    // Conditions in 32 pairs of parentheses, and in 33.
    (
        "run",
        "CREATE TABLE t (a INT); \
         INSERT INTO t VALUES (3),(1),(3); \
         SELECT a FROM t WHERE ((((((((((((((((((((((((((((((((a = 1)))))))))))))))))))))))))))))))); \
         SELECT a FROM t WHERE (((((((((((((((((((((((((((((((((a = 1))))))))))))))))))))))))))))))))); \
         SELECT a FROM t",
        &[],
        Status::Refused,
        "created t\nadded 3\n\
         a\n1\n1 rows\n\
         refused: too deep\n\
         a\n1\n3\n3\n3 rows\n",
    ),
];

// Runs a script behind a setting, and asserts the status and what both print.
pub(crate) fn expect_behind(
    rt: &impl Abort,
    alloc: Global,
    setting: &Setting,
    (asked, answer): (&str, &str),
    status: Status,
) -> Result<(), AllocError> {
    let (made, files, told) = setting;
    let script = format!(in alloc; "{made}; {asked}")?;
    let printed = format!(in alloc; "{told}{answer}")?;
    let row = ("run", script.as_str(), *files, status, printed.as_str());
    expect_row(rt, alloc, &row, Streams { piece: 64, ..CALM }, 0)
}

// Runs each case behind each setting; none is refused.
pub(crate) fn expect_answers(
    rt: &impl Abort,
    alloc: Global,
    settings: &[Setting],
    cases: &[Case],
) -> Result<(), AllocError> {
    for setting in settings {
        for case in cases {
            expect_behind(rt, alloc, setting, *case, Status::Done)?;
        }
    }
    Ok(())
}

#[test]
fn one_table_is_asked(rt: HostRuntime) -> Result<(), Fail> {
    expect_answers(&rt, rt.alloc(), &ONE, &ONE_CASES)?;
    Ok(())
}

#[test]
fn scripts_ask_queries(rt: HostRuntime) -> Result<(), Fail> {
    for row in &SCRIPTS {
        expect_row(&rt, rt.alloc(), row, Streams { piece: 64, ..CALM }, 0)?;
    }
    Ok(())
}
