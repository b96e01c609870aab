// Queries of several tables, over the same rows in several layouts. SQLite made what is printed.
use crate::queries::{Case, Setting, expect_answers};
use crate::run::Files;
use std::test::Fail;

// Four dimensions and their fact, with rows that fit no row of a dimension.
const STAR_FILES: Files = &[
    (
        "shops.csv",
        &[
            ("shop,city,size", 1),
            ("1,Linz,10", 1),
            ("2,Wels,4", 1),
            ("3,Linz,7", 1),
            ("4,\"Graz, West\",2", 1),
        ],
    ),
    (
        "goods.csv",
        &[
            ("code,kind,price", 1),
            ("Ax,tool,12", 1),
            ("Bolt,part,1", 1),
            ("Nut,part,1", 1),
        ],
    ),
    (
        "days.csv",
        &[
            ("day,year,month", 1),
            ("2023-12-31,2023,12", 1),
            ("2024-02-29,2024,2", 1),
            ("2024-03-01,2024,3", 1),
        ],
    ),
    (
        "bosses.csv",
        &[("led,boss", 1), ("1,Ada", 1), ("3,Bea", 1), ("9,Cai", 1)],
    ),
    (
        "sales.csv",
        &[
            ("sold,place,good,day,n,back", 1),
            ("1,1,Ax,2024-02-29,3,-1", 60),
            ("2,2,Bolt,2024-03-01,40,0", 10),
            ("3,3,Nut,2023-12-31,25,2", 10),
            ("4,4,Ax,2024-03-01,1,0", 5),
            ("5,9,Ax,2024-02-29,7,7", 3),
            ("6,1,Gone,2024-02-29,100,0", 2),
            ("7,3,Bolt,2022-01-01,9,1", 2),
        ],
    ),
];

// The same rows loaded with later ones in rest, in rest alone, and laid out anew.
const STARS: [Setting; 3] = [
    (
        "CREATE TABLE shops (shop INT PRIMARY KEY, city TEXT, size INT); \
         CREATE TABLE goods (code TEXT PRIMARY KEY, kind TEXT, price INT); \
         CREATE TABLE days (day DATE PRIMARY KEY, year INT, month INT); \
         CREATE TABLE bosses (led INT PRIMARY KEY, boss TEXT); \
         CREATE TABLE none (ek INT PRIMARY KEY, en TEXT); \
         CREATE TABLE sales (sold INT, place INT, good TEXT, day DATE, n INT, back INT); \
         LOAD INTO shops FROM 'shops.csv'; \
         LOAD INTO goods FROM 'goods.csv'; \
         LOAD INTO days FROM 'days.csv'; \
         LOAD INTO bosses FROM 'bosses.csv'; \
         LOAD INTO sales FROM 'sales.csv'; \
         INSERT INTO shops VALUES (5, 'Wien', 30); \
         INSERT INTO goods VALUES ('Saw', 'tool', 20); \
         INSERT INTO sales VALUES (8, 5, 'Saw', '2024-02-29', 2, 0), (9, 2, 'Saw', '2023-12-31', 11, -5)",
        STAR_FILES,
        "created shops\ncreated goods\ncreated days\ncreated bosses\ncreated none\ncreated sales\nadded 4\nadded 3\nadded 3\nadded 3\nadded 92\nadded 1\nadded 1\nadded 2\n",
    ),
    (
        "CREATE TABLE shops (shop INT PRIMARY KEY, city TEXT, size INT); \
         CREATE TABLE goods (code TEXT PRIMARY KEY, kind TEXT, price INT); \
         CREATE TABLE days (day DATE PRIMARY KEY, year INT, month INT); \
         CREATE TABLE bosses (led INT PRIMARY KEY, boss TEXT); \
         CREATE TABLE none (ek INT PRIMARY KEY, en TEXT); \
         CREATE TABLE sales (sold INT, place INT, good TEXT, day DATE, n INT, back INT); \
         APPEND INTO shops FROM 'shops.csv'; \
         APPEND INTO goods FROM 'goods.csv'; \
         APPEND INTO days FROM 'days.csv'; \
         APPEND INTO bosses FROM 'bosses.csv'; \
         APPEND INTO sales FROM 'sales.csv'; \
         INSERT INTO shops VALUES (5, 'Wien', 30); \
         INSERT INTO goods VALUES ('Saw', 'tool', 20); \
         INSERT INTO sales VALUES (8, 5, 'Saw', '2024-02-29', 2, 0), (9, 2, 'Saw', '2023-12-31', 11, -5)",
        STAR_FILES,
        "created shops\ncreated goods\ncreated days\ncreated bosses\ncreated none\ncreated sales\nadded 4\nadded 3\nadded 3\nadded 3\nadded 92\nadded 1\nadded 1\nadded 2\n",
    ),
    (
        "CREATE TABLE shops (shop INT PRIMARY KEY, city TEXT, size INT); \
         CREATE TABLE goods (code TEXT PRIMARY KEY, kind TEXT, price INT); \
         CREATE TABLE days (day DATE PRIMARY KEY, year INT, month INT); \
         CREATE TABLE bosses (led INT PRIMARY KEY, boss TEXT); \
         CREATE TABLE none (ek INT PRIMARY KEY, en TEXT); \
         CREATE TABLE sales (sold INT, place INT, good TEXT, day DATE, n INT, back INT); \
         LOAD INTO shops FROM 'shops.csv'; \
         LOAD INTO goods FROM 'goods.csv'; \
         LOAD INTO days FROM 'days.csv'; \
         LOAD INTO bosses FROM 'bosses.csv'; \
         LOAD INTO sales FROM 'sales.csv'; \
         INSERT INTO shops VALUES (5, 'Wien', 30); \
         INSERT INTO goods VALUES ('Saw', 'tool', 20); \
         INSERT INTO sales VALUES (8, 5, 'Saw', '2024-02-29', 2, 0), (9, 2, 'Saw', '2023-12-31', 11, -5); \
         REORGANIZE TABLE shops; \
         REORGANIZE TABLE goods; \
         REORGANIZE TABLE sales",
        STAR_FILES,
        "created shops\ncreated goods\ncreated days\ncreated bosses\ncreated none\ncreated sales\nadded 4\nadded 3\nadded 3\nadded 3\nadded 92\nadded 1\nadded 1\nadded 2\nreorganized shops\nreorganized goods\nreorganized sales\n",
    ),
];

// Star queries.
const STAR_CASES: [Case; 9] = [
    // A dimension's column, which two of its rows have; rows without a shop don't count.
    (
        "SELECT city, SUM(n) FROM sales, shops WHERE place = shop GROUP BY city; \
         SELECT SUM(n) FROM sales; \
         SELECT SUM(n) AS n, city FROM shops, sales WHERE (shop = place) GROUP BY city ORDER BY n DESC, city LIMIT 2",
        "city,sum(n)\n\"Graz, West\",5\nLinz,648\nWels,411\nWien,2\n4 rows\n\
         sum(n)\n1087\n1 rows\n\
         n,city\n648,Linz\n411,Wels\n2 rows\n",
    ),
    // Sums over products, also of columns of two tables; the least and the greatest.
    (
        "SELECT city, SUM(n*back), SUM(n-back), SUM(n*size), SUM(size+back) FROM sales, shops WHERE place = shop GROUP BY city; \
         SELECT MIN(n), MAX(city), MIN(city), MAX(size), MIN(code), MAX(price) FROM sales, shops, goods WHERE place = shop AND good = code",
        "city,sum(n*back),sum(n-back),sum(n*size),sum(size+back)\n\"Graz, West\",0,5,10,10\nLinz,338,686,5676,666\nWels,-55,416,1644,39\nWien,0,2,60,30\n4 rows\n\
         min(n),max(city),min(city),max(size),min(code),max(price)\n1,Wien,\"Graz, West\",30,Ax,20\n1 rows\n",
    ),
    // Three dimensions, by keys of three kinds.
    (
        "SELECT city, kind, year, SUM(n*price) AS worth, MAX(days.day) FROM sales, shops, goods, days WHERE place = shop AND good = code AND sales.day = days.day GROUP BY city, kind, year; \
         SELECT year, SUM(n) FROM days, goods, sales, shops WHERE days.day = sales.day AND code = good AND shop = place AND kind = 'part' AND size > 5 GROUP BY year",
        "city,kind,year,worth,max(days.day)\n\"Graz, West\",tool,2024,60,2024-03-01\nLinz,part,2023,250,2023-12-31\nLinz,tool,2024,2160,2024-02-29\nWels,part,2024,400,2024-03-01\nWels,tool,2023,220,2023-12-31\nWien,tool,2024,40,2024-02-29\n6 rows\n\
         year,sum(n)\n2023,250\n1 rows\n",
    ),
    // Conditions on the dimensions, and on the fact.
    (
        "SELECT SUM(n) FROM sales, shops, days WHERE place = shop AND sales.day = days.day AND (city = 'Wels' OR size < 3) AND year = 2024 AND month IN (2, 3); \
         SELECT SUM(n) FROM sales, shops WHERE place = shop AND city LIKE 'L%' AND (n < 5 OR good = 'Nut'); \
         SELECT MAX(n) FROM sales, goods WHERE good = code AND price BETWEEN 12 AND 20 AND back <> -1 AND sold >= 4",
        "sum(n)\n405\n1 rows\n\
         sum(n)\n430\n1 rows\n\
         max(n)\n11\n1 rows\n",
    ),
    // Two ties on one column of the fact.
    (
        "SELECT boss, city, SUM(n) FROM sales, bosses, shops WHERE place = led AND place = shop GROUP BY boss, city; \
         SELECT boss, SUM(n) FROM sales, bosses WHERE place = led GROUP BY boss; \
         SELECT SUM(n) FROM sales, bosses, shops WHERE place = led AND shop = place AND boss <> 'Ada'",
        "boss,city,sum(n)\nAda,Linz,380\nBea,Linz,268\n2 rows\n\
         boss,sum(n)\nAda,380\nBea,268\nCai,21\n3 rows\n\
         sum(n)\n268\n1 rows\n",
    ),
    // Lines without groups, equal ones among them, and rows without a row of the dimension.
    (
        "SELECT city, n, good FROM sales, shops WHERE place = shop AND sold > 3; \
         SELECT sold, price FROM sales, goods WHERE good = code AND sold > 4 ORDER BY price DESC, sold; \
         SELECT month, sold FROM sales, days WHERE sales.day = days.day AND sold IN (7, 8, 9)",
        "city,n,good\n\"Graz, West\",1,Ax\n\"Graz, West\",1,Ax\n\"Graz, West\",1,Ax\n\"Graz, West\",1,Ax\n\"Graz, West\",1,Ax\nLinz,9,Bolt\nLinz,9,Bolt\nLinz,100,Gone\nLinz,100,Gone\nWels,11,Saw\nWien,2,Saw\n11 rows\n\
         sold,price\n8,20\n9,20\n5,12\n5,12\n5,12\n7,1\n7,1\n7 rows\n\
         month,sold\n2,8\n12,9\n2 rows\n",
    ),
    // No key that is selected, and a dimension without rows.
    (
        "SELECT SUM(n), MIN(city), MAX(sales.day) FROM sales, shops WHERE place = shop AND city = 'Rom'; \
         SELECT city FROM sales, shops WHERE place = shop AND city = 'Rom'; \
         SELECT en, SUM(n) FROM sales, none WHERE place = ek GROUP BY en; \
         SELECT MAX(en) FROM sales, none WHERE place = ek; \
         SELECT SUM(n) FROM sales, shops WHERE place = shop AND n = 77",
        "sum(n),min(city),max(sales.day)\nNULL,NULL,NULL\n1 rows\n\
         city\n0 rows\n\
         en,sum(n)\n0 rows\n\
         max(en)\nNULL\n1 rows\n\
         sum(n)\nNULL\n1 rows\n",
    ),
    // Rows of a dimension that come later count from then on.
    (
        "SELECT SUM(n) FROM sales, shops WHERE place = shop AND city = 'Rom'; \
         INSERT INTO shops VALUES (9, 'Rom', 1); \
         SELECT SUM(n) FROM sales, shops WHERE place = shop AND city = 'Rom'; \
         REORGANIZE TABLE shops; \
         INSERT INTO sales VALUES (10, 9, 'Ax', '2024-03-01', 1000, 0); \
         SELECT city, SUM(n) FROM sales, shops WHERE place = shop AND size < 3 GROUP BY city",
        "sum(n)\nNULL\n1 rows\n\
         added 1\n\
         sum(n)\n21\n1 rows\n\
         reorganized shops\nadded 1\n\
         city,sum(n)\n\"Graz, West\",5\nRom,1021\n2 rows\n",
    ),
    // A fact with a key of its own, and one of which nothing is selected but by its tie.
    (
        "SELECT boss, city FROM bosses, shops WHERE led = shop; \
         SELECT city, boss FROM shops, bosses WHERE led = shop ORDER BY city DESC, boss DESC; \
         SELECT city FROM sales, shops WHERE place = shop GROUP BY city; \
         SELECT good, kind, SUM(n) AS s FROM sales, goods WHERE good = code GROUP BY good, kind ORDER BY s, good LIMIT 3; \
         SELECT size FROM sales, shops WHERE place = shop GROUP BY size, city ORDER BY size DESC LIMIT 0",
        "boss,city\nAda,Linz\nBea,Linz\n2 rows\n\
         city,boss\nLinz,Bea\nLinz,Ada\n2 rows\n\
         city\n\"Graz, West\"\nLinz\nWels\nWien\n4 rows\n\
         good,kind,s\nSaw,tool,13\nAx,tool,206\nNut,part,250\n3 rows\n\
         size\n0 rows\n",
    ),
];

#[test]
fn stars_are_asked(rt: HostRuntime) -> Result<(), Fail> {
    expect_answers(&rt, rt.alloc(), &STARS, &STAR_CASES)?;
    Ok(())
}
