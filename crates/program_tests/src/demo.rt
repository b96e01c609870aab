// Tests of the demonstration.
use crate::run::{CALM, NO_FILES, Streams, expect_row};
use blink_run::Status;
use std::test::Fail;

// What the demonstration of one order prints.
const OF_ONE_ORDER: &str = "\
created date\n\
created customer\n\
created part\n\
created lineorder\n\
added 84\n\
added 200\n\
added 100\n\
added 1\n\
revenue\n\
NULL\n\
1 rows\n\
revenue\n\
4671\n\
1 rows\n\
r,d_year,p_brand\n\
47229,1996,BRAND14\n\
1 rows\n\
lo_discount,count(*),avg(lo_quantity)\n\
9,1,28\n\
1 rows\n\
c_city,r\n\
CITY19,47229\n\
1 rows\n\
min(lo_price),max(lo_price),count(*)\n\
519,519,1\n\
1 rows\n\
p_category,max(p_brand)\n\
CAT0,BRAND15\n\
CAT1,BRAND16\n\
CAT2,BRAND17\n\
CAT3,BRAND18\n\
CAT4,BRAND19\n\
5 rows\n\
lo_orderkey,d_month,c_city\n\
1,8,CITY19\n\
1 rows\n";

// What twenty orders of another seed print. SQLite answered the queries.
const OF_TWENTY_ORDERS: &str = "\
created date\n\
created customer\n\
created part\n\
created lineorder\n\
added 84\n\
added 200\n\
added 100\n\
added 20\n\
revenue\n\
NULL\n\
1 rows\n\
revenue\n\
NULL\n\
1 rows\n\
r,d_year,p_brand\n\
97776,1992,BRAND24\n\
87220,1993,BRAND19\n\
146676,1993,BRAND4\n\
37168,1996,BRAND19\n\
18768,1996,BRAND4\n\
97812,1997,BRAND14\n\
91980,1998,BRAND24\n\
7 rows\n\
lo_discount,count(*),avg(lo_quantity)\n\
0,1,32\n\
1,2,24\n\
2,1,16\n\
3,5,31\n\
4,1,10\n\
5,2,26\n\
8,4,17\n\
9,1,42\n\
10,3,7\n\
9 rows\n\
c_city,r\n\
CITY12,130950\n\
CITY7,91980\n\
CITY9,56034\n\
CITY14,41778\n\
4 rows\n\
min(lo_price),max(lo_price),count(*)\n\
528,1067,6\n\
1 rows\n\
p_category,max(p_brand)\n\
CAT0,BRAND15\n\
CAT1,BRAND16\n\
CAT2,BRAND17\n\
CAT3,BRAND18\n\
CAT4,BRAND19\n\
5 rows\n\
lo_orderkey,d_month,c_city\n\
2,3,CITY14\n\
16,6,CITY9\n\
2 rows\n";

// It needs no source and no store: the first call of each is to fail. The same numbers print the same again.
#[test]
fn a_demonstration_prints_its_answers(rt: HostRuntime) -> Result<(), Fail> {
    let alloc = rt.alloc();
    let failing = Streams {
        source_fails: 1,
        ..CALM
    };
    for (args, printed) in [
        ("demo 1 1", OF_ONE_ORDER),
        ("demo 7 20", OF_TWENTY_ORDERS),
        ("demo 0000000001 01", OF_ONE_ORDER),
        ("demo 07 0000000020", OF_TWENTY_ORDERS),
    ] {
        let row = (args, "DROP TABLE t;", NO_FILES, Status::Done, printed);
        expect_row(&rt, alloc, &row, failing, 1)?;
    }
    Ok(())
}
