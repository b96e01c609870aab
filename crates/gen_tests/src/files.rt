// The files of a demonstration, and its script. What is expected was reckoned apart, by another program.
ghost use Rattle.std.specs.Prelude.{◌≤◌};

use blink_gen::{MOST_DEMO_ROWS, MOST_SEED, files, script};
use std::alloc::Global;
use std::test::Fail;

// One of the files.
fn demo_file(alloc: Global, seed: u32, rows: u32, name: &str) -> Result<Vec<u8>, Fail>
    requires seed { seed ≤ MOST_SEED }
    requires rows { rows ≤ MOST_DEMO_ROWS }
{
    let shelf = files(alloc, seed, rows)?;
    let bytes = shelf.file(name).ok_or("no such file")?;
    Ok(bytes.to_vec(alloc)?)
}

const HEADER: &str =
    "lo_orderkey,lo_custkey,lo_partkey,lo_orderdate,lo_quantity,lo_discount,lo_price,lo_revenue\n";

// A seed, how many orders, and their records.
const ORDERS: [(u32, u32, &str); 4] = [
    (1, 1, "1,39,14,199608,28,9,519,47229\n"),
    (
        7,
        3,
        "1,7,69,199312,16,2,890,87220\n2,114,14,199703,25,1,422,41778\n3,55,51,199201,18,8,758,69736\n",
    ),
    (0, 1, "1,1,18,199607,28,7,841,78213\n"),
    (
        2_147_483_647,
        2,
        "1,10,19,199702,27,5,163,15485\n2,33,70,199604,7,5,538,51110\n",
    ),
];

#[test]
fn orders_are_drawn(rt: HostRuntime) -> Result<(), Fail> {
    for (seed, rows, records) in ORDERS {
        assert!(rt; seed <= MOST_SEED && rows <= MOST_DEMO_ROWS);
        let mut text = HEADER.as_bytes().to_vec(rt.alloc())?;
        text.extend_from_slice(records.as_bytes())?;
        assert_eq!(rt; demo_file(rt.alloc(), seed, rows, "lineorder.csv")?, text);
    }
    Ok(())
}

// The bytes as the digits of a number in base 31, of which the low 32 bits are kept.
fn checksum(bytes: &[u8]) -> u32 {
    let mut sum = 0u32;
    for byte in bytes {
        sum = sum.wrapping_mul(31).wrapping_add(u32::from(*byte));
    }
    sum
}

// A seed, how many orders, the name of a file, its length and its checksum.
const SUMS: [(u32, u32, &str, usize, u32); 5] = [
    (1, 1, "date.csv", 1_222, 2_781_071_933),
    (1, 1, "customer.csv", 3_578, 437_345_351),
    (1, 1, "part.csv", 1_581, 1_713_823_643),
    (7, 20_000, "lineorder.csv", 669_684, 294_382_070),
    (MOST_SEED, 1_000, "lineorder.csv", 32_026, 49_898_187),
];

#[test]
fn files_are_whole(rt: HostRuntime) -> Result<(), Fail> {
    for (seed, rows, name, length, sum) in SUMS {
        assert!(rt; seed <= MOST_SEED && rows <= MOST_DEMO_ROWS);
        let bytes = demo_file(rt.alloc(), seed, rows, name)?;
        assert_eq!(rt; bytes.len(), length, "{name}");
        assert_eq!(rt; checksum(bytes.as_slice()), sum, "{name}");
    }
    Ok(())
}

#[test]
fn the_script_is_whole(rt: HostRuntime) {
    assert_eq!(rt; script().len(), 1_844);
    assert_eq!(rt; checksum(script().as_bytes()), 1_187_311_980);
}
