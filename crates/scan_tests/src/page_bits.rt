// Truth values of the rows of a page.

use row_bits::PageBits;
use std::alloc::{AllocError, Global};
use std::test::Fail;

// The first so many rows of two pages, how many are in both, how many in one, and the first of both from a place on.
const PAGES: [(usize, usize, usize, usize, usize, Option<usize>); 8] = [
    (0, 0, 0, 0, 0, None),
    (1, 0, 0, 1, 0, None),
    (64, 63, 63, 64, 0, Some(0)),
    (65, 128, 65, 128, 64, Some(64)),
    (65, 128, 65, 128, 65, None),
    (1024, 1023, 1023, 1024, 1022, Some(1022)),
    (1024, 1023, 1023, 1024, 1023, None),
    (1024, 1024, 1024, 1024, 1024, None),
];

// How many rows are in both, how many in one, and the first of both from a place on.
fn counts_of(left: usize, right: usize, from: usize) -> (usize, usize, Option<usize>) {
    if left > 1024 || right > 1024 {
        return (0, 0, None);
    }
    let both = PageBits::first(left).and(PageBits::first(right));
    let one = PageBits::first(left).or(PageBits::first(right));
    (both.count(), one.count(), both.next_set(from))
}

#[test]
fn rows_are_counted(rt: HostRuntime) -> Result<(), Fail> {
    for (left, right, both, one, from, next) in &PAGES {
        assert_eq!(rt; counts_of(*left, *right, *from), (*both, *one, *next));
    }
    Ok(())
}

// The true places of a page, by their values and one after another; None is true in a page of none.
fn places_of(alloc: Global, rows: usize) -> Result<(Vec<usize>, usize), AllocError> {
    let page = if rows > 1024 {
        PageBits::none()
    } else {
        PageBits::first(rows)
    };
    let mut places = Vec::new(alloc);
    for place in 0..1024 {
        if page.test(place) {
            places.push(place)?;
        }
    }
    Ok((places, page.count()))
}

#[test]
fn places_are_told(rt: HostRuntime) -> Result<(), Fail> {
    for rows in [0, 3, 64, 65, 1024] {
        let (places, count) = places_of(rt.alloc(), rows)?;
        assert_eq!(rt; (places.len(), count), (rows, rows));
    }
    Ok(())
}
