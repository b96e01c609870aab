// Rows of words that lie in one of some rounds.

use crate::words::{rounds_of, spread, words_of};
use lane_scan::{scan, scan_plain};
use masked_compare::Shape;
use row_bits::PageBits;
use std::alloc::{AllocError, Global};
use std::test::Fail;

// The widths of the fields.
#[derive(Clone, Copy)]
enum Fields {
    Three,
    ThreeTwo,
    ThreeFour,
    FiveSevenNine,
}

// The widths of some fields, and the codes of rows of them.
fn fields_of(fields: Fields) -> (&'static [u8], &'static [u32]) {
    match fields {
        Fields::Three => (&[3], EIGHT),
        Fields::ThreeTwo => (&[3, 2], EIGHT_PAIRS),
        Fields::ThreeFour => (&[3, 4], SIXTEEN),
        Fields::FiveSevenNine => (&[5, 7, 9], THIRTY_TWO),
    }
}

// How many words and rows are scanned, the bounds of the rounds one after another, each the lows and then the highs, and the
// first place of the page; four words of the page, from one on, before and behind. The other words are zero.
struct Case {
    fields: Fields,
    words: usize,
    rows: usize,
    bounds: &'static [u32],
    first: usize,
    at: usize,
    before: [u64; 4],
    wanted: [u64; 4],
}

// The codes of rows, row by row, of fields of 3 bits.
const EIGHT: &[u32] = &[
    0, 1, 2, 3, 4, 5, 6, 7, 3, 0, 1, 6, 6, 1, 3, 1, 6, 0, 1, 3, 0, 6, 0, 3, 0, 2, 4, 6, 2, 1, 4, 2,
    1, 3, 5, 1, 1, 0, 3, 7, 6, 5, 7, 7, 5, 4, 3, 2, 3, 1, 4, 7, 5, 7, 4, 1, 1, 6, 2, 5, 2, 7, 6, 0,
    1, 5, 5, 5, 7, 7, 1, 1,
];

// The codes of rows, row by row, of fields of 3 and 2 bits.
const EIGHT_PAIRS: &[u32] = &[
    4, 3, 1, 0, 4, 3, 4, 3, 5, 0, 7, 2, 2, 0, 7, 0, 3, 2, 2, 1, 6, 3, 7, 0, 2, 3, 6, 2, 2, 3, 4, 3,
    5, 3, 3, 1, 1, 1, 2, 1, 3, 0, 7, 1, 4, 2, 0, 1, 6, 2, 5, 1, 0, 3, 6, 3, 6, 3, 1, 3, 6, 0, 3, 0,
    3, 3, 2, 0, 5, 0, 1, 0, 2, 0, 5, 0, 1, 1, 6, 1, 4, 2, 5, 3, 1, 0, 7, 3, 7, 3, 4, 0, 2, 0, 5, 2,
    7, 1, 0, 1, 5, 1, 0, 2, 1, 2, 5, 1, 5, 1, 5, 1, 3, 1, 6, 1, 3, 3, 5, 0, 0, 2, 7, 2, 3, 2, 7, 2,
    5, 0, 3, 0, 3, 3, 3, 2, 3, 3, 0, 3, 5, 0, 1, 3,
];

// The codes of rows, row by row, of fields of 3 and 4 bits.
const SIXTEEN: &[u32] = &[
    7, 0, 0, 15, 7, 15, 3, 8, 6, 2, 2, 5, 2, 0, 2, 14, 2, 15, 5, 4, 2, 0, 0, 3, 2, 13, 3, 6, 0, 8,
    3, 9, 3, 10, 4, 13, 2, 1, 5, 14, 6, 4, 2, 0, 7, 5, 0, 4, 2, 4, 7, 3, 0, 10, 7, 3, 0, 7, 3, 8,
    0, 3, 7, 0, 1, 14, 5, 6, 4, 14, 7, 7,
];

// The codes of rows, row by row, of fields of 5 and 7 and 9 bits.
const THIRTY_TWO: &[u32] = &[
    16, 51, 458, 8, 106, 124, 25, 113, 323, 4, 61, 438, 4, 54, 310, 7, 39, 374, 9, 64, 140, 29, 56,
    96, 25, 124, 166, 14, 41, 441, 25, 86, 431, 12, 91, 326, 5, 93, 19, 21, 117, 451, 1, 98, 339,
    18, 16, 115, 14, 26, 86, 16, 69, 40,
];

const CASES: &[Case] = &[
    Case {
        fields: Fields::Three,
        words: 1,
        rows: 8,
        bounds: &[0, 3],
        first: 0,
        at: 0,
        before: [0, 0, 0, 0],
        wanted: [0x000000000000000f, 0, 0, 0],
    },
    Case {
        fields: Fields::ThreeFour,
        words: 1,
        rows: 4,
        bounds: &[0, 15, 7, 15],
        first: 0,
        at: 0,
        before: [0, 0, 0, 0],
        wanted: [0x0000000000000006, 0, 0, 0],
    },
    Case {
        fields: Fields::Three,
        words: 1,
        rows: 7,
        bounds: &[0, 0, 5, 6],
        first: 128,
        at: 1,
        before: [0x8000000000000000, 0x00000000000001c1, 0, 0],
        wanted: [0x8000000000000000, 0x00000000000001e1, 0, 0],
    },
    Case {
        fields: Fields::Three,
        words: 2,
        rows: 9,
        bounds: &[0, 0, 2, 2, 4, 4, 7, 7],
        first: 448,
        at: 6,
        before: [0, 0, 0, 0],
        wanted: [0, 0x0000000000000095, 0, 0],
    },
    Case {
        fields: Fields::Three,
        words: 3,
        rows: 24,
        bounds: &[0, 0, 1, 1, 2, 2, 3, 3, 4, 4, 5, 5, 6, 6, 7, 7],
        first: 960,
        at: 12,
        before: [0, 0, 0x8000000000000000, 0x0000000003800001],
        wanted: [0, 0, 0x8000000000000000, 0x0000000003ffffff],
    },
    Case {
        fields: Fields::Three,
        words: 4,
        rows: 32,
        bounds: &[5, 2],
        first: 0,
        at: 0,
        before: [0, 0, 0, 0],
        wanted: [0, 0, 0, 0],
    },
    Case {
        fields: Fields::Three,
        words: 5,
        rows: 33,
        bounds: &[0, 3],
        first: 64,
        at: 0,
        before: [0x8000000000000000, 0x0000000700000001, 0, 0],
        wanted: [0x8000000000000000, 0x00000007b3dee70f, 0, 0],
    },
    Case {
        fields: Fields::Three,
        words: 6,
        rows: 48,
        bounds: &[0, 0, 5, 6],
        first: 128,
        at: 1,
        before: [0, 0, 0, 0],
        wanted: [0, 0x0000132409731a61, 0, 0],
    },
    Case {
        fields: Fields::Three,
        words: 7,
        rows: 55,
        bounds: &[0, 0, 2, 2, 4, 4, 7, 7],
        first: 448,
        at: 6,
        before: [0x8000000000000000, 0x01c0000000000001, 0, 0],
        wanted: [0x8000000000000000, 0x01ecaca0d7520295, 0, 0],
    },
    Case {
        fields: Fields::Three,
        words: 8,
        rows: 64,
        bounds: &[0, 0, 1, 1, 2, 2, 3, 3, 4, 4, 5, 5, 6, 6, 7, 7],
        first: 960,
        at: 12,
        before: [0, 0, 0, 0],
        wanted: [0, 0, 0, 0xffffffffffffffff],
    },
    Case {
        fields: Fields::Three,
        words: 9,
        rows: 72,
        bounds: &[5, 2],
        first: 0,
        at: 0,
        before: [0x0000000000000001, 0x0000000000000380, 0, 0],
        wanted: [0x0000000000000001, 0x0000000000000380, 0, 0],
    },
    Case {
        fields: Fields::ThreeTwo,
        words: 2,
        rows: 9,
        bounds: &[0, 3, 7, 3],
        first: 960,
        at: 12,
        before: [0, 0, 0, 0],
        wanted: [0, 0, 0, 0x000000000000000d],
    },
    Case {
        fields: Fields::ThreeTwo,
        words: 5,
        rows: 33,
        bounds: &[0, 3, 7, 3],
        first: 128,
        at: 1,
        before: [0x8000000000000000, 0x0000000700000001, 0, 0],
        wanted: [0x8000000000000000, 0x000000073c01d40d, 0, 0],
    },
    Case {
        fields: Fields::ThreeTwo,
        words: 9,
        rows: 72,
        bounds: &[1, 1, 6, 2],
        first: 64,
        at: 0,
        before: [
            0x8000000000000000,
            0x0000000000000001,
            0x0000000000000380,
            0,
        ],
        wanted: [
            0x8000000000000000,
            0x43f481c0034e2301,
            0x0000000000000388,
            0,
        ],
    },
    Case {
        fields: Fields::ThreeFour,
        words: 1,
        rows: 3,
        bounds: &[0, 8, 7, 15, 2, 0, 3, 7],
        first: 448,
        at: 6,
        before: [0x8000000000000000, 0x000000000000001d, 0, 0],
        wanted: [0x8000000000000000, 0x000000000000001f, 0, 0],
    },
    Case {
        fields: Fields::ThreeFour,
        words: 2,
        rows: 5,
        bounds: &[
            0, 0, 0, 12, 1, 0, 1, 12, 2, 0, 2, 12, 3, 0, 3, 12, 4, 0, 4, 12, 5, 0, 5, 12, 6, 0, 6,
            12, 7, 0, 7, 12,
        ],
        first: 960,
        at: 12,
        before: [0, 0, 0, 0],
        wanted: [0, 0, 0, 0x0000000000000019],
    },
    Case {
        fields: Fields::ThreeFour,
        words: 3,
        rows: 12,
        bounds: &[0, 0, 0, 15, 7, 0, 7, 15, 3, 3, 4, 5],
        first: 0,
        at: 0,
        before: [0x0000000000003801, 0, 0, 0],
        wanted: [0x0000000000003807, 0, 0, 0],
    },
    Case {
        fields: Fields::ThreeFour,
        words: 4,
        rows: 16,
        bounds: &[0, 0, 5, 9],
        first: 64,
        at: 0,
        before: [0, 0, 0, 0],
        wanted: [0, 0x000000000000ee68, 0, 0],
    },
    Case {
        fields: Fields::ThreeFour,
        words: 5,
        rows: 17,
        bounds: &[0, 8, 7, 15, 2, 0, 3, 7],
        first: 128,
        at: 1,
        before: [0x8000000000000000, 0x0000000000070001, 0, 0],
        wanted: [0x8000000000000000, 0x000000000007f5ef, 0, 0],
    },
    Case {
        fields: Fields::ThreeFour,
        words: 6,
        rows: 24,
        bounds: &[
            0, 0, 0, 12, 1, 0, 1, 12, 2, 0, 2, 12, 3, 0, 3, 12, 4, 0, 4, 12, 5, 0, 5, 12, 6, 0, 6,
            12, 7, 0, 7, 12,
        ],
        first: 448,
        at: 6,
        before: [0, 0, 0, 0],
        wanted: [0, 0x0000000000f5ee79, 0, 0],
    },
    Case {
        fields: Fields::ThreeFour,
        words: 7,
        rows: 27,
        bounds: &[0, 0, 0, 15, 7, 0, 7, 15, 3, 3, 4, 5],
        first: 960,
        at: 12,
        before: [0, 0, 0x8000000000000000, 0x000000001c000001],
        wanted: [0, 0, 0x8000000000000000, 0x000000001ec04807],
    },
    Case {
        fields: Fields::ThreeFour,
        words: 8,
        rows: 32,
        bounds: &[0, 0, 5, 9],
        first: 0,
        at: 0,
        before: [0, 0, 0, 0],
        wanted: [0x0000000071a4ee68, 0, 0, 0],
    },
    Case {
        fields: Fields::ThreeFour,
        words: 9,
        rows: 36,
        bounds: &[0, 8, 7, 15, 2, 0, 3, 7],
        first: 64,
        at: 0,
        before: [0x8000000000000000, 0x0000003800000001, 0, 0],
        wanted: [0x8000000000000000, 0x0000003d252ff5ef, 0, 0],
    },
    Case {
        fields: Fields::FiveSevenNine,
        words: 1,
        rows: 1,
        bounds: &[0, 0, 0, 15, 63, 511, 16, 64, 0, 31, 127, 255],
        first: 960,
        at: 12,
        before: [0, 0, 0x8000000000000000, 0x0000000000000007],
        wanted: [0, 0, 0x8000000000000000, 0x0000000000000007],
    },
    Case {
        fields: Fields::FiveSevenNine,
        words: 2,
        rows: 3,
        bounds: &[
            4, 0, 100, 30, 127, 500, 0, 0, 0, 3, 127, 511, 31, 0, 0, 31, 10, 511,
        ],
        first: 0,
        at: 0,
        before: [0, 0, 0, 0],
        wanted: [0x0000000000000007, 0, 0, 0],
    },
    Case {
        fields: Fields::FiveSevenNine,
        words: 3,
        rows: 6,
        bounds: &[0, 0, 0, 20, 100, 400],
        first: 64,
        at: 0,
        before: [0x8000000000000000, 0x00000000000000e1, 0, 0],
        wanted: [0x8000000000000000, 0x00000000000000f1, 0, 0],
    },
    Case {
        fields: Fields::FiveSevenNine,
        words: 4,
        rows: 8,
        bounds: &[0, 0, 0, 15, 63, 511, 16, 64, 0, 31, 127, 255],
        first: 128,
        at: 1,
        before: [0, 0, 0, 0],
        wanted: [0, 0x0000000000000038, 0, 0],
    },
    Case {
        fields: Fields::FiveSevenNine,
        words: 5,
        rows: 9,
        bounds: &[
            4, 0, 100, 30, 127, 500, 0, 0, 0, 3, 127, 511, 31, 0, 0, 31, 10, 511,
        ],
        first: 448,
        at: 6,
        before: [0x8000000000000000, 0x0000000000000701, 0, 0],
        wanted: [0x8000000000000000, 0x000000000000077f, 0, 0],
    },
    Case {
        fields: Fields::FiveSevenNine,
        words: 6,
        rows: 12,
        bounds: &[0, 0, 0, 20, 100, 400],
        first: 960,
        at: 12,
        before: [0, 0, 0, 0],
        wanted: [0, 0, 0, 0x0000000000000870],
    },
    Case {
        fields: Fields::FiveSevenNine,
        words: 7,
        rows: 13,
        bounds: &[0, 0, 0, 15, 63, 511, 16, 64, 0, 31, 127, 255],
        first: 0,
        at: 0,
        before: [0x0000000000007001, 0, 0, 0],
        wanted: [0x0000000000007339, 0, 0, 0],
    },
    Case {
        fields: Fields::FiveSevenNine,
        words: 8,
        rows: 16,
        bounds: &[
            4, 0, 100, 30, 127, 500, 0, 0, 0, 3, 127, 511, 31, 0, 0, 31, 10, 511,
        ],
        first: 64,
        at: 0,
        before: [0, 0, 0, 0],
        wanted: [0, 0x000000000000ef7f, 0, 0],
    },
    Case {
        fields: Fields::FiveSevenNine,
        words: 9,
        rows: 18,
        bounds: &[0, 0, 0, 20, 100, 400],
        first: 128,
        at: 1,
        before: [0x8000000000000000, 0x00000000000e0001, 0, 0],
        wanted: [0x8000000000000000, 0x00000000000fd871, 0, 0],
    },
    Case {
        fields: Fields::Three,
        words: 9,
        rows: 72,
        bounds: &[6, 7],
        first: 64,
        at: 0,
        before: [0, 0, 0, 0],
        wanted: [0, 0x62280d80082118c0, 0x0000000000000030, 0],
    },
    Case {
        fields: Fields::Three,
        words: 9,
        rows: 66,
        bounds: &[0, 1, 7, 7],
        first: 64,
        at: 0,
        before: [
            0x8000000000000000,
            0x0000000000000001,
            0x000000000000010c,
            0x0000000000000001,
        ],
        wanted: [
            0x8000000000000000,
            0xa1aa0cb92156a683,
            0x000000000000010d,
            0x0000000000000001,
        ],
    },
];

// A page with these words from one on, the others zero.
fn page_of(at: usize, words: &[u64; 4]) -> PageBits {
    let mut page = PageBits::none();
    for index in 0..4usize {
        if at <= 12 {
            page.add_word(at + index, words[index]);
        }
    }
    page
}

// A word of a page.
fn word_at(page: &PageBits, at: usize) -> u64 {
    let mut word = 0;
    if at < 16 {
        for bit in 0..64usize {
            word |= u64::from(page.test(at * 64 + bit)) << bit;
        }
    }
    word
}

// Four words of a page, from one on, and how many places of the page are true.
fn told(page: &PageBits, at: usize) -> ([u64; 4], usize) {
    let mut words = [0; 4];
    for index in 0..4usize {
        words[index] = word_at(page, at.saturating_add(index));
    }
    (words, page.count())
}

// What the scan by lanes and the plain one make of a page; None where they may not be asked.
fn scanned(alloc: Global, case: &Case) -> Result<Option<(PageBits, PageBits)>, AllocError> {
    let (widths, codes) = fields_of(case.fields);
    let Some(shape) = Shape::new(widths) else {
        return Ok(None);
    };
    let rounds = rounds_of(alloc, shape, widths, case.bounds)?;
    let words = words_of(alloc, shape, widths, codes, case.words, case.rows)?;
    let (first, rows) = (case.first, case.rows);
    if rounds.len() == 0 || rounds.len() > 8 || rows > words.len().saturating_mul(shape.lanes()) {
        return Ok(None);
    }
    if first % 64 != 0 || first > 1024 || rows > 1024 - first {
        return Ok(None);
    }
    let mut lanes = page_of(case.at, &case.before);
    let mut plain = page_of(case.at, &case.before);
    scan(
        shape,
        rounds.as_slice(),
        words.as_slice(),
        first,
        rows,
        &mut lanes,
    );
    scan_plain(
        shape,
        rounds.as_slice(),
        words.as_slice(),
        first,
        rows,
        &mut plain,
    );
    Ok(Some((lanes, plain)))
}

// How many bits of some words are set.
fn ones(words: &[u64; 4]) -> usize {
    let mut count = 0usize;
    for word in words {
        count = count.saturating_add(word.count_ones() as usize);
    }
    count
}

#[test]
fn rows_in_rounds_are_true(rt: HostRuntime) -> Result<(), Fail> {
    for case in CASES {
        let pages = scanned(rt.alloc(), case)?;
        assert!(rt; pages.is_some());
        if let Some((lanes, plain)) = pages {
            let wanted = (case.wanted, ones(&case.wanted));
            assert_eq!(rt; told(&lanes, case.at), wanted);
            assert_eq!(rt; told(&plain, case.at), wanted);
        }
    }
    Ok(())
}

// Fields of these widths, the codes of the rows of a word, the word, the bounds, the guard bits within them and the top bits
// of the lanes that fail.
const WORKED: &[(&[u8], &[u32], u64, &[u32], &[u32], u64, u64)] = &[
    (
        &[3],
        &[0, 1, 2, 3, 4, 5, 6, 7],
        0x0706_0504_0302_0100,
        &[0],
        &[3],
        0x0000_0000_0808_0808,
        0x8080_8080_0000_0000,
    ),
    (
        &[3, 4],
        &[7, 0, 0, 15, 7, 15, 3, 8],
        0x0083_00F7_00F0_0007,
        &[0, 15],
        &[7, 15],
        0x0008_0108_0108_0008,
        0x8000_0000_0000_8000,
    ),
];

// A word of rows, its guard bits within bounds, and the top bits of the lanes that fail.
fn compared(
    alloc: Global,
    widths: &[u8],
    codes: &[u32],
    lows: &[u32],
    highs: &[u32],
) -> Result<(u64, u64, u64), AllocError> {
    let Some(shape) = Shape::new(widths) else {
        return Ok((0, 0, 0));
    };
    let words = words_of(alloc, shape, widths, codes, 1, 64)?;
    match (spread(shape, widths, lows), spread(shape, widths, highs)) {
        (Some(low), Some(high)) if words.len() == 1 => {
            let inside = shape.within(words[0], low, high);
            Ok((words[0], inside, shape.failing(inside)))
        }
        _ => Ok((0, 0, 0)),
    }
}

#[test]
fn words_are_compared(rt: HostRuntime) -> Result<(), Fail> {
    for (widths, codes, word, lows, highs, inside, failing) in WORKED {
        let found = compared(rt.alloc(), widths, codes, lows, highs)?;
        assert_eq!(rt; found, (*word, *inside, *failing));
    }
    Ok(())
}
