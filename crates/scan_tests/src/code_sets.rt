// Sets of codes, as ranges or as bits.
ghost use Rattle.std.specs.Prelude.{◌≡◌, IfOk, length};

use page_synopsis::{CodeBits, Ranges};
use std::alloc::{AllocError, Global};
use std::test::Fail;

// The bits of codes below a size.
fn bits_of(alloc: Global, size: u32, codes: &[u32]) -> Result<CodeBits, AllocError>
    ensures { IfOk result (λ bits. length bits ≡ size) }
{
    let mut bits = CodeBits::new(alloc, size)?;
    for code in codes {
        if *code < bits.size() {
            bits.set(*code);
        }
    }
    Ok(bits)
}

// The codes below a size that a set has, and how many ranges it has; 0 where it is kept as bits.
fn told(alloc: Global, size: u32, set: &Option<Ranges>) -> Result<(Vec<u32>, usize), AllocError> {
    let mut codes = Vec::new(alloc);
    let Some(set) = set else {
        return Ok((codes, 0));
    };
    for code in 0..size {
        if set.holds(code) {
            codes.push(code)?;
        }
    }
    match set {
        Ranges::Narrow(narrow) => Ok((codes, narrow.len())),
        Ranges::Wide(_) => Ok((codes, 0)),
    }
}

// A size, codes below it, and how many ranges their set has; 0 where it is kept as bits or is none.
const SETS: [(u32, &[u32], usize); 9] = [
    (1, &[], 0),
    (1, &[0], 1),
    (70, &[63, 64], 1),
    (70, &[62, 64, 69], 3),
    (128, &[0, 1, 63, 64, 127], 3),
    (20, &[0, 2, 4, 6, 8, 10, 12, 14], 8),
    (20, &[0, 2, 4, 6, 8, 10, 12, 14, 15], 8),
    (20, &[0, 2, 4, 6, 8, 10, 12, 14, 16], 0),
    (200, &[0, 2, 4, 6, 8, 10, 12, 14, 190, 199], 0),
];

#[test]
fn sets_have_their_codes(rt: HostRuntime) -> Result<(), Fail> {
    for (size, codes, ranges) in &SETS {
        let set = Ranges::of(bits_of(rt.alloc(), *size, codes)?);
        let (found, count) = told(rt.alloc(), *size, &set)?;
        assert_eq!(rt; (found.as_slice(), count), (*codes, *ranges));
    }
    Ok(())
}

// A size, the codes of two sets below it, and those that are in both.
const BOTH: [(u32, &[u32], &[u32], &[u32]); 5] = [
    (10, &[], &[1], &[]),
    (10, &[1, 2, 3], &[5, 6], &[]),
    (70, &[1, 2, 63, 64], &[2, 3, 63, 64, 69], &[2, 63, 64]),
    (
        20,
        &[0, 2, 4, 6, 8, 10, 12, 14, 16, 18],
        &[1, 2, 3, 16, 17, 18, 19],
        &[2, 16, 18],
    ),
    (
        20,
        &[0, 2, 4, 6, 8, 10, 12, 14, 16, 18],
        &[0, 2, 4, 6, 8, 10, 12, 14, 16, 19],
        &[0, 2, 4, 6, 8, 10, 12, 14, 16],
    ),
];

// The set of the codes that are in two sets of codes below a size.
fn common(
    alloc: Global,
    size: u32,
    left: &[u32],
    right: &[u32],
) -> Result<Option<Ranges>, AllocError> {
    let first = Ranges::of(bits_of(alloc, size, left)?);
    let second = Ranges::of(bits_of(alloc, size, right)?);
    match (first, second) {
        (Some(first), Some(second)) => first.both(alloc, &second, size),
        _ => Ok(None),
    }
}

#[test]
fn sets_meet(rt: HostRuntime) -> Result<(), Fail> {
    for (size, left, right, wanted) in &BOTH {
        let both = common(rt.alloc(), *size, left, right)?;
        let (found, _) = told(rt.alloc(), *size, &both)?;
        assert_eq!(rt; found.as_slice(), *wanted);
    }
    Ok(())
}
