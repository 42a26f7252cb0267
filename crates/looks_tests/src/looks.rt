use crate::searching::{Searched, search_of_text};
use example_files::{DBL_MIN, LEAST, LOOP, MANY, MAX2, PICK, SHIFT, SLOW, TINY, TWICE};
use std::alloc::{AllocError, Global};
use std::process::Abort;
use std::test::Fail;

/// A file, a height and a size, with the size of the answer and the number of looks.
type Case = (&'static str, u32, u32, Option<u32>, u64);

/// Whether each search finds a term of this size with so many looks.
fn check_looks(rt: &impl Abort, alloc: Global, cases: &[Case]) -> Result<(), AllocError> {
    for (text, height, size, wanted, looks) in cases {
        let wanted = Searched {
            size: *wanted,
            looks: *looks,
        };
        let found = search_of_text(rt, alloc, text, *height, *size)?;
        assert_eq!(rt; found, Some(wanted), "{text}");
    }
    Ok(())
}

/// Up to each size, the sum of the candidates of that size and of the smaller ones: 6, 2, 42, 52, 235, 280.
const OF_MAXIMA: [Case; 8] = [
    (MAX2, 3, 1, None, 6),
    (MAX2, 3, 2, None, 8),
    (MAX2, 3, 3, None, 50),
    (MAX2, 3, 4, None, 102),
    (MAX2, 3, 5, None, 337),
    (MAX2, 3, 6, Some(6), 617),
    (MAX2, 3, 7, Some(6), 617),
    (MAX2, 3, 40, Some(6), 617),
];

/// The candidates of the sizes 1 to 9 are 1, 1, 2, 4, 7, 8, 8, 8 and 4, and there are none of a greater size.
const OF_TRUTH_VALUES: [Case; 11] = [
    (MANY, 3, 1, None, 1),
    (MANY, 3, 2, None, 2),
    (MANY, 3, 3, None, 4),
    (MANY, 3, 4, None, 8),
    (MANY, 3, 5, None, 15),
    (MANY, 3, 6, None, 23),
    (MANY, 3, 7, None, 31),
    (MANY, 3, 8, None, 39),
    (MANY, 3, 9, None, 43),
    (MANY, 3, 10, None, 43),
    (MANY, 3, 40, None, 43),
];

/// Small searches: a size is grown whole before its first term is tried.
const OF_FEW: [Case; 11] = [
    (SHIFT, 2, 2, Some(2), 4),
    (SHIFT, 2, 1, None, 2),
    (SLOW, 2, 2, Some(2), 4),
    (SLOW, 3, 2, Some(2), 4),
    (SLOW, 3, 1, None, 2),
    (DBL_MIN, 4, 4, Some(2), 4),
    (LEAST, 1, 1, Some(1), 2),
    (LOOP, 4, 1, Some(1), 1),
    (TWICE, 1, 1, Some(1), 1),
    (TINY, 1, 1, Some(1), 1),
    (PICK, 2, 1, Some(1), 1),
];

#[test]
fn looks_of_maxima(rt: HostRuntime) -> Result<(), Fail> {
    check_looks(&rt, rt.alloc(), &OF_MAXIMA)?;
    Ok(())
}

#[test]
fn looks_of_truth_values(rt: HostRuntime) -> Result<(), Fail> {
    check_looks(&rt, rt.alloc(), &OF_TRUTH_VALUES)?;
    Ok(())
}

#[test]
fn looks_of_small_searches(rt: HostRuntime) -> Result<(), Fail> {
    check_looks(&rt, rt.alloc(), &OF_FEW)?;
    Ok(())
}
