use example_terms::{Node, SUMS, interned, signature_of};
use sig_core::Signature;
use std::alloc::{AllocError, Global};
use std::cmp::Ordering;
use std::process::Abort;
use std::test::Fail;
use term_core::{Bank, TermId};

/// `$x`, `$y`, and `($+ $x $y)` twice.
const TWICE: [Node; 4] = [(0, &[]), (1, &[]), (4, &[0, 1]), (4, &[0, 1])];

/// How many terms these nodes are.
fn distinct(alloc: Global, signature: &Signature, nodes: &[Node]) -> Result<usize, AllocError> {
    let bank = interned(alloc, signature, nodes)?;
    Ok(bank.len())
}

#[test]
fn a_sum_interned_twice_stands_once(rt: HostRuntime) -> Result<(), Fail> {
    let signature = signature_of(rt.alloc(), &SUMS)?;
    assert_eq!(rt; distinct(rt.alloc(), &signature, &TWICE)?, 3);
    Ok(())
}

/// After the leaves `$x`, `$y`, `$1` and `$t`: `($+ $1 $1)`, `($ite $t $x $x)`, `($+ $x $y)`, `($+ $y $x)` and
/// `($< $x $y)`.
const ORDERED: [Node; 9] = [
    (0, &[]),
    (1, &[]),
    (3, &[]),
    (6, &[]),
    (4, &[2, 2]),
    (5, &[3, 0, 0]),
    (4, &[0, 1]),
    (4, &[1, 0]),
    (11, &[0, 1]),
];

/// Compares, once the ids are seen to be live.
fn order(rt: &impl Abort, bank: &Bank, a: usize, b: usize) -> Ordering {
    assert!(rt; a < bank.len());
    assert!(rt; b < bank.len());
    bank.compare(TermId(a), TermId(b))
}

/// Ends the test unless the terms have their order.
fn check_order(rt: &impl Abort, alloc: Global, signature: &Signature) -> Result<(), AllocError> {
    let bank = interned(alloc, signature, &ORDERED)?;
    for (before, after) in [(4, 5), (8, 5), (6, 7), (7, 8), (0, 4)] {
        assert!(rt; order(rt, &bank, before, after) == Ordering::Less);
        assert!(rt; order(rt, &bank, after, before) == Ordering::Greater);
    }
    Ok(())
}

#[test]
fn terms_are_ordered_by_size_and_then_by_their_parts(rt: HostRuntime) -> Result<(), Fail> {
    let signature = signature_of(rt.alloc(), &SUMS)?;
    check_order(&rt, rt.alloc(), &signature)?;
    Ok(())
}
