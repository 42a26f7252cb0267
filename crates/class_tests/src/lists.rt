ghost use Rattle.std.specs.Prelude.{◌<◌, ◌≤◌};

use crate::growing::lists_to;
use crate::whole::whole;
use example_terms::{SUMS, signature_of};
use grammar_core::{Grammar, NtId};
use sig_core::{SigError, Signature};
use size_core::SizeLists;
use std::alloc::{AllocError, Global};
use std::process::Abort;
use term_core::Bank;

/// How many terms of both types have this size.
fn count_both(rt: &impl Abort, lists: &SizeLists, size: u32) -> usize
    requires { 1 ≤ size }
    ensures { result < 200_000 }
{
    let numbers = lists.list(NtId(0), size).len();
    let truths = lists.list(NtId(1), size).len();
    assert!(rt; numbers < 100_000);
    assert!(rt; truths < 100_000);
    numbers + truths
}

/// How many have a size below the end.
fn count(rt: &impl Abort, lists: &SizeLists, end: u32) -> usize {
    let mut total = 0usize;
    for size in 1..end {
        assert!(rt; total < 100_000);
        total += count_both(rt, lists, size);
    }
    total
}

/// The size to which the lists are grown, and the number of terms in them.
fn counted_over(
    rt: &impl Abort,
    alloc: Global,
    signature: &Signature,
    grammar: &Grammar,
) -> Result<(u32, usize), AllocError> {
    let mut bank = Bank::new(alloc);
    let lists = lists_to(alloc, signature, grammar, &mut bank, 6)?;
    Ok((lists.grown(), count(rt, &lists, 7)))
}

fn counted(rt: &impl Abort, alloc: Global) -> Result<(u32, usize), SigError> {
    let signature = signature_of(alloc, &SUMS)?;
    let grammar = whole(rt, alloc, &signature)?;
    let counted = counted_over(rt, alloc, &signature, &grammar)?;
    Ok(counted)
}

#[test]
fn sums_and_choices_up_to_size_6(rt: HostRuntime) {
    assert_eq!(rt; counted(&rt, rt.alloc()), Ok((6, 2784)));
}
