use crate::productions::{PLUS, produce, two};
use example_terms::{SUMS, signature_of};
use grammar_core::{Grammar, GrammarError, NtId};
use sig_core::Signature;
use std::alloc::Global;
use std::process::Abort;
use std::test::Fail;

/// Productions of two nonterminals, of numbers and of truths, that don't fit: of another type, with a child too few,
/// and with a child of another type.
const WRONG: [(u16, u16, &[NtId]); 3] = [
    (1, 0, &[]),
    (0, PLUS, &[NtId(0)]),
    (0, PLUS, &[NtId(0), NtId(1)]),
];

/// Ends the test unless each of the wrong productions is refused.
fn check_wrong(rt: &impl Abort, alloc: Global, signature: &Signature) -> Result<(), GrammarError> {
    let mut grammar = two(alloc)?;
    for (nt, con, args) in WRONG {
        let refused = produce(rt, &mut grammar, signature, nt, con, args);
        assert!(rt; refused == Err(GrammarError::WrongType));
    }
    Ok(())
}

#[test]
fn productions_of_wrong_types_are_refused(rt: HostRuntime) -> Result<(), Fail> {
    let signature = signature_of(rt.alloc(), &SUMS)?;
    check_wrong(&rt, rt.alloc(), &signature)?;
    Ok(())
}

/// Adds equal productions up to the limit.
fn fill(rt: &impl Abort, grammar: &mut Grammar, signature: &Signature) -> Result<(), GrammarError> {
    for _ in 0..4096 {
        produce(rt, grammar, signature, 0, 0, &[])?;
    }
    Ok(())
}

/// Ends the test unless a full grammar refuses a further production, and a wrong one for what it is.
fn check_full(rt: &impl Abort, alloc: Global, signature: &Signature) -> Result<(), GrammarError> {
    let mut grammar = two(alloc)?;
    fill(rt, &mut grammar, signature)?;
    let wrong = produce(rt, &mut grammar, signature, 1, 0, &[]);
    assert!(rt; wrong == Err(GrammarError::WrongType));
    let full = produce(rt, &mut grammar, signature, 0, 0, &[]);
    assert!(rt; full == Err(GrammarError::Limit(13)));
    Ok(())
}

#[test]
fn the_production_past_4096_is_refused(rt: HostRuntime) -> Result<(), Fail> {
    let signature = signature_of(rt.alloc(), &SUMS)?;
    check_full(&rt, rt.alloc(), &signature)?;
    Ok(())
}

/// How many productions the first nonterminal has after one was added twice.
fn count_of_equal(
    rt: &impl Abort,
    alloc: Global,
    signature: &Signature,
) -> Result<usize, GrammarError> {
    let mut grammar = two(alloc)?;
    produce(rt, &mut grammar, signature, 0, 0, &[])?;
    produce(rt, &mut grammar, signature, 0, 0, &[])?;
    assert!(rt; 0 < grammar.len());
    Ok(grammar.productions(NtId(0)).len())
}

#[test]
fn a_production_stands_as_often_as_it_was_added(rt: HostRuntime) -> Result<(), Fail> {
    let signature = signature_of(rt.alloc(), &SUMS)?;
    assert_eq!(rt; count_of_equal(&rt, rt.alloc(), &signature)?, 2);
    Ok(())
}
