use example_terms::{B, E, Node, SUMS, interned, signature_of};
use grammar_core::{Grammar, NtId};
use sig_core::Signature;
use std::alloc::{AllocError, Global};
use std::process::Abort;
use std::test::Fail;
use term_core::{Bank, TermId};

/// The distinct nodes of `($ite ($< $x $y) $y $x)`.
const GREATER: [Node; 4] = [(0, &[]), (1, &[]), (11, &[0, 1]), (5, &[2, 1, 0])];

fn whole(rt: &impl Abort, alloc: Global, signature: &Signature) -> Result<Grammar, AllocError> {
    assert!(rt; E.0 < signature.types());
    Grammar::all(alloc, signature, E)
}

fn is_member(rt: &impl Abort, grammar: &Grammar, nt: u16, bank: &Bank, id: usize) -> bool {
    assert!(rt; nt < grammar.len());
    assert!(rt; id < bank.len());
    grammar.member(NtId(nt), bank, TermId(id))
}

/// Ends the test unless the choice is a number, and its condition a truth.
fn check_greater(
    rt: &impl Abort,
    alloc: Global,
    signature: &Signature,
    grammar: &Grammar,
) -> Result<(), AllocError> {
    let bank = interned(alloc, signature, &GREATER)?;
    assert!(rt; is_member(rt, grammar, 0, &bank, 3));
    assert!(rt; !is_member(rt, grammar, 1, &bank, 3));
    assert!(rt; is_member(rt, grammar, 1, &bank, 2));
    Ok(())
}

/// The same over the whole grammar.
fn check_members(rt: &impl Abort, alloc: Global, signature: &Signature) -> Result<(), AllocError> {
    let grammar = whole(rt, alloc, signature)?;
    check_greater(rt, alloc, signature, &grammar)
}

#[test]
fn the_greater_of_two_is_a_number(rt: HostRuntime) -> Result<(), Fail> {
    let signature = signature_of(rt.alloc(), &SUMS)?;
    check_members(&rt, rt.alloc(), &signature)?;
    Ok(())
}

fn count(rt: &impl Abort, grammar: &Grammar, nt: u16) -> usize {
    assert!(rt; nt < grammar.len());
    grammar.productions(NtId(nt)).len()
}

/// Ends the test unless the whole grammar has a nonterminal for each type.
fn check_whole(rt: &impl Abort, alloc: Global, signature: &Signature) -> Result<(), AllocError> {
    let grammar = whole(rt, alloc, signature)?;
    assert!(rt; 1 < grammar.len());
    assert!(rt; grammar.name(NtId(1)).as_slice() == b"B".as_slice());
    assert!(rt; grammar.owner(NtId(1)) == B);
    assert_eq!(rt; count(rt, &grammar, 0), 6);
    assert_eq!(rt; count(rt, &grammar, 1), 6);
    Ok(())
}

#[test]
fn the_whole_grammar_has_a_nonterminal_for_each_type(rt: HostRuntime) -> Result<(), Fail> {
    let signature = signature_of(rt.alloc(), &SUMS)?;
    check_whole(&rt, rt.alloc(), &signature)?;
    Ok(())
}
