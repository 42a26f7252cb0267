use crate::productions::{NOT, produce};
use example_terms::{B, SUMS, signature_of};
use grammar_core::{Grammar, GrammarError, NtId};
use sig_core::Signature;
use std::alloc::Global;
use std::process::Abort;
use std::test::Fail;

/// Four nonterminals of truths.
fn four(alloc: Global) -> Result<Grammar, GrammarError> {
    let mut grammar = Grammar::new(alloc);
    for name in [b"a", b"b", b"c", b"d"] {
        grammar.add_nonterminal(name, B)?;
    }
    Ok(grammar)
}

fn is_reachable(rt: &impl Abort, grammar: &Grammar, nt: u16) -> bool {
    assert!(rt; nt < grammar.len());
    grammar.reachable(NtId(nt))
}

/// Ends the test unless the start leads to those of the nonterminals that are marked, and to no other.
fn expect_reached(rt: &impl Abort, grammar: &Grammar, marked: &[(u16, bool)]) {
    for (nt, reached) in marked {
        assert!(rt; is_reachable(rt, grammar, *nt) == *reached);
    }
}

/// Of the four, three make a cycle and one stands apart: which of them leads to which.
const EDGES: [(u16, u16); 4] = [(1, 2), (2, 0), (3, 0), (0, 1)];

/// Ends the test unless the start leads round the cycle, and to nothing before.
fn check_cycle(rt: &impl Abort, alloc: Global, signature: &Signature) -> Result<(), GrammarError> {
    let mut grammar = four(alloc)?;
    assert!(rt; !is_reachable(rt, &grammar, 1));
    for (from, to) in EDGES {
        produce(rt, &mut grammar, signature, from, NOT, &[NtId(to)])?;
    }
    expect_reached(rt, &grammar, &[(0, true), (1, true), (2, true), (3, false)]);
    Ok(())
}

#[test]
fn the_start_leads_round_a_cycle(rt: HostRuntime) -> Result<(), Fail> {
    let signature = signature_of(rt.alloc(), &SUMS)?;
    check_cycle(&rt, rt.alloc(), &signature)?;
    Ok(())
}

/// Each of the four leads to the next: the last first.
const LATE: [(u16, u16); 3] = [(2, 3), (1, 2), (0, 1)];

/// Ends the test unless the last is reachable once the start leads on, and not before.
fn check_late(rt: &impl Abort, alloc: Global, signature: &Signature) -> Result<(), GrammarError> {
    let mut grammar = four(alloc)?;
    for (from, to) in LATE {
        assert!(rt; !is_reachable(rt, &grammar, 3));
        produce(rt, &mut grammar, signature, from, NOT, &[NtId(to)])?;
    }
    expect_reached(rt, &grammar, &[(0, true), (1, true), (2, true), (3, true)]);
    Ok(())
}

#[test]
fn what_the_start_leads_to_late_is_reachable(rt: HostRuntime) -> Result<(), Fail> {
    let signature = signature_of(rt.alloc(), &SUMS)?;
    check_late(&rt, rt.alloc(), &signature)?;
    Ok(())
}
