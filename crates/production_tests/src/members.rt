use crate::productions::{NOT, produce, two};
use example_terms::{B, LEAF, SUMS, chain, interned, signature_of};
use grammar_core::{Grammar, GrammarError, NtId};
use sig_core::Signature;
use std::alloc::{AllocError, Global};
use std::process::Abort;
use std::test::Fail;
use term_core::{Bank, TermId};

const TRUE: u16 = 6;

const FALSE: u16 = 7;

/// Whether the term is of the first nonterminal.
fn is_member(rt: &impl Abort, grammar: &Grammar, bank: &Bank, id: usize) -> bool {
    assert!(rt; 0 < grammar.len());
    assert!(rt; id < bank.len());
    grammar.member(NtId(0), bank, TermId(id))
}

/// Whether a leaf is of the first nonterminal.
fn is_leaf_member(
    rt: &impl Abort,
    alloc: Global,
    signature: &Signature,
    grammar: &Grammar,
) -> Result<bool, AllocError> {
    let bank = interned(alloc, signature, &LEAF)?;
    Ok(is_member(rt, grammar, &bank, 0))
}

/// Ends the test unless a grammar without productions makes no leaf.
fn check_none(rt: &impl Abort, alloc: Global, signature: &Signature) -> Result<(), GrammarError> {
    let grammar = two(alloc)?;
    let is_leaf = is_leaf_member(rt, alloc, signature, &grammar)?;
    assert!(rt; !is_leaf);
    Ok(())
}

#[test]
fn a_nonterminal_without_productions_has_no_term(rt: HostRuntime) -> Result<(), Fail> {
    let signature = signature_of(rt.alloc(), &SUMS)?;
    check_none(&rt, rt.alloc(), &signature)?;
    Ok(())
}

/// The truths that `$not` makes from `$t`, with the production of `$not` twice.
fn negations(
    rt: &impl Abort,
    alloc: Global,
    signature: &Signature,
) -> Result<Grammar, GrammarError> {
    let mut grammar = Grammar::new(alloc);
    let b = grammar.add_nonterminal(b"B", B)?;
    produce(rt, &mut grammar, signature, b.0, NOT, &[b])?;
    produce(rt, &mut grammar, signature, b.0, NOT, &[b])?;
    produce(rt, &mut grammar, signature, b.0, TRUE, &[])?;
    Ok(grammar)
}

/// Whether 198 times `$not` over the leaf is of the first nonterminal.
fn is_chain_member(
    rt: &impl Abort,
    alloc: Global,
    signature: &Signature,
    grammar: &Grammar,
    leaf: u16,
) -> Result<bool, AllocError> {
    let bank = chain(alloc, signature, leaf, NOT, 198)?;
    Ok(is_member(rt, grammar, &bank, 198))
}

/// Ends the test unless the chain over `$t` alone is one of the negations.
fn check_chains(rt: &impl Abort, alloc: Global, signature: &Signature) -> Result<(), GrammarError> {
    let grammar = negations(rt, alloc, signature)?;
    let of_true = is_chain_member(rt, alloc, signature, &grammar, TRUE)?;
    let of_false = is_chain_member(rt, alloc, signature, &grammar, FALSE)?;
    assert!(rt; of_true && !of_false);
    Ok(())
}

#[test]
fn a_chain_under_equal_productions_is_tried_at_once(rt: HostRuntime) -> Result<(), Fail> {
    let signature = signature_of(rt.alloc(), &SUMS)?;
    check_chains(&rt, rt.alloc(), &signature)?;
    Ok(())
}
