ghost use Rattle.std.specs.Prelude.{All};
ghost use Rattle.grammar_core.specs.Grammars.{IsKnown};

use example_terms::{B, E};
use grammar_core::{Grammar, GrammarError, NtId};
use sig_core::{ConId, Signature};
use std::alloc::Global;
use std::process::Abort;

pub const PLUS: u16 = 4;

pub const NOT: u16 = 8;

/// Ends the test unless each nonterminal is one of the grammar.
fn all_known(rt: &impl Abort, grammar: &Grammar, args: &[NtId])
    ensures { All (IsKnown grammar.now) args.now }
{
    for arg in args {
        assert!(rt; arg.0 < grammar.len());
    }
}

/// Adds a production, once its parts are seen to be known.
pub fn produce(
    rt: &impl Abort,
    grammar: &mut Grammar,
    signature: &Signature,
    nt: u16,
    con: u16,
    args: &[NtId],
) -> Result<(), GrammarError> {
    assert!(rt; nt < grammar.len());
    assert!(rt; con < signature.constructors());
    all_known(rt, grammar, args);
    grammar.add_production(signature, NtId(nt), ConId(con), args)
}

/// A nonterminal of numbers and one of truths, without productions.
pub fn two(alloc: Global) -> Result<Grammar, GrammarError> {
    let mut grammar = Grammar::new(alloc);
    grammar.add_nonterminal(b"E", E)?;
    grammar.add_nonterminal(b"B", B)?;
    Ok(grammar)
}
