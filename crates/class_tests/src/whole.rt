ghost use Rattle.std.specs.Prelude.{IfOk};
ghost use Rattle.grammar_core.specs.Languages.{IsGrammarOf};

use example_terms::E;
use grammar_core::Grammar;
use sig_core::Signature;
use std::alloc::{AllocError, Global};
use std::process::Abort;

/// The grammar of all terms, of which the numbers stand first.
pub fn whole(rt: &impl Abort, alloc: Global, signature: &Signature) -> Result<Grammar, AllocError>
    ensures { IfOk result (IsGrammarOf signature.now) }
{
    assert!(rt; E.0 < signature.types());
    Grammar::all(alloc, signature, E)
}
