ghost use Rattle.std.specs.Prelude.{◌≡◌, ◌<◌, ◌↔◌, true, false, length, All, IsTrue, MatchBool};
ghost use Rattle.class_core.specs.Sources.{ArePlain, HasOther, HasPlaces, SomeHasOther};
ghost use Rattle.class_core.specs.Standing.{HasOtherPlace};
ghost use Rattle.grammar_core.specs.Grammars.{IsKnown, productions_of};
ghost use Rattle.grammar_core.specs.Languages.{IsGrammarOf};
ghost use Rattle.sig_core.specs.Signatures.{Declarations};

use grammar_core::{Grammar, NtId, Production};
use lens_core::Lens;
use sig_core::Signature;

/// Whether a place of the production is not plain.
fn has_other<L: Lens>(lens: &L, production: &Production) -> bool
    requires { (sig : Declarations) × L.is_for lens.now sig × HasPlaces sig production.now }
    ensures { MatchBool result (HasOther (L.is_plain lens.now) production.now) (ArePlain (L.is_plain lens.now) production.now) }
{
    for i in 0..production.args.len() {
        if !lens.plain(production.con, i) {
            return true;
        }
    }
    false
}

/// Whether a place of one of the productions is not plain.
fn some_has_other<L: Lens>(lens: &L, productions: &[Production]) -> bool
    requires { (sig : Declarations) × L.is_for lens.now sig × All (HasPlaces sig) productions.now }
    ensures { MatchBool result (SomeHasOther (L.is_plain lens.now) productions.now) (All (ArePlain (L.is_plain lens.now)) productions.now) }
{
    for production in productions {
        if has_other(lens, production) {
            return true;
        }
    }
    false
}

/// Whether some production of a nonterminal that the start leads to has a place that is not plain.
pub(crate) fn has_other_place<L: Lens>(lens: &L, signature: &Signature, grammar: &Grammar) -> bool
    requires signature { L.is_for lens.now signature.now }
    requires fits { IsGrammarOf signature.now grammar.now }
    ensures { MatchBool result (HasOtherPlace grammar.now (L.is_plain lens.now)) (HasOtherPlace grammar.now (L.is_plain lens.now) → ⊥) }
{
    for n in 0..grammar.len() {
        if grammar.reachable(NtId(n)) && some_has_other(lens, grammar.productions(NtId(n))) {
            return true;
        }
    }
    false
}
