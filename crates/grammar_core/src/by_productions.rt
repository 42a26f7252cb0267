ghost use Rattle.std.specs.Prelude.{◌≡◌, ◌<◌, length, All};
ghost use lib.Pointwise.{pointwise};
ghost use Rattle.grammar_core.specs.Grammars.{IsKnown, is_member};
ghost use Rattle.grammar_core.specs.WellFormed.{AllKnown};
ghost use Rattle.term_core.specs.Banks.{IsLive, tree_of};
ghost use Rattle.term_core.specs.Terms.{kids_of};

use crate::ids::NtId;
use crate::production::Nonterminal;
use term_core::{Bank, TermId};

/// Whether the term is of the language of the nonterminal, tried production after production.
#[cycle(search)]
pub(crate) fn is_produced(grammar: &[Nonterminal], nt: NtId, bank: &Bank, id: TermId) -> bool
    requires known { AllKnown grammar.now grammar.now }
    requires nonterminal { IsKnown grammar.now nt }
    requires live { IsLive bank.now id }
    ensures { result ≡ is_member grammar.now (tree_of bank.now id) nt }
{
    let con = bank.con(id);
    for production in grammar[usize::from(nt.0)].productions.as_slice() {
        if production.con == con && are_produced(grammar, production.args.as_slice(), bank, id) {
            return true;
        }
    }
    false
}

/// Whether the term's children are, in order, of the languages of these nonterminals.
#[cycle(search)]
fn are_produced(grammar: &[Nonterminal], args: &[NtId], bank: &Bank, id: TermId) -> bool
    requires known { AllKnown grammar.now grammar.now }
    requires args { All (IsKnown grammar.now) args.now }
    requires live { IsLive bank.now id }
    ensures { result ≡ pointwise (is_member grammar.now) (kids_of (tree_of bank.now id)) args.now }
{
    let kids = bank.kids(id);
    if kids.len() != args.len() {
        return false;
    }
    for i in 0..kids.len() {
        if !is_produced(grammar, args[i], bank, kids[i]) {
            return false;
        }
    }
    true
}
