ghost use Rattle.std.specs.Prelude.{◌≡◌};
ghost use Rattle.grammar_core.specs.Grammars.{IsKnown, is_member};
ghost use Rattle.grammar_core.specs.WellFormed.{AllKnown};
ghost use Rattle.term_core.specs.Banks.{IsLive, tree_of};

use crate::by_productions::is_produced;
use crate::by_sets::is_in_set;
use crate::ids::NtId;
use crate::production::Nonterminal;
use term_core::{Bank, TermId};

/// Whether the term is of the language of the nonterminal. The time is linear in the term's size where there are at most
/// 256 nonterminals, and can be exponential in its height where there are more.
pub(crate) fn is_member(grammar: &[Nonterminal], nt: NtId, bank: &Bank, id: TermId) -> bool
    requires known { AllKnown grammar.now grammar.now }
    requires nonterminal { IsKnown grammar.now nt }
    requires live { IsLive bank.now id }
    ensures { result ≡ is_member grammar.now (tree_of bank.now id) nt }
{
    if grammar.len() <= 256 {
        is_in_set(grammar, nt, bank, id)
    } else {
        is_produced(grammar, nt, bank, id)
    }
}
