ghost use Rattle.std.specs.Prelude.{◌≡◌, ◌≤◌, ◌++◌, List, length, map, All};
ghost use Rattle.grammar_core.specs.Grammars.{IsKnown, is_member};
ghost use Rattle.grammar_core.specs.Sets.{AreSetsOf, IsSetOf, sets_of};
ghost use Rattle.grammar_core.specs.WellFormed.{AllKnown};
ghost use Rattle.term_core.specs.Banks.{IsLive, tree_of};
ghost use Rattle.term_core.specs.Terms.{node};
ghost use Rattle.term_core.specs.declared.tree.Tree.{Tree};

use crate::ids::NtId;
use crate::production::Nonterminal;
use crate::sets::{Set, Sets, has, produced};
use sig_core::ConId;
use term_core::{Bank, TermId};

/// Whether the term is of the language of the nonterminal, by the sets of its children's nonterminals.
pub(crate) fn is_in_set(grammar: &[Nonterminal], nt: NtId, bank: &Bank, id: TermId) -> bool
    requires few { length grammar.now ≤ 256 }
    requires known { AllKnown grammar.now grammar.now }
    requires nonterminal { IsKnown grammar.now nt }
    requires live { IsLive bank.now id }
    ensures { result ≡ is_member grammar.now (tree_of bank.now id) nt }
{
    has(&set_of(grammar, bank, id), nt)
}

/// The nonterminals that the term is of.
#[cycle(member)]
fn set_of(grammar: &[Nonterminal], bank: &Bank, id: TermId) -> Set
    requires few { length grammar.now ≤ 256 }
    requires known { AllKnown grammar.now grammar.now }
    requires live { IsLive bank.now id }
    ensures { IsSetOf grammar.now (tree_of bank.now id) result }
{
    set_over(grammar, bank, bank.con(id), bank.kids(id), &Sets::Nothing)
}

/// The nonterminals that a term of this constructor is of, whose first children are these and whose others have the sets.
#[cycle(member)]
fn set_over(grammar: &[Nonterminal], bank: &Bank, con: ConId, kids: &[TermId], sets: &Sets) -> Set
    requires few { length grammar.now ≤ 256 }
    requires known { AllKnown grammar.now grammar.now }
    requires live { All (IsLive bank.now) kids.now }
    ensures { (others : List Tree) → AreSetsOf grammar.now others (sets_of sets.now)
        → IsSetOf grammar.now (node con (map (tree_of bank.now) kids.now ++ others)) result }
{
    let [rest @ .., last] = kids else {
        return produced(grammar, con, &*sets);
    };
    let set = set_of(grammar, bank, *last);
    set_over(grammar, bank, con, rest, &Sets::More(set, &*sets))
}
