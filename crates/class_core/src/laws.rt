ghost use Rattle.class_core.specs.Leaders.{EachHasLeader, LeadersAmongCandidates, NoneWithoutLeader};
ghost use Rattle.class_core.specs.Looks.{LooksRise, NoLooks, OneLooks};
ghost use Rattle.class_core.specs.Standing.{ClassesStand};
ghost use Rattle.grammar_core.specs.Languages.{IsGrammarOf};
ghost use Rattle.grammar_core.specs.declared.production.Nonterminal.{Nonterminal};
ghost use Rattle.sig_core.specs.Signatures.{Declarations};
ghost use Rattle.std.specs.Prelude.{List};
ghost use Rattle.term_core.specs.Banks.{Keeps};
ghost use Rattle.term_core.specs.declared.tree.Tree.{Tree};

use crate::Classes;
use lens_core::Lens;

/// For each lens: the leaders of a nonterminal are exactly the candidates that no leader before them equals in mark, and
/// each term of the nonterminal has a leader with its mark that is not after it.
pub fn leader_laws<L: Lens>(_lens: &L)
    ensures among { (sig : Declarations) (grammar : List Nonterminal) → L.is_for _lens.now sig → IsGrammarOf sig grammar
        → LeadersAmongCandidates grammar (L.same_mark _lens.now) (L.is_plain _lens.now) }
    ensures none_without { (sig : Declarations) (grammar : List Nonterminal) → L.is_for _lens.now sig → IsGrammarOf sig grammar
        → NoneWithoutLeader grammar (L.same_mark _lens.now) }
    ensures each { (sig : Declarations) (grammar : List Nonterminal) → L.is_for _lens.now sig → IsGrammarOf sig grammar
        → EachHasLeader grammar (L.same_mark _lens.now) }
{}

/// There is one number of looks up to each size; it is 0 before the first size, and a size adds its candidates.
pub fn looks_laws<L: Lens>(_lens: &L)
    ensures one { (grammar : List Nonterminal) → OneLooks grammar (L.same_mark _lens.now) (L.is_plain _lens.now) }
    ensures none { (grammar : List Nonterminal) → NoLooks grammar (L.same_mark _lens.now) (L.is_plain _lens.now) }
    ensures rise { (grammar : List Nonterminal) → LooksRise grammar (L.same_mark _lens.now) (L.is_plain _lens.now) }
{}

/// Classes stand for a bank whatever is interned in it.
pub fn standing_law<L: Lens>(_classes: &Classes<L>)
    ensures { (grammar : List Nonterminal) (old new : List Tree) → Keeps old new
        → ClassesStand L.Lens L.Mark.cmp grammar old _classes.now → ClassesStand L.Lens L.Mark.cmp grammar new _classes.now }
{}
