ghost use Rattle.std.specs.Prelude.{◌≡◌, ◌+◌, ◌<◌, ◌≤◌, List, length, All, OnOk};
ghost use Rattle.std.specs.BTreeSet.{IsEmpty};
ghost use Rattle.class_core.specs.Leaders.{IsLeader};
ghost use Rattle.class_core.specs.Looks.{LooksAtEach};
ghost use Rattle.class_core.specs.Standing.{ClassesStand, HasOtherPlace, ListsStand, grown_of, leaders_of, lens_of};
ghost use Rattle.grammar_core.specs.Grammars.{Reaches, start};
ghost use Rattle.grammar_core.specs.Languages.{IsGrammarOf};
ghost use Rattle.grammar_core.specs.declared.production.Nonterminal.{Nonterminal};
ghost use Rattle.lens_core.specs.Meanings.{KeepsMeaning};
ghost use Rattle.size_core.specs.Lists.{IsListOf, StandFor, list_at};
ghost use Rattle.term_core.specs.Banks.{Keeps};
ghost use Rattle.term_core.specs.declared.tree.Tree.{Tree};

use crate::levels::level_of;
use crate::places::has_other_place;
use grammar_core::{Grammar, NtId};
use items::Items;
use lens_core::Lens;
use sig_core::Signature;
use size_core::{Level, SizeLists, ids_at};
use std::alloc::{AllocError, Global};
use std::collections::BTreeSet;
use term_core::{Bank, TermId};

/// The leaders of each nonterminal that the start leads to, by size, as far as they were grown: the terms that no earlier
/// one of their nonterminal equals in mark.
#[derive(Drop)]
pub struct Classes<L: Lens> {
    alloc: Global,
    lens: L,
    leaders: Items<Level>,
    marks: Vec<BTreeSet<L::Mark>>,
}

/// Makes an empty set for each nonterminal, where there are no sets yet.
fn make_sets<K: Ord + Drop>(
    alloc: Global,
    sets: &mut Vec<BTreeSet<K>>,
    count: usize,
) -> Result<(), AllocError>
    ensures made { OnOk result (length sets.old.items ≡ 0 → (length sets.new.items ≡ count) × All IsEmpty sets.new.items) }
    ensures kept { OnOk result (0 < length sets.old.items → sets.new.items ≡ sets.old.items) }
{
    if sets.is_empty() {
        for _place in 0..count {
            sets.push(BTreeSet::new(alloc))?;
        }
    }
    Ok(())
}

/// Grows the lists where some place is not plain.
fn grow_lists<L: Lens>(
    lens: &L,
    signature: &Signature,
    grammar: &Grammar,
    bank: &mut Bank,
    lists: &mut SizeLists,
    size: u32,
) -> Result<(), AllocError>
    requires small { size ≤ 40 }
    requires signature { L.is_for lens.now signature.now }
    requires fits { IsGrammarOf signature.now grammar.now }
    requires lists { HasOtherPlace grammar.now (L.is_plain lens.now) → StandFor grammar.now bank.old lists.old × (length lists.old + 1 ≡ size) }
    ensures kept { Keeps bank.old bank.new }
    ensures lists { OnOk result (ListsStand grammar.now bank.new (L.is_plain lens.now) lists.new size) }
    ensures left { (HasOtherPlace grammar.now (L.is_plain lens.now) → ⊥) → lists.new ≡ lists.old }
{
    if has_other_place(lens, signature, grammar) {
        lists.grow(signature, grammar, bank, size)?;
    }
    Ok(())
}

impl<L: Lens> Classes<L> {
    /// No size is grown.
    pub fn new(alloc: Global, lens: L) -> Classes<L>
        ensures lens { lens_of result ≡ lens }
        ensures none { grown_of result ≡ 0 }
        ensures stands { (grammar : List Nonterminal) (bank : List Tree) → ClassesStand L.Lens L.Mark.cmp grammar bank result }
    {
        Classes {
            alloc,
            lens,
            leaders: Items::new(alloc),
            marks: Vec::new(alloc),
        }
    }

    /// Finds the leaders of the next size. One mark is taken for each candidate of a nonterminal that the start leads to.
    /// Where some production of such a nonterminal has a place that is not plain, the lists are grown to this size before,
    /// and else they stay. After want of memory the classes and the lists can only be dropped.
    pub fn grow(
        &mut self,
        signature: &Signature,
        grammar: &Grammar,
        bank: &mut Bank,
        lists: &mut SizeLists,
        size: u32,
    ) -> Result<(), AllocError>
        requires next { size ≡ grown_of self.old + 1 }
        requires small { size ≤ 40 }
        requires signature { L.is_for (lens_of self.old) signature.now }
        requires fits { IsGrammarOf signature.now grammar.now }
        requires bank { L.fits (lens_of self.old) bank.old }
        requires stands { ClassesStand L.Lens L.Mark.cmp grammar.now bank.old self.old }
        requires lists { ListsStand grammar.now bank.old (L.is_plain (lens_of self.old)) lists.old (grown_of self.old) }
        ensures grown { OnOk result (grown_of self.new ≡ size) }
        ensures signature { OnOk result (L.is_for (lens_of self.new) signature.now) }
        ensures bank { OnOk result (L.fits (lens_of self.new) bank.new) }
        ensures stands { OnOk result (ClassesStand L.Lens L.Mark.cmp grammar.now bank.new self.new) }
        ensures looks { OnOk result (LooksAtEach grammar.now (L.same_mark (lens_of self.old)) (L.is_plain (lens_of self.old)) size
            (L.looked (lens_of self.old)) (L.looked (lens_of self.new))) }

        // The lists grow exactly where some place is not plain.
        ensures lists { OnOk result (ListsStand grammar.now bank.new (L.is_plain (lens_of self.new)) lists.new (grown_of self.new)) }
        ensures left { (HasOtherPlace grammar.now (L.is_plain (lens_of self.old)) → ⊥) → lists.new ≡ lists.old }

        ensures kept { Keeps bank.old bank.new }
        ensures meaning { KeepsMeaning L.Lens (lens_of self.old) (lens_of self.new) }
    {
        grow_lists(&self.lens, signature, grammar, bank, lists, size)?;
        make_sets(self.alloc, &mut self.marks, usize::from(grammar.len()))?;
        let level = level_of(
            self.alloc,
            signature,
            grammar,
            bank,
            &mut self.lens,
            self.marks.as_mut_slice(),
            self.leaders.as_slice(),
            lists.levels(),
            size,
        )?;
        self.leaders.push(level)?;
        Ok(())
    }

    pub fn lens(&self) -> &L
        ensures { result.now ≡ lens_of self.now }
    {
        &self.lens
    }

    /// The leaders of the nonterminal of this size, in the order of terms. None stand where the size isn't grown yet.
    pub fn leaders(&self, nt: NtId, size: u32) -> &[TermId]
        requires { 1 ≤ size }
        ensures value { result.now ≡ list_at (leaders_of self.now) nt size }
        ensures exact { (grammar : List Nonterminal) (bank : List Tree) → ClassesStand L.Lens L.Mark.cmp grammar bank self.now
            → Reaches grammar start nt → size ≤ grown_of self.now
            → IsListOf bank (IsLeader grammar (L.same_mark (lens_of self.now)) nt) size result.now }
    {
        ids_at(self.leaders.as_slice(), nt, size)
    }
}
