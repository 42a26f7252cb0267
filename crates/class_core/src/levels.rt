ghost use Rattle.std.specs.Prelude.{◌≡◌, ◌+◌, ◌≤◌, length, IfOk, OnOk};
ghost use Rattle.class_core.specs.Choices.{IsLeaderLevel, LooksAt, LooksAtAll, SameElsewhere};
ghost use Rattle.class_core.specs.Leaders.{IsLeader};
ghost use Rattle.class_core.specs.Looks.{LooksAtEach};
ghost use Rattle.class_core.specs.Sources.{ListsServe};
ghost use Rattle.class_core.specs.Standing.{AllKnow, KnowsAt, KnowsLeaders, LeadersStand};
ghost use Rattle.grammar_core.specs.Grammars.{IsKnown, Reaches, start};
ghost use Rattle.grammar_core.specs.Languages.{IsGrammarOf};
ghost use Rattle.lens_core.specs.Meanings.{KeepsMeaning};
ghost use Rattle.size_core.specs.Lists.{IsListOf};
ghost use Rattle.term_core.specs.Banks.{Keeps};

use crate::candidates::candidates_of;
use crate::choosing::first_of_each;
use grammar_core::{Grammar, NtId};
use lens_core::Lens;
use sig_core::Signature;
use size_core::Level;
use std::alloc::{AllocError, Global};
use std::collections::BTreeSet;
use term_core::{Bank, Ids};

/// The leaders of the nonterminal of this size. One mark is taken for each of its candidates.
fn leaders_of<L: Lens>(
    alloc: Global,
    signature: &Signature,
    grammar: &Grammar,
    bank: &mut Bank,
    lens: &mut L,
    marks: &mut BTreeSet<L::Mark>,
    leaders: &[Level],
    lists: &[Level],
    nt: NtId,
    size: u32,
) -> Result<Ids, AllocError>
    requires next { size ≡ length leaders.now + 1 }
    requires small { size ≤ 40 }
    requires signature { L.is_for lens.old signature.now }
    requires fits { IsGrammarOf signature.now grammar.now }
    requires bank { L.fits lens.old bank.old }
    requires leaders { LeadersStand grammar.now bank.old (L.same_mark lens.old) leaders.now }
    requires lists { ListsServe grammar.now bank.old (L.is_plain lens.old) lists.now (length leaders.now) }
    requires marks { KnowsLeaders grammar.now (L.has_mark lens.old) (L.same_mark lens.old) L.Mark.cmp nt (length leaders.now) marks.old }
    requires known { IsKnown grammar.now nt }
    requires reachable { Reaches grammar.now start nt }
    ensures kept { Keeps bank.old bank.new }
    ensures leaders { IfOk result (IsListOf bank.new (IsLeader grammar.now (L.same_mark lens.old) nt) size) }
    ensures marks { OnOk result (KnowsLeaders grammar.now (L.has_mark lens.old) (L.same_mark lens.old) L.Mark.cmp nt size marks.new) }
    ensures looks { OnOk result (LooksAtAll grammar.now (L.same_mark lens.old) (L.is_plain lens.old) nt size (L.looked lens.old) (L.looked lens.new)) }
    ensures bank { OnOk result (L.fits lens.new bank.new) }
    ensures meaning { KeepsMeaning L.Lens lens.old lens.new }
{
    let candidates = candidates_of(
        alloc, signature, grammar, bank, lens, leaders, lists, nt, size,
    )?;
    let kept = first_of_each(alloc, lens, bank, candidates.as_slice(), marks)?;
    Ok(kept)
}

/// The leaders of the nonterminal of this size where the start leads to it, and else none. The nonterminal's set of marks
/// is that of its number.
fn leaders_at<L: Lens>(
    alloc: Global,
    signature: &Signature,
    grammar: &Grammar,
    bank: &mut Bank,
    lens: &mut L,
    marks: &mut [BTreeSet<L::Mark>],
    leaders: &[Level],
    lists: &[Level],
    nt: NtId,
    size: u32,
) -> Result<Ids, AllocError>
    requires next { size ≡ length leaders.now + 1 }
    requires small { size ≤ 40 }
    requires signature { L.is_for lens.old signature.now }
    requires fits { IsGrammarOf signature.now grammar.now }
    requires bank { L.fits lens.old bank.old }
    requires leaders { LeadersStand grammar.now bank.old (L.same_mark lens.old) leaders.now }
    requires lists { ListsServe grammar.now bank.old (L.is_plain lens.old) lists.now (length leaders.now) }
    requires known { IsKnown grammar.now nt }
    requires sets { length marks.old ≡ length grammar.now }
    requires marks { KnowsAt grammar.now (L.has_mark lens.old) (L.same_mark lens.old) L.Mark.cmp nt (length leaders.now) marks.old }
    ensures kept { Keeps bank.old bank.new }
    ensures leaders { IfOk result (λ ids. Reaches grammar.now start nt → IsListOf bank.new (IsLeader grammar.now (L.same_mark lens.old) nt) size ids) }
    ensures marks { OnOk result (KnowsAt grammar.now (L.has_mark lens.old) (L.same_mark lens.old) L.Mark.cmp nt size marks.new) }
    ensures others { OnOk result (SameElsewhere nt marks.old marks.new) }
    ensures looks { OnOk result (LooksAt grammar.now (L.same_mark lens.old) (L.is_plain lens.old) nt size (L.looked lens.old) (L.looked lens.new)) }
    ensures bank { OnOk result (L.fits lens.new bank.new) }
    ensures meaning { KeepsMeaning L.Lens lens.old lens.new }
{
    if !grammar.reachable(nt) {
        return Ok(Ids::new(alloc));
    }
    let set = &mut marks[usize::from(nt.0)];
    let ids = leaders_of(
        alloc, signature, grammar, bank, lens, set, leaders, lists, nt, size,
    )?;
    Ok(ids)
}

/// The leaders of this size. One mark is taken for each candidate of a nonterminal that the start leads to.
pub(crate) fn level_of<L: Lens>(
    alloc: Global,
    signature: &Signature,
    grammar: &Grammar,
    bank: &mut Bank,
    lens: &mut L,
    marks: &mut [BTreeSet<L::Mark>],
    leaders: &[Level],
    lists: &[Level],
    size: u32,
) -> Result<Level, AllocError>
    requires next { size ≡ length leaders.now + 1 }
    requires small { size ≤ 40 }
    requires signature { L.is_for lens.old signature.now }
    requires fits { IsGrammarOf signature.now grammar.now }
    requires bank { L.fits lens.old bank.old }
    requires leaders { LeadersStand grammar.now bank.old (L.same_mark lens.old) leaders.now }
    requires lists { ListsServe grammar.now bank.old (L.is_plain lens.old) lists.now (length leaders.now) }
    requires sets { length marks.old ≡ length grammar.now }
    requires marks { AllKnow grammar.now (L.has_mark lens.old) (L.same_mark lens.old) L.Mark.cmp (length leaders.now) marks.old }
    ensures kept { Keeps bank.old bank.new }
    ensures level { IfOk result (IsLeaderLevel grammar.now bank.new (L.same_mark lens.old) size) }
    ensures sets { length marks.new ≡ length marks.old }
    ensures marks { OnOk result (AllKnow grammar.now (L.has_mark lens.old) (L.same_mark lens.old) L.Mark.cmp size marks.new) }
    ensures looks { OnOk result (LooksAtEach grammar.now (L.same_mark lens.old) (L.is_plain lens.old) size (L.looked lens.old) (L.looked lens.new)) }
    ensures bank { OnOk result (L.fits lens.new bank.new) }
    ensures meaning { KeepsMeaning L.Lens lens.old lens.new }
{
    let mut level = Level::new(alloc);
    for n in 0..grammar.len() {
        let ids = leaders_at(
            alloc,
            signature,
            grammar,
            bank,
            lens,
            marks,
            leaders,
            lists,
            NtId(n),
            size,
        )?;
        level.push(ids)?;
    }
    Ok(level)
}
