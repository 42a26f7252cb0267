ghost use Rattle.std.specs.Prelude.{◌≡◌, ◌∷◌, [], length, map, All, IfOk, OnOk};
ghost use Rattle.class_core.specs.Choices.{AreFirst};
ghost use Rattle.lens_core.specs.Lenses.{risen};
ghost use Rattle.lens_core.specs.Meanings.{KeepsMeaning};
ghost use Rattle.sig_core.specs.Signatures.{Declarations};
ghost use Rattle.size_core.specs.Lists.{IsAscending};
ghost use Rattle.term_core.specs.Banks.{IsLive, tree_of};
ghost use Rattle.term_core.specs.Typings.{IsTermOf};

use lens_core::Lens;
use std::alloc::{AllocError, Global};
use std::collections::BTreeSet;
use term_core::{Bank, Ids, TermId};

/// Takes the marks of the terms in turn, and keeps each term whose mark the set has not, with its mark in the set.
pub(crate) fn first_of_each<L: Lens>(
    alloc: Global,
    lens: &mut L,
    bank: &Bank,
    terms: &[TermId],
    marks: &mut BTreeSet<L::Mark>,
) -> Result<Ids, AllocError>
    requires live { All (IsLive bank.now) terms.now }
    requires ascending { IsAscending bank.now terms.now }
    requires terms { (sig : Declarations) × L.is_for lens.old sig × All (λ id. IsTermOf sig (tree_of bank.now id)) terms.now }
    requires fits { L.fits lens.old bank.now }
    ensures live { IfOk result (All (IsLive bank.now)) }
    ensures kept { IfOk result (λ kept. AreFirst (L.has_mark lens.old) (L.same_mark lens.old) L.Mark.cmp marks.old marks.new
        (map (tree_of bank.now) terms.now) (map (tree_of bank.now) kept)) }
    ensures looks { OnOk result (L.looked lens.new ≡ risen (L.looked lens.old) (length terms.now)) }
    ensures fits { OnOk result (L.fits lens.new bank.now) }
    ensures meaning { KeepsMeaning L.Lens lens.old lens.new }
{
    let mut kept = Ids::new(alloc);
    for id in terms {
        let mark = lens.mark(bank, *id)?;
        let is_new = marks.insert(mark)?;
        if is_new {
            kept.push(*id)?;
        }
    }
    Ok(kept)
}
