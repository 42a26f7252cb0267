ghost use Rattle.std.specs.Prelude.{◌≡◌, ◌+◌, ◌≤◌, [], IfOk, IfSome, OnOk};
ghost use Rattle.term_core.specs.Banks.{IsLive};
ghost use Rattle.lens_core.specs.Meanings.{KeepsMeaning};
ghost use Rattle.problem_core.specs.Problems.{IsAnswer};
ghost use Rattle.class_core.specs.Looks.{IsLooks, LooksAtEach};
ghost use Rattle.class_core.specs.Standing.{grown_of, lens_of};
ghost use Rattle.solve_core.specs.Verifying.{VerifiesIn};
ghost use Rattle.solve_core.specs.Pruning.{IsFit, IsLeadingAnswer, SolvesAlike};
ghost use Rattle.solve_core.specs.Searching.{AreGrown, IsFoundOfSize, last_size};
ghost use Rattle.solve_core.specs.Works.{no_work, term_found};

use crate::verifier::Verifier;
use crate::work::Work;
use class_core::Classes;
use grammar_core::NtId;
use lens_core::Lens;
use problem_core::Problem;
use size_core::SizeLists;
use std::alloc::{AllocError, Global};
use term_core::{Bank, TermId};

/// The first solution among the leaders of the start that the lens tells apart, of size at most `size`, and none exactly
/// where none of them is one. Where terms with equal marks solve alike, as is to be shown of fit problems alone, it is the
/// problem's answer. After want of memory the work can only be dropped.
pub fn search<L: Lens + Drop>(
    alloc: Global,
    problem: &Problem,
    lens: L,
    height: u32,
    size: u32,
    work: &mut Work,
) -> Result<Option<TermId>, AllocError>
    requires new { work.old ≡ no_work }
    requires positive { 1 ≤ height }
    requires low { height ≤ 1000 }
    requires small { size ≤ 40 }
    requires signature { L.is_for lens problem.now.signature }
    requires fits { L.fits lens [] }
    requires unused { L.looked lens ≡ 0 }
    ensures live { IfOk result (λ found. IfSome found (IsLive work.new.bank)) }
    ensures leading { IfOk result (λ found.
        IsLeadingAnswer problem.now height size (L.same_mark lens) (term_found work.new.bank found)) }
    ensures answer { (IsFit problem.now → SolvesAlike problem.now height (L.same_mark lens))
        → IfOk result (λ found. IsAnswer problem.now height size (term_found work.new.bank found)) }

    // One look for each candidate of each size up to the one that is found, or up to the bound.
    ensures looks { IfOk result (λ found. IsLooks problem.now.grammar (L.same_mark lens) (L.is_plain lens)
        (last_size size (term_found work.new.bank found)) work.new.looks) }
{
    let mut verifier = Verifier::new(alloc, problem, height)?;
    let mut classes = Classes::new(alloc, lens);
    let found = find(
        alloc,
        problem,
        &mut verifier,
        &mut classes,
        &mut work.bank,
        size,
    )?;
    work.looks = classes.lens().looks();
    Ok(found)
}

/// Grows the classes size by size, up to the first that has a leader of the start which solves.
fn find<L: Lens>(
    alloc: Global,
    problem: &Problem,
    verifier: &mut Verifier<'_>,
    classes: &mut Classes<L>,
    bank: &mut Bank,
    size: u32,
) -> Result<Option<TermId>, AllocError>
    requires small { size ≤ 40 }
    requires none { grown_of classes.old ≡ 0 }
    requires grown { AreGrown L.Lens L.Mark.cmp problem.now bank.old classes.old [] }
    requires verifies { VerifiesIn verifier.old problem.now verifier.old.height bank.old }
    requires unused { L.looked (lens_of classes.old) ≡ 0 }
    ensures live { IfOk result (λ found. IfSome found (IsLive bank.new)) }
    ensures leading { IfOk result (λ found.
        IsLeadingAnswer problem.now verifier.old.height size (L.same_mark (lens_of classes.old)) (term_found bank.new found)) }
    ensures looks { IfOk result (λ found.
        IsLooks problem.now.grammar (L.same_mark (lens_of classes.old)) (L.is_plain (lens_of classes.old))
        (last_size size (term_found bank.new found)) (L.looked (lens_of classes.new))) }
{
    let mut lists = SizeLists::new(alloc);
    for k in 1..size + 1 {
        let found = search_size(problem, verifier, classes, &mut lists, bank, k)?;
        if found.is_some() {
            return Ok(found);
        }
    }
    Ok(None)
}

/// The first leader of the start of this size that solves. The whole size is grown before the first is tried.
fn search_size<L: Lens>(
    problem: &Problem,
    verifier: &mut Verifier<'_>,
    classes: &mut Classes<L>,
    lists: &mut SizeLists,
    bank: &mut Bank,
    size: u32,
) -> Result<Option<TermId>, AllocError>
    requires next { size ≡ grown_of classes.old + 1 }
    requires small { size ≤ 40 }
    requires grown { AreGrown L.Lens L.Mark.cmp problem.now bank.old classes.old lists.old }
    requires verifies { VerifiesIn verifier.old problem.now verifier.old.height bank.old }
    ensures found { IfOk result
        (IsFoundOfSize problem.now verifier.old.height (L.same_mark (lens_of classes.new)) size bank.new) }
    ensures size { OnOk result (grown_of classes.new ≡ size) }
    ensures grown { OnOk result (AreGrown L.Lens L.Mark.cmp problem.now bank.new classes.new lists.new) }
    ensures verifies { OnOk result (VerifiesIn verifier.new problem.now verifier.old.height bank.new) }
    ensures looks { OnOk result (LooksAtEach problem.now.grammar (L.same_mark (lens_of classes.old))
        (L.is_plain (lens_of classes.old)) size (L.looked (lens_of classes.old)) (L.looked (lens_of classes.new))) }
    ensures meaning { KeepsMeaning L.Lens (lens_of classes.old) (lens_of classes.new) }
{
    classes.grow(problem.signature(), problem.grammar(), bank, lists, size)?;
    let found = verifier.first_of(bank, classes.leaders(NtId(0), size))?;
    Ok(found)
}
