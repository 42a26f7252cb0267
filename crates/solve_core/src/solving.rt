ghost use Rattle.std.specs.Prelude.{◌≡◌, ◌≤◌, IfOk, IfSome};
ghost use Rattle.term_core.specs.Banks.{IsLive};
ghost use Rattle.problem_core.specs.Problems.{IsAnswer};
ghost use Rattle.eval_core.specs.Alikeness.{AreAlike};
ghost use Rattle.eval_core.specs.Lenses.{hands_on};
ghost use Rattle.class_core.specs.Looks.{IsLooks};
ghost use Rattle.solve_core.specs.Searching.{last_size};
ghost use Rattle.solve_core.specs.Works.{no_work, term_found};

use crate::by_size::search;
use crate::work::Work;
use marks_core::HornMarks;
use problem_core::Problem;
use std::alloc::{AllocError, Global};
use term_core::TermId;

/// The problem's answer within the height and the size, in the bank of the work: the first term in the order of terms
/// that is of the grammar's start, of size at most `size`, and meets each constraint by a derivation of height at most
/// `height`. None exactly where there is no such term. After want of memory the work can only be dropped.
pub fn solve(
    alloc: Global,
    problem: &Problem,
    height: u32,
    size: u32,
    work: &mut Work,
) -> Result<Option<TermId>, AllocError>
    requires new { work.old ≡ no_work }
    requires positive { 1 ≤ height }
    requires low { height ≤ 1000 }
    requires some { 1 ≤ size }
    requires small { size ≤ 40 }
    ensures live { IfOk result (λ found. IfSome found (IsLive work.new.bank)) }
    ensures answer { IfOk result (λ found. IsAnswer problem.now height size (term_found work.new.bank found)) }

    // One look for each candidate, made of leaders by alikeness at the places that hand on, of each size up to that of
    // the answer, or up to the bound.
    ensures looks { IfOk result (λ found. IsLooks problem.now.grammar (AreAlike problem.now height) (hands_on problem.now)
        (last_size size (term_found work.new.bank found)) work.new.looks) }
{
    let marks = HornMarks::new(alloc, problem, height)?;
    let found = search(alloc, problem, marks, height, size, work)?;
    Ok(found)
}
