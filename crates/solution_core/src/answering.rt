ghost use Rattle.std.specs.Prelude.{◌≡◌, ℕ, List, Some, None, IfOk, MatchOption, map};
ghost use Rattle.term_core.specs.Banks.{IsLive, tree_of};
ghost use Rattle.problem_core.specs.Problems.{IsAnswer};
ghost use Rattle.solution_core.specs.Answers.{IsAnswerText};
ghost use Rattle.solution_core.specs.Bounds.{IsHeight, IsSize};

use crate::derivation::derive_all;
use answer_core::print_answer;
use deriv_core::Steps;
use problem_core::Problem;
use sig_core::Bytes;
use solve_core::{Work, solve};
use std::alloc::{AllocError, Global};
use term_core::{Bank, TermId};

/// The text of the answer to a problem, or None where no term solves it.
pub fn answer(
    alloc: Global,
    problem: &Problem,
    height: u32,
    size: u32,
) -> Result<Option<Bytes>, AllocError>
    requires height { IsHeight height }
    requires size { IsSize size }
    ensures { IfOk result (λ o. MatchOption o (IsAnswer problem.now height size None) (λ text. IsAnswerText problem.now height size text)) }
{
    let mut work = Work::new(alloc);
    match solve(alloc, problem, height, size, &mut work)? {
        Some(root) => Ok(Some(found(alloc, problem, height, work.bank(), root)?)),
        None => Ok(None),
    }
}

/// The text of the term that is the answer.
fn found(
    alloc: Global,
    problem: &Problem,
    height: u32,
    bank: &Bank,
    root: TermId,
) -> Result<Bytes, AllocError>
    requires height { IsHeight height }
    requires live { IsLive bank.now root }
    requires answer { (size : ℕ) × IsAnswer problem.now height size (Some (tree_of bank.now root)) }
    ensures { IfOk result (λ text. (size : ℕ) → IsAnswer problem.now height size (Some (tree_of bank.now root)) → IsAnswerText problem.now height size text) }
{
    let mut steps = Steps::new(alloc);
    let derived = derive_all(alloc, problem, height, bank, root, &mut steps)?;
    let text = print_answer(
        alloc,
        problem.signature(),
        bank,
        root,
        &steps,
        derived.as_slice(),
    )?;
    Ok(text)
}
