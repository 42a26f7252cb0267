//! The reading of an answer.
ghost use Rattle.std.specs.Prelude.{length, All, IfOk};
ghost use Rattle.std.specs.Option.{ok_or};
ghost use Rattle.sexpr_core.specs.Sizes.{IsSmall};
ghost use Rattle.answer_core.specs.Answers.{HasLiveIds, tree_answer};
ghost use Rattle.answer_core.specs.Drafts.{IsSound, told_of};
ghost use Rattle.answer_core.specs.Outcomes.{Gives};
ghost use Rattle.answer_core.specs.Readings.{fault, nothing, reading, whole_answer};

use crate::answer::{Answer, AnswerError};
use crate::draft::Draft;
use crate::numbers::fault;
use problem_core::Problem;
use sexpr_core::Forest;
use std::alloc::Global;

/// The answer that the forms of a text of this length stand for, or the first bad node: the forms are judged in order,
/// in a form its shape first, then its names, then its numbers, and of these the leftmost bad node. Where a form is
/// missing, the end of the text is bad.
pub fn read_answer(
    alloc: Global,
    problem: &Problem,
    forms: &Forest,
    end: u32,
) -> Result<Answer, AnswerError>
    requires { All IsSmall forms.now }
    ensures due { Gives (reading problem.now.signature (length problem.now.constraints) end forms.now nothing) result tree_answer }
    ensures live { IfOk result HasLiveIds }
{
    let constraints = problem.constraints().len();
    let mut draft = Draft::new(alloc);
    for k in 0..forms.len() {
        let Some(form) = forms.get(k) else {
            break;
        };
        draft.read(problem.signature(), constraints, form)?;
    }
    finish(draft, constraints, end)
}

/// The answer, where its term, its size and a step for each constraint are there.
fn finish(draft: Draft, constraints: usize, end: u32) -> Result<Answer, AnswerError>
    requires { IsSound draft }
    ensures due { Gives (ok_or (whole_answer constraints (told_of draft)) (fault 1 end)) result tree_answer }
    ensures live { IfOk result HasLiveIds }
{
    let Draft {
        alloc: _,
        due: _,
        bank,
        root,
        size,
        nodes,
        steps,
        derived,
    } = draft;
    if derived.len() != constraints {
        return Err(fault(1, end));
    }
    let Some(root) = root else {
        return Err(fault(1, end));
    };
    let Some(size) = size else {
        return Err(fault(1, end));
    };
    Ok(Answer {
        bank,
        root,
        size,
        nodes,
        steps,
        derived,
    })
}
