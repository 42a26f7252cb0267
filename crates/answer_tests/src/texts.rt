use answer_core::{AnswerError, AnswerFault, Verdict, check, read_answer};
use example_problems::{narrow_problem, problem};
use problem_core::Problem;
use spelling_tests::forms_of;
use std::alloc::{AllocError, Global};

/// What is said of an answer text.
#[derive(Clone, Copy, Debug, PartialEq, Eq)]
pub(crate) enum Said {
    Bad(AnswerFault),
    Judged(Verdict),
    Nothing,
}

fn judged(alloc: Global, problem: &Problem, text: &[u8], height: u32) -> Result<Said, AllocError> {
    if text.len() > 1000 {
        return Ok(Said::Nothing);
    }
    let Some(forms) = forms_of(alloc, text)? else {
        return Ok(Said::Nothing);
    };
    match read_answer(alloc, problem, &forms, text.len() as u32) {
        Ok(answer) => Ok(Said::Judged(check(problem, &answer, height))),
        Err(AnswerError::Fault(fault)) => Ok(Said::Bad(fault)),
        Err(AnswerError::Memory) => Err(AllocError),
    }
}

/// What is said of the text where the term is to give each of these values, by derivations up to this height.
pub(crate) fn said_of(
    alloc: Global,
    values: &[u8],
    text: &str,
    height: u32,
) -> Result<Said, AllocError> {
    match problem(alloc, values) {
        Some(problem) => judged(alloc, &problem, text.as_bytes(), height),
        None => Err(AllocError),
    }
}

/// What is said of the text where the first constant is wanted, and it is to give 1.
pub(crate) fn said_of_narrow(alloc: Global, text: &str) -> Result<Said, AllocError> {
    match narrow_problem(alloc) {
        Some(problem) => judged(alloc, &problem, text.as_bytes(), 1),
        None => Err(AllocError),
    }
}
