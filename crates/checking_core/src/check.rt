//! The check of an answer file.
ghost use Rattle.std.specs.Prelude.{◌≡◌, ◌<◌, ◌≤◌, ◌^◌, ℕ, List, length, All, IfOk};
ghost use Rattle.sexpr_core.specs.Feeds.{StandsFor};
ghost use Rattle.sexpr_core.specs.Sizes.{IsSmall};
ghost use Rattle.sexpr_core.specs.Spelling.{Spell};
ghost use Rattle.checking_core.specs.Checks.{Checks, checked_of};
ghost use Rattle.checking_core.specs.Reading.{CanEnd, IsReading};

use crate::file::{AnswerFile, ended};
use answer_core::{Answer, AnswerError, AnswerFault, Verdict, check, read_answer};
use deriv_core::BadStep;
use problem_core::Problem;
use sexpr_core::{Forest, Reader};
use std::alloc::{AllocError, Global};
use syntax_core::{Fault, refusal};

/// The greatest number of bytes of an answer file.
pub const ANSWER_LIMIT: usize = 8_388_608;

/// Why an answer file holds no answer to the problem: the first of these, in their order.
#[derive(Clone, Copy, Debug, PartialEq, Eq)]
pub enum Flaw {
    /// a node of its forms is bad
    Form(AnswerFault),
    /// the nodes aren't the distinct subterms of the term in the order of terms
    Nodes,
    /// the size isn't the term's
    Size,
    /// the term isn't in the language
    Grammar,
    /// a step isn't valid
    Step(BadStep),
    /// the step of the constraint with this number has another fact
    Constraint(u32),
}

/// What is found of the bytes of an answer file.
#[derive(Clone, Copy, Debug, PartialEq, Eq)]
pub enum Checked {
    Valid,
    Invalid(Flaw),
    /// it is too long, or no spelling
    Refused(Fault),
}

/// What is found of an answer file: its length comes first, then its lexical fault, then the first bad node of its forms,
/// and then the first test that the answer fails within the height.
pub fn check_answer(
    alloc: Global,
    problem: &Problem,
    file: AnswerFile,
    height: u32,
) -> Result<Checked, AllocError>
    requires { CanEnd file }
    ensures { IfOk result (λ checked. (bytes : List ℕ) → IsReading file bytes → Checks problem.now height bytes checked) }
{
    if file.count as usize > ANSWER_LIMIT {
        return Ok(Checked::Refused(too_long()));
    }
    let AnswerFile {
        reader,
        forms,
        count,
    } = file;
    check_short(alloc, problem, reader, forms, count, height)
}

/// What is found of an answer file that isn't too long.
fn check_short(
    alloc: Global,
    problem: &Problem,
    reader: Reader,
    forms: Forest,
    count: u32,
    height: u32,
) -> Result<Checked, AllocError>
    requires { (bytes : List ℕ) × StandsFor reader bytes forms × (length bytes < 2 ^ 32) }
    ensures { IfOk result (λ checked. (bytes : List ℕ) → StandsFor reader bytes forms → count ≡ length bytes → length bytes ≤ 8388608 → Checks problem.now height bytes checked) }
{
    match ended(reader, forms)? {
        Ok(forms) => check_forms(alloc, problem, &forms, count, height),
        Err(fault) => Ok(Checked::Refused(refusal(fault.place, fault.reason))),
    }
}

/// Why an answer file of too many bytes is refused.
fn too_long() -> Fault
    ensures { result ≡ record { place = 8388608; reason = 50; limit = 2 } }
{
    Fault {
        place: ANSWER_LIMIT as u32,
        reason: 50,
        limit: 2,
    }
}

/// What is found of the forms that a text of this length spells.
fn check_forms(
    alloc: Global,
    problem: &Problem,
    forms: &Forest,
    end: u32,
    height: u32,
) -> Result<Checked, AllocError>
    requires { All IsSmall forms.now }
    ensures { IfOk result (λ checked. (bytes : List ℕ) → length bytes ≤ 8388608 → end ≡ length bytes → Spell bytes forms.now → Checks problem.now height bytes checked) }
{
    match read_answer(alloc, problem, forms, end) {
        Ok(answer) => Ok(checked_of(check(problem, &answer, height))),
        Err(AnswerError::Fault(fault)) => Ok(Checked::Invalid(Flaw::Form(fault))),
        Err(AnswerError::Memory) => Err(AllocError),
    }
}

/// What a verdict says of the file.
fn checked_of(verdict: Verdict) -> Checked
    ensures { result ≡ checked_of verdict }
{
    match verdict {
        Verdict::Valid => Checked::Valid,
        Verdict::Nodes => Checked::Invalid(Flaw::Nodes),
        Verdict::Size => Checked::Invalid(Flaw::Size),
        Verdict::Grammar => Checked::Invalid(Flaw::Grammar),
        Verdict::Step(bad) => Checked::Invalid(Flaw::Step(bad)),
        Verdict::Constraint(number) => Checked::Invalid(Flaw::Constraint(number)),
    }
}
