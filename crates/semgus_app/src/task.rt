ghost use Rattle.std.specs.Prelude.{◌≡◌, ◌+◌, ◌≤◌, ℕ, List, Ok, IfOk};
ghost use Rattle.std.specs.Option.{ForSome};
ghost use Rattle.checking_core.specs.Reading.{CanEnd, IsReading};
ghost use Rattle.solution_core.specs.Bounds.{IsHeight, IsSize};
ghost use Rattle.semgus_app.specs.Commands.{task_of};
ghost use Rattle.semgus_app.specs.Dues.{IsDue};
ghost use Rattle.semgus_app.specs.Files.{Inputs, AreRead};
ghost use Rattle.semgus_app.specs.Outputs.{IsOutput};
ghost use Rattle.elab_core.specs.Feeding.{HasRoom, IsJudging};
ghost use Rattle.elab_core.specs.Judging.{Judges};
ghost use Rattle.semgus_app.specs.Tasks.{HasBounds, most_of, most_taken, problem_file, second_file, solve, show, check};

use crate::command::Command;
use crate::contents::Contents;
use crate::due::Due;
use crate::judge::{FILE_LIMIT, judgement};
use crate::lines::{cannot_open, invalid, read_fault, refusal};
use crate::read::read_file;
use crate::status::{Status, Which};
use checking_core::{ANSWER_LIMIT, AnswerFile, Checked, check_answer};
use elab_core::Judge;
use problem_core::Problem;
use semgus_io::Files;
use solution_core::answer;
use std::alloc::{AllocError, Global};

/// What a command comes to.
pub fn output_of<F: Files>(
    alloc: Global,
    command: &Command<'_>,
    files: &mut F,
) -> Result<Due, AllocError>
    requires { HasBounds (task_of command.now) }
    ensures output { IfOk result (λ d. IsOutput (F.held files.old) (F.steady files.old)
        (F.open_faults files.old) (F.open_faults files.new) (F.read_faults files.old) (F.read_faults files.new)
        (task_of command.now) d.status d.text) }
    ensures taken { F.taken files.new ≤ F.taken files.old + most_taken (task_of command.now) }
    ensures held { F.held files.new ≡ F.held files.old }
    ensures steady { F.steady files.new ≡ F.steady files.old }
{
    let file = command.file();
    match read_file(file, FILE_LIMIT, files, Judge::new(alloc))? {
        Contents::Read(judge) => Ok(output_after(alloc, command, judge, files)?),
        Contents::Closed => Ok(cannot_open(alloc, file)?),
        Contents::Failed => Ok(read_fault(alloc)?),
    }
}

/// What a command comes to after the bytes of its problem file were fed to the judge.
fn output_after<F: Files>(
    alloc: Global,
    command: &Command<'_>,
    judge: Judge,
    files: &mut F,
) -> Result<Due, AllocError>
    requires bounds { HasBounds (task_of command.now) }
    requires room { HasRoom judge 0 }
    ensures output { IfOk result (λ d. (bytes : List ℕ) → IsJudging judge bytes → ForSome (problem_file (task_of command.now)) (λ file. AreRead (F.held files.old) file bytes) →
        IsOutput (F.held files.old) (F.steady files.old)
        (F.open_faults files.old) (F.open_faults files.new) (F.read_faults files.old) (F.read_faults files.new)
        (task_of command.now) d.status d.text) }
    ensures taken { F.taken files.new ≤ F.taken files.old + most_of (second_file (task_of command.now)) }
    ensures held { F.held files.new ≡ F.held files.old }
    ensures steady { F.steady files.new ≡ F.steady files.old }
{
    match judgement(judge)? {
        Ok(problem) => Ok(output_for(alloc, command, &problem, files)?),
        Err(fault) => Ok(refusal(alloc, Which::Problem, fault)?),
    }
}

/// What a command comes to after its problem was accepted.
fn output_for<F: Files>(
    alloc: Global,
    command: &Command<'_>,
    problem: &Problem,
    files: &mut F,
) -> Result<Due, AllocError>
    requires { HasBounds (task_of command.now) }
    ensures output { IfOk result (λ d. (first : List ℕ) → Judges first (Ok problem.now) →
        ForSome (problem_file (task_of command.now)) (λ file. AreRead (F.held files.old) file first) →
        IsOutput (F.held files.old) (F.steady files.old)
        (F.open_faults files.old) (F.open_faults files.new) (F.read_faults files.old) (F.read_faults files.new)
        (task_of command.now) d.status d.text) }
    ensures taken { F.taken files.new ≤ F.taken files.old + most_of (second_file (task_of command.now)) }
    ensures held { F.held files.new ≡ F.held files.old }
    ensures steady { F.steady files.new ≡ F.steady files.old }
{
    match command {
        Command::Solve(_, height, size) => Ok(solved(alloc, problem, *height, *size)?),
        Command::Show(_) => Ok(shown(alloc, problem)?),
        Command::Check(_, answer, height) => Ok(checked(alloc, problem, answer, *height, files)?),
    }
}

/// What is due for `solve`.
fn solved(alloc: Global, problem: &Problem, height: u32, size: u32) -> Result<Due, AllocError>
    requires height { IsHeight height }
    requires size { IsSize size }
    ensures { IfOk result (λ d. (inputs : Inputs) (file : List ℕ) → Judges inputs.problem (Ok problem.now) → IsDue inputs (solve file height size) d.status d.text) }
{
    match answer(alloc, problem, height, size)? {
        Some(text) => Ok(Due {
            status: Status::Found,
            text,
        }),
        None => Ok(Due::line(alloc, Status::NoTerm, b"none\n")?),
    }
}

/// What is due for `show`.
fn shown(alloc: Global, problem: &Problem) -> Result<Due, AllocError>
    ensures { IfOk result (λ d. (inputs : Inputs) (file : List ℕ) → Judges inputs.problem (Ok problem.now) → IsDue inputs (show file) d.status d.text) }
{
    let text = problem.print(alloc)?;
    Ok(Due {
        status: Status::Shown,
        text,
    })
}

/// What `check` comes to after its problem was accepted, where the answer file has this name.
fn checked<F: Files>(
    alloc: Global,
    problem: &Problem,
    name: &str,
    height: u32,
    files: &mut F,
) -> Result<Due, AllocError>
    ensures output { IfOk result (λ d. (file first : List ℕ) → Judges first (Ok problem.now) →
        ForSome (problem_file (check file name.now height)) (λ named. AreRead (F.held files.old) named first) →
        IsOutput (F.held files.old) (F.steady files.old)
        (F.open_faults files.old) (F.open_faults files.new) (F.read_faults files.old) (F.read_faults files.new)
        (check file name.now height) d.status d.text) }
    ensures taken { F.taken files.new ≤ F.taken files.old + 8388609 }
    ensures held { F.held files.new ≡ F.held files.old }
    ensures steady { F.steady files.new ≡ F.steady files.old }
{
    match read_file(name, ANSWER_LIMIT, files, AnswerFile::new(alloc))? {
        Contents::Read(file) => Ok(due_for_answer(alloc, problem, file, height)?),
        Contents::Closed => Ok(cannot_open(alloc, name)?),
        Contents::Failed => Ok(read_fault(alloc)?),
    }
}

/// What is due for `check`, where the answer file was read.
fn due_for_answer(
    alloc: Global,
    problem: &Problem,
    answer: AnswerFile,
    height: u32,
) -> Result<Due, AllocError>
    requires { CanEnd answer }
    ensures { IfOk result (λ d. (file name first bytes : List ℕ) → Judges first (Ok problem.now) → IsReading answer bytes → IsDue (record { problem = first; second = bytes }) (check file name height) d.status d.text) }
{
    match check_answer(alloc, problem, answer, height)? {
        Checked::Valid => Ok(Due::line(alloc, Status::Valid, b"valid\n")?),
        Checked::Invalid(flaw) => Ok(invalid(alloc, flaw)?),
        Checked::Refused(fault) => Ok(refusal(alloc, Which::Answer, fault)?),
    }
}
