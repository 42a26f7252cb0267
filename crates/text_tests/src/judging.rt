//! Files by their text, judged and printed again.
ghost use Rattle.std.specs.Prelude.{◌<◌, ◌^◌, length};
ghost use Rattle.elab_core.specs.Feeding.{HasRoom};

use elab_core::{ElabError, Judge};
use problem_core::Problem;
use sig_core::Bytes;
use std::alloc::{AllocError, Global};
use std::process::Abort;

/// The canonical text of the problem that the file states; none where it states none.
pub(crate) fn printed(
    rt: &impl Abort,
    alloc: Global,
    file: &[u8],
) -> Result<Option<Bytes>, AllocError> {
    assert!(rt; file.len() < 2_000_000);
    text_of_file(alloc, file)
}

fn text_of_file(alloc: Global, file: &[u8]) -> Result<Option<Bytes>, AllocError>
    requires { length file.now < 2 ^ 32 }
{
    let mut judge = Judge::new(alloc);
    match judge.feed(file) {
        Ok(()) => text_at_end(alloc, judge),
        Err(_) => Err(wanted_memory(judge)),
    }
}

/// A judge that wanted memory is dropped.
fn wanted_memory(_judge: Judge) -> AllocError {
    AllocError
}

/// The text of the problem that the fed file states.
fn text_at_end(alloc: Global, judge: Judge) -> Result<Option<Bytes>, AllocError>
    requires { HasRoom judge 0 }
{
    text_in(alloc, judge.finish())
}

fn text_in(alloc: Global, judged: Result<Problem, ElabError>) -> Result<Option<Bytes>, AllocError> {
    match judged {
        Ok(problem) => text_of(alloc, &problem),
        Err(ElabError::Fault(_)) => Ok(None),
        Err(ElabError::Memory) => Err(AllocError),
    }
}

fn text_of(alloc: Global, problem: &Problem) -> Result<Option<Bytes>, AllocError> {
    let text = problem.print(alloc)?;
    Ok(Some(text))
}
