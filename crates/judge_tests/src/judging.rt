//! Files by their text, judged.
ghost use Rattle.std.specs.Prelude.{◌<◌, ◌^◌, length};
ghost use Rattle.elab_core.specs.Feeding.{HasRoom};

use elab_core::{ElabError, Judge};
use problem_core::Problem;
use sig_core::Bytes;
use std::alloc::{AllocError, Global};

/// Where and why a file is refused. The limit is 0 where none was passed.
#[derive(Clone, Copy, Debug, PartialEq, Eq)]
pub struct Refusal {
    pub place: usize,
    pub reason: u8,
    pub limit: u8,
}

/// Why the file of this text is refused; none where it states a problem. A text of 2,000,000 bytes or more isn't judged,
/// and answered as if memory were refused.
pub fn refusal_of(alloc: Global, text: &[u8]) -> Result<Option<Refusal>, AllocError> {
    if text.len() < 2_000_000 {
        refusal_of_text(alloc, text)
    } else {
        Err(AllocError)
    }
}

fn refusal_of_text(alloc: Global, text: &[u8]) -> Result<Option<Refusal>, AllocError>
    requires { length text.now < 2 ^ 32 }
{
    let mut judge = Judge::new(alloc);
    match judge.feed(text) {
        Ok(()) => refusal_at_end(judge),
        Err(_) => Err(wanted_memory(judge)),
    }
}

/// A judge that wanted memory is dropped.
fn wanted_memory(_judge: Judge) -> AllocError {
    AllocError
}

/// Why the text that was fed is refused.
fn refusal_at_end(judge: Judge) -> Result<Option<Refusal>, AllocError>
    requires { HasRoom judge 0 }
{
    refusal_in(judge.finish())
}

fn refusal_in(judged: Result<Problem, ElabError>) -> Result<Option<Refusal>, AllocError> {
    match judged {
        Ok(_) => Ok(None),
        Err(ElabError::Fault(fault)) => Ok(Some(Refusal {
            place: fault.place as usize,
            reason: fault.reason,
            limit: fault.limit,
        })),
        Err(ElabError::Memory) => Err(AllocError),
    }
}

/// Appends the lines without their mark `[`. The place of the byte after the mark; else 0.
pub fn append_marked(text: &mut Bytes, lines: &str) -> Result<usize, AllocError> {
    let mut place = 0;
    for byte in lines.as_bytes() {
        if *byte == b'[' {
            place = text.len();
        } else {
            text.push(*byte)?;
        }
    }
    Ok(place)
}
