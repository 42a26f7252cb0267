//! Problems by their text, solved.
ghost use Rattle.std.specs.Prelude.{◌≤◌, ◌<◌, ◌^◌, length, IfOk, IfSome};
ghost use Rattle.term_core.specs.Banks.{IsLive};
ghost use Rattle.elab_core.specs.Feeding.{HasRoom};

use elab_core::{ElabError, Judge};
use problem_core::Problem;
use solve_core::{Work, solve};
use std::alloc::{AllocError, Global};
use std::process::Abort;
use term_core::TermId;

/// What a search comes to.
#[derive(Clone, Copy, Debug, PartialEq, Eq)]
pub(crate) struct Searched {
    /// the size of the term that was found
    pub size: Option<u32>,
    /// how many marks were taken
    pub looks: u64,
}

/// What the work and the answer of a search come to.
fn search_by(work: Work, found: Result<Option<TermId>, AllocError>) -> Result<Searched, AllocError>
    requires { IfOk found (λ found. IfSome found (IsLive work.bank)) }
{
    let looks = work.looks();
    match found {
        Ok(Some(id)) => Ok(Searched {
            size: Some(work.bank().size(id)),
            looks,
        }),
        Ok(None) => Ok(Searched { size: None, looks }),
        Err(error) => Err(error),
    }
}

/// The search of a problem within the height and the size.
fn search_of(
    alloc: Global,
    problem: &Problem,
    height: u32,
    size: u32,
) -> Result<Searched, AllocError>
    requires positive { 1 ≤ height }
    requires low { height ≤ 1000 }
    requires some { 1 ≤ size }
    requires small { size ≤ 40 }
{
    let mut work = Work::new(alloc);
    let found = solve(alloc, problem, height, size, &mut work);
    search_by(work, found)
}

/// The search of a problem, which is dropped.
fn search_once(
    alloc: Global,
    problem: Problem,
    height: u32,
    size: u32,
) -> Result<Option<Searched>, AllocError>
    requires positive { 1 ≤ height }
    requires low { height ≤ 1000 }
    requires some { 1 ≤ size }
    requires small { size ≤ 40 }
{
    match search_of(alloc, &problem, height, size) {
        Ok(searched) => Ok(Some(searched)),
        Err(error) => Err(error),
    }
}

/// The search of a problem; none where there is no problem.
fn search_in(
    alloc: Global,
    judged: Result<Problem, ElabError>,
    height: u32,
    size: u32,
) -> Result<Option<Searched>, AllocError>
    requires positive { 1 ≤ height }
    requires low { height ≤ 1000 }
    requires some { 1 ≤ size }
    requires small { size ≤ 40 }
{
    match judged {
        Ok(problem) => search_once(alloc, problem, height, size),
        Err(ElabError::Fault(_)) => Ok(None),
        Err(ElabError::Memory) => Err(AllocError),
    }
}

/// A judge that wanted memory is dropped.
fn wanted_memory(_judge: Judge) -> AllocError {
    AllocError
}

fn search_at_end(
    alloc: Global,
    judge: Judge,
    height: u32,
    size: u32,
) -> Result<Option<Searched>, AllocError>
    requires room { HasRoom judge 0 }
    requires positive { 1 ≤ height }
    requires low { height ≤ 1000 }
    requires some { 1 ≤ size }
    requires small { size ≤ 40 }
{
    search_in(alloc, judge.finish(), height, size)
}

fn search_of_bytes(
    alloc: Global,
    text: &[u8],
    height: u32,
    size: u32,
) -> Result<Option<Searched>, AllocError>
    requires short { length text.now < 2 ^ 32 }
    requires positive { 1 ≤ height }
    requires low { height ≤ 1000 }
    requires some { 1 ≤ size }
    requires small { size ≤ 40 }
{
    let mut judge = Judge::new(alloc);
    match judge.feed(text) {
        Ok(()) => search_at_end(alloc, judge, height, size),
        Err(_) => Err(wanted_memory(judge)),
    }
}

/// The search of the problem that a text states; none where it is refused.
pub(crate) fn search_of_text(
    rt: &impl Abort,
    alloc: Global,
    text: &str,
    height: u32,
    size: u32,
) -> Result<Option<Searched>, AllocError> {
    assert!(rt; text.len() < 2_000_000);
    assert!(rt; 1 <= height && height <= 1000);
    assert!(rt; 1 <= size && size <= 40);
    search_of_bytes(alloc, text.as_bytes(), height, size)
}
