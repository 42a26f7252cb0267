//! What `solve` prints is a valid answer.
use crate::texts::{expect, files_of, words_of};
use example_files::{MAX2, TINY};
use semgus_app::{Status, run};
use semgus_io::{MemoryFiles, MemorySink};
use std::alloc::AllocError;
use std::test::Fail;

/// Files that hold a problem and what a line of words prints for it.
fn files_solved(
    rt: &impl AllocGlobal,
    problem: &str,
    line: &str,
) -> Result<MemoryFiles, AllocError> {
    let words = words_of(rt, line)?;
    let mut files = files_of(rt, problem, b"")?;
    let mut out = MemorySink::new(rt.alloc(), 4096)?;
    run(rt.alloc(), &words, &mut files, &mut out);
    files_of(rt, problem, out.written())
}

#[test]
fn printed_answers_are_valid(rt: HostRuntime) -> Result<(), Fail> {
    for (problem, solve, check) in [
        (TINY, "solve problem 1 1", "check problem answer 1"),
        (MAX2, "solve problem 3 6", "check problem answer 3"),
    ] {
        let mut files = files_solved(&rt, problem, solve)?;
        expect(&rt, check, &mut files, Status::Valid, "valid\n")?;
    }
    Ok(())
}
