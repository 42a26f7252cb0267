//! Problems and answers of the tests, and runs over them.
use semgus_app::{Status, run};
use semgus_io::{MemoryFiles, MemorySink, Words};
use std::alloc::AllocError;
use std::process::Abort;

/// The words of a line, which are parted by single spaces.
pub fn words_of(rt: &impl AllocGlobal, line: &str) -> Result<Words, AllocError> {
    let mut words = Words::new(rt.alloc());
    for word in line.split(' ') {
        words.push(word)?;
    }
    Ok(words)
}

/// Files that hold a problem and an answer, under the names `problem` and `answer`.
pub fn files_of(
    rt: &impl AllocGlobal,
    problem: &str,
    answer: &[u8],
) -> Result<MemoryFiles, AllocError> {
    let mut files = MemoryFiles::new(rt.alloc());
    files.add("problem", problem.as_bytes())?;
    files.add("answer", answer)?;
    Ok(files)
}

/// Runs the words of a line over the files.
pub fn expect<R: Abort + AllocGlobal>(
    rt: &R,
    line: &str,
    files: &mut MemoryFiles,
    status: Status,
    output: &str,
) -> Result<(), AllocError> {
    let words = words_of(rt, line)?;
    let mut out = MemorySink::new(rt.alloc(), 4096)?;
    let ended = run(rt.alloc(), &words, files, &mut out);
    assert!(rt; ended == status);
    assert!(rt; out.written() == output.as_bytes());
    Ok(())
}
