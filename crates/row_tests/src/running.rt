//! Runs of the program over one file.
use semgus_app::{Status, run};
use semgus_io::{MemoryFiles, MemorySink, Words};
use std::alloc::{AllocError, Global};
use std::process::Abort;

/// The words of a line, which are parted by single spaces.
pub(crate) fn words_of(alloc: Global, line: &str) -> Result<Words, AllocError> {
    let mut words = Words::new(alloc);
    for word in line.split(' ') {
        words.push(word)?;
    }
    Ok(words)
}

/// Files with the one of this name, which has this text.
pub(crate) fn file_named(alloc: Global, name: &str, text: &str) -> Result<MemoryFiles, AllocError> {
    let mut files = MemoryFiles::new(alloc);
    files.add(name, text.as_bytes())?;
    Ok(files)
}

/// Files with the one named `p.sl`, which has this text.
pub(crate) fn file_of(alloc: Global, text: &str) -> Result<MemoryFiles, AllocError> {
    file_named(alloc, "p.sl", text)
}

/// Whether the words of the line come to this status and output over the files.
pub(crate) fn check_over(
    rt: &impl Abort,
    alloc: Global,
    line: &str,
    files: &mut MemoryFiles,
    status: Status,
    output: &str,
) -> Result<(), AllocError> {
    let words = words_of(alloc, line)?;
    let mut out = MemorySink::new(alloc, 4096)?;
    let answer = run(alloc, &words, files, &mut out);
    assert!(rt; out.written() == output.as_bytes(), "{line}");
    assert!(rt; answer == status, "{line}");
    Ok(())
}

/// Whether the words of the line come to this status and output where `p.sl` has this text.
pub(crate) fn check(
    rt: &impl Abort,
    alloc: Global,
    line: &str,
    text: &str,
    status: Status,
    output: &str,
) -> Result<(), AllocError> {
    let mut files = file_of(alloc, text)?;
    check_over(rt, alloc, line, &mut files, status, output)
}
