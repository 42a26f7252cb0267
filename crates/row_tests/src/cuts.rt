//! A file that ends too early.
use crate::running::words_of;
use example_files::MAX2;
use semgus_app::{Fault, Status, Which, run};
use semgus_io::{MemoryFiles, MemorySink};
use std::alloc::{AllocError, Global};
use std::process::Abort;
use std::test::Fail;

/// The reason for which a text is refused at its end: a list is open, or the last command is missing. The text has parentheses in no string and no quoted symbol.
fn reason_at_end(text: &[u8]) -> u8 {
    let opened = text.iter().filter(|byte| **byte == b'(').count();
    let closed = text.iter().filter(|byte| **byte == b')').count();
    if opened == closed { 60 } else { 3 }
}

/// Solves a text that is refused at its end, with the bounds that are usual.
fn check_cut(rt: &impl Abort, alloc: Global, text: &[u8], place: u32) -> Result<(), AllocError> {
    let reason = reason_at_end(text);
    let words = words_of(alloc, "solve p.sl")?;
    let mut files = MemoryFiles::new(alloc);
    files.add("p.sl", text)?;
    let mut out = MemorySink::new(alloc, 4096)?;
    let status = run(alloc, &words, &mut files, &mut out);
    let fault = Fault {
        place,
        reason,
        limit: 0,
    };
    assert!(rt; status == Status::Refused(Which::Problem, fault), "{place}");
    let line = format!(in alloc; "refused {place} {reason}\n")?;
    assert!(rt; out.written() == line.as_bytes(), "{place}");
    Ok(())
}

#[test]
fn max2_cut_after_each_byte(rt: HostRuntime) -> Result<(), Fail> {
    let text = MAX2.as_bytes();
    let last = text.trim_ascii_end().len();
    for place in 0..last {
        check_cut(&rt, rt.alloc(), &text[..place], place as u32)?;
    }
    Ok(())
}
