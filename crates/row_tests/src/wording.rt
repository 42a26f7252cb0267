//! Files by names of their own, no words, and files and sinks of other kinds.
use crate::answers;
use crate::files::TINY_WITH_2;
use crate::running::{check_over, file_named, file_of, words_of};
use example_files::{LOOP, TINY, TINY_ANSWER};
use semgus_app::{Status, run};
use semgus_io::{MemoryFiles, MemorySink, SteadyFiles, SteadySink, Words};
use sig_core::Bytes;
use std::alloc::{AllocError, Global};
use std::test::Fail;

/// Words and the text of the file that they name, with the status and the output.
const RUNS: [(&str, &str, &str, Status, &str); 7] = [
    (
        "solve tiny.sl 1 1",
        "tiny.sl",
        TINY,
        Status::Found,
        TINY_ANSWER,
    ),
    (
        "solve tiny.sl 1000 40",
        "tiny.sl",
        TINY,
        Status::Found,
        TINY_ANSWER,
    ),
    (
        "solve tiny.sl 1000 40",
        "tiny.sl",
        TINY_WITH_2,
        Status::NoTerm,
        "none\n",
    ),
    ("solve tiny.sl", "tiny.sl", TINY, Status::Found, TINY_ANSWER),
    (
        "solve loop.sl 4 1",
        "loop.sl",
        LOOP,
        Status::Found,
        answers::LOOP,
    ),
    (
        "solve loop.sl 3 1",
        "loop.sl",
        LOOP,
        Status::NoTerm,
        "none\n",
    ),
    (
        "solve absent.sl 1 1",
        "tiny.sl",
        TINY,
        Status::CannotOpen,
        "cannot open absent.sl\n",
    ),
];

#[test]
fn words_are_answered_within_their_bounds(rt: HostRuntime) -> Result<(), Fail> {
    for (line, name, text, status, output) in RUNS {
        let mut files = file_named(rt.alloc(), name, text)?;
        check_over(&rt, rt.alloc(), line, &mut files, status, output)?;
    }
    Ok(())
}

#[test]
fn no_words_are_bad(rt: HostRuntime) -> Result<(), Fail> {
    let words = Words::new(rt.alloc());
    let mut files = file_of(rt.alloc(), TINY)?;
    let mut out = MemorySink::new(rt.alloc(), 4096)?;
    assert!(rt; run(rt.alloc(), &words, &mut files, &mut out) == Status::BadWords);
    assert!(rt; out.written() == b"bad words\n".as_slice());
    Ok(())
}

#[test]
fn a_file_may_come_byte_by_byte(rt: HostRuntime) -> Result<(), Fail> {
    for (text, output) in [(TINY, TINY_ANSWER), (LOOP, answers::LOOP)] {
        let mut files = file_of(rt.alloc(), text)?;
        files.piece(1);
        check_over(
            &rt,
            rt.alloc(),
            "solve p.sl 4 1",
            &mut files,
            Status::Found,
            output,
        )?;
    }
    Ok(())
}

/// TINY after so many spaces that the end of the first 4,096 bytes comes within a form.
fn after_spaces(alloc: Global) -> Result<Bytes, AllocError> {
    let mut text = Bytes::new(alloc);
    text.append([b' '; 4000].as_slice())?;
    text.append(TINY.as_bytes())?;
    Ok(text)
}

#[test]
fn a_form_may_stand_in_two_pieces(rt: HostRuntime) -> Result<(), Fail> {
    let text = after_spaces(rt.alloc())?;
    let mut files = MemoryFiles::new(rt.alloc());
    files.add("p.sl", text.as_slice())?;
    check_over(
        &rt,
        rt.alloc(),
        "solve p.sl 1 1",
        &mut files,
        Status::Found,
        TINY_ANSWER,
    )?;
    Ok(())
}

/// The status of a run over steady files that hold tiny.sl.
fn steady_run(alloc: Global, line: &str, room: &mut [u8]) -> Result<Status, AllocError> {
    let words = words_of(alloc, line)?;
    let mut files = SteadyFiles::new(alloc);
    files.add("tiny.sl", TINY.as_bytes())?;
    let mut out = SteadySink::new(room);
    Ok(run(alloc, &words, &mut files, &mut out))
}

#[test]
fn steady_files_and_a_steady_sink_serve(rt: HostRuntime) -> Result<(), Fail> {
    let mut room = [0u8; 78];
    assert!(rt; steady_run(rt.alloc(), "solve tiny.sl 1 1", &mut room)? == Status::Found);
    assert!(rt; room.as_slice() == TINY_ANSWER.as_bytes());
    assert!(rt; steady_run(rt.alloc(), "solve absent.sl 1 1", &mut room)? == Status::CannotOpen);
    Ok(())
}

#[test]
fn a_full_steady_sink_keeps_a_first_part(rt: HostRuntime) -> Result<(), Fail> {
    let mut room = [0u8; 12];
    assert!(rt; steady_run(rt.alloc(), "solve tiny.sl 1 1", &mut room)? == Status::WriteFault);
    assert!(rt; room == *b"(answer 1)\n(");
    Ok(())
}
