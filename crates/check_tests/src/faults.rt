//! Words of `check`, files that are absent, and calls that fail.
use crate::texts::{expect, files_of};
use example_files::{TINY, TINY_ANSWER};
use semgus_app::{Fault, Status, Which};
use std::test::Fail;

/// Words over a problem, its answer and nothing else, with the status and the output.
const LINES: [(&str, Status, &str); 9] = [
    ("check problem answer 1000", Status::Valid, "valid\n"),
    ("check problem answer", Status::BadWords, "bad words\n"),
    ("check problem answer 0", Status::BadWords, "bad words\n"),
    ("check problem answer 1001", Status::BadWords, "bad words\n"),
    ("check problem answer 01", Status::BadWords, "bad words\n"),
    ("check problem answer 1 1", Status::BadWords, "bad words\n"),
    (
        "check problem none 1",
        Status::CannotOpen,
        "cannot open none\n",
    ),
    (
        "check none answer 1",
        Status::CannotOpen,
        "cannot open none\n",
    ),
    // A problem that is refused is told before the answer file is begun.
    (
        "check answer none 1",
        Status::Refused(
            Which::Problem,
            Fault {
                place: 1,
                reason: 11,
                limit: 0,
            },
        ),
        "refused 1 11\n",
    ),
];

#[test]
fn words_of_checks_are_answered(rt: HostRuntime) -> Result<(), Fail> {
    for (line, status, output) in LINES {
        let mut files = files_of(&rt, TINY, TINY_ANSWER.as_bytes())?;
        expect(&rt, line, &mut files, status, output)?;
    }
    Ok(())
}

#[test]
fn a_second_begin_that_fails_names_the_answer(rt: HostRuntime) -> Result<(), Fail> {
    let line = "check problem answer 1";
    let mut files = files_of(&rt, TINY, TINY_ANSWER.as_bytes())?;
    files.fail_begin(2)?;
    let status = Status::CannotOpen;
    expect(&rt, line, &mut files, status, "cannot open answer\n")?;
    Ok(())
}

#[test]
fn a_take_of_the_answer_that_fails_is_a_read_fault(rt: HostRuntime) -> Result<(), Fail> {
    let line = "check problem answer 1";
    let mut files = files_of(&rt, TINY, TINY_ANSWER.as_bytes())?;
    files.fail_take(3)?;
    expect(&rt, line, &mut files, Status::ReadFault, "read fault\n")?;
    Ok(())
}
