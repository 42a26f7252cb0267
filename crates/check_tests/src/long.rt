//! Answer files of the greatest length, and of one byte more.
use crate::texts::{expect, files_of};
use example_files::TINY;
use semgus_app::{AnswerFault, Fault, Flaw, Status, Which};
use std::test::Fail;

/// Spaces, one more than an answer file may have.
const SPACES: usize = 8_388_609;

#[test]
fn an_answer_file_past_its_limit_is_refused(rt: HostRuntime) -> Result<(), Fail> {
    let spaces = vec![in rt.alloc(); b' '; SPACES]?;
    let mut files = files_of(&rt, TINY, spaces.as_slice())?;
    let status = Status::Refused(
        Which::Answer,
        Fault {
            place: 8_388_608,
            reason: 50,
            limit: 2,
        },
    );
    let line = "check problem answer 1";
    expect(
        &rt,
        line,
        &mut files,
        status,
        "answer refused 8388608 50 2\n",
    )?;
    Ok(())
}

#[test]
fn an_answer_file_at_its_limit_is_read(rt: HostRuntime) -> Result<(), Fail> {
    let spaces = vec![in rt.alloc(); b' '; SPACES - 1]?;
    let mut files = files_of(&rt, TINY, spaces.as_slice())?;
    let status = Status::Invalid(Flaw::Form(AnswerFault {
        place: 8_388_608,
        reason: 1,
    }));
    let line = "check problem answer 1";
    expect(&rt, line, &mut files, status, "invalid 1 8388608 1\n")?;
    Ok(())
}
