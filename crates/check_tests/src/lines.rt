//! A line for each kind of answer file.
use crate::texts::{expect, files_of};
use example_files::{TINY, TINY_ANSWER, TINY_EMPTY, TWICE};
use semgus_app::{AnswerFault, BadStep, Fault, Flaw, Status, Which};
use std::alloc::AllocError;
use std::process::Abort;
use std::test::Fail;

/// Answers to tiny.sl.
const VALID: [&str; 2] = [
    TINY_ANSWER,
    "(answer 1) (term (|$a|)) ; another spelling of the same forms
(size 1) (node 0 $a) (step 0 S 0 0 (1) ()) (derived 0 0)",
];

/// Texts with the place and the reason of their bad node, and the line.
const BAD_FORMS: [(&str, u32, u8, &str); 4] = [
    ("", 0, 1, "invalid 1 0 1\n"),
    ("(answer 1) ", 11, 1, "invalid 1 11 1\n"),
    (
        "(answer 1)
(term $a)
(size 1)
(node 0 $b)
(step 0 S 0 0 (1) ())
(derived 0 0)
",
        38,
        2,
        "invalid 1 38 2\n",
    ),
    (
        "(answer 1)
(term $a)
(size 1)
(node 0 $a)
(step 0 S 0 0 (1) ())
(derived 0 1)
",
        75,
        3,
        "invalid 1 75 3\n",
    ),
];

/// Answers with the first test that they fail, and the line.
const FLAWS: [(&str, Flaw, &str); 4] = [
    (
        "(answer 1)
(term $a)
(size 1)
(node 0 $a)
(node 1 $a)
(step 0 S 0 0 (1) ())
(derived 0 0)
",
        Flaw::Nodes,
        "invalid 2\n",
    ),
    (
        "(answer 1)
(term $a)
(size 2)
(node 0 $a)
(step 0 S 0 0 (1) ())
(derived 0 0)
",
        Flaw::Size,
        "invalid 3\n",
    ),
    (
        "(answer 1)
(term $a)
(size 1)
(node 0 $a)
(step 0 S 0 0 (2) ())
(derived 0 0)
",
        Flaw::Step(BadStep { step: 0, reason: 5 }),
        "invalid 5 0 5\n",
    ),
    (
        "(answer 1)
(term $a)
(size 1)
(node 0 $a)
(step 0 S 0 1 (1) ())
(derived 0 0)
",
        Flaw::Step(BadStep { step: 0, reason: 1 }),
        "invalid 5 0 1\n",
    ),
];

/// Texts with their lexical fault, which comes before any form is judged, and the line.
const REFUSALS: [(&str, u32, u8, &str); 3] = [
    ("(answer 2", 9, 3, "answer refused 9 3\n"),
    ("(answer 2) )", 11, 4, "answer refused 11 4\n"),
    ("12a", 2, 2, "answer refused 2 2\n"),
];

/// Checks an answer to a problem with a height of 1.
fn check_one<R: Abort + AllocGlobal>(
    rt: &R,
    problem: &str,
    answer: &str,
    status: Status,
    output: &str,
) -> Result<(), AllocError> {
    let mut files = files_of(rt, problem, answer.as_bytes())?;
    expect(rt, "check problem answer 1", &mut files, status, output)
}

#[test]
fn answers_are_valid_in_any_spelling(rt: HostRuntime) -> Result<(), Fail> {
    for answer in VALID {
        check_one(&rt, TINY, answer, Status::Valid, "valid\n")?;
    }
    Ok(())
}

#[test]
fn bad_forms_have_their_places(rt: HostRuntime) -> Result<(), Fail> {
    for (answer, place, reason, output) in BAD_FORMS {
        let status = Status::Invalid(Flaw::Form(AnswerFault { place, reason }));
        check_one(&rt, TINY, answer, status, output)?;
    }
    Ok(())
}

#[test]
fn flaws_have_their_lines(rt: HostRuntime) -> Result<(), Fail> {
    for (answer, flaw, output) in FLAWS {
        check_one(&rt, TINY, answer, Status::Invalid(flaw), output)?;
    }
    Ok(())
}

#[test]
fn lexical_faults_are_refused(rt: HostRuntime) -> Result<(), Fail> {
    for (answer, place, reason, output) in REFUSALS {
        let limit = 0;
        let status = Status::Refused(
            Which::Answer,
            Fault {
                place,
                reason,
                limit,
            },
        );
        check_one(&rt, TINY, answer, status, output)?;
    }
    Ok(())
}

#[test]
fn a_term_out_of_the_language_is_invalid(rt: HostRuntime) -> Result<(), Fail> {
    let status = Status::Invalid(Flaw::Grammar);
    check_one(&rt, TINY_EMPTY, TINY_ANSWER, status, "invalid 4\n")?;
    Ok(())
}

#[test]
fn a_step_of_another_constraint_is_invalid(rt: HostRuntime) -> Result<(), Fail> {
    let answer = "(answer 1)
(term $c)
(size 1)
(node 0 $c)
(step 0 S 0 0 (0) ())
(step 1 S 0 1 (1) ())
(derived 0 0)
(derived 1 0)
";
    let status = Status::Invalid(Flaw::Constraint(1));
    check_one(&rt, TWICE, answer, status, "invalid 6 1\n")?;
    Ok(())
}
