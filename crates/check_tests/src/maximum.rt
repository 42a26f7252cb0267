//! Answers to the problem of a maximum of two numbers.
use crate::texts::{expect, files_of};
use example_files::{MAX2, MAX2_ANSWER};
use semgus_app::{BadStep, Flaw, Status};
use std::test::Fail;

/// Step 3 has itself for a premise.
const LOOPED: &str = "(answer 1)
(term ($ite ($< $x $y) $y $x))
(size 6)
(node 0 $x)
(node 1 $y)
(node 2 $< 0 1)
(node 3 $ite 2 1 0)
(step 0 E.Sem 0 0 (4 2 4) ())
(step 1 E.Sem 1 0 (4 2 2) ())
(step 2 B.Sem 2 0 (4 2 false 4 2) (0 1))
(step 3 E.Sem 3 0 (4 2 4 false 2 4) (3 1 0))
(step 4 E.Sem 0 0 (2 5 2) ())
(step 5 E.Sem 1 0 (2 5 5) ())
(step 6 B.Sem 2 0 (2 5 true 2 5) (4 5))
(step 7 E.Sem 3 0 (2 5 5 true 5 2) (6 5 4))
(derived 0 3)
(derived 1 7)
";

/// Words and the answer, with the status and the line.
const CHECKS: [(&str, &str, Status, &str); 3] = [
    (
        "check problem answer 3",
        MAX2_ANSWER,
        Status::Valid,
        "valid\n",
    ),
    (
        "check problem answer 3",
        LOOPED,
        Status::Invalid(Flaw::Step(BadStep { step: 3, reason: 3 })),
        "invalid 5 3 3\n",
    ),
    (
        "check problem answer 2",
        MAX2_ANSWER,
        Status::Invalid(Flaw::Step(BadStep { step: 3, reason: 6 })),
        "invalid 5 3 6\n",
    ),
];

#[test]
fn answers_of_steps_on_shared_terms_are_checked(rt: HostRuntime) -> Result<(), Fail> {
    for (line, answer, status, output) in CHECKS {
        let mut files = files_of(&rt, MAX2, answer.as_bytes())?;
        expect(&rt, line, &mut files, status, output)?;
    }
    Ok(())
}
