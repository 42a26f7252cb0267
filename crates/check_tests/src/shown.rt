//! Canonical texts of problems.
use crate::texts::{expect, files_of};
use example_files::{SPELLED, SPELLED_AGAIN, TINY};
use semgus_app::{Fault, Status, Which};
use std::test::Fail;

const TINY_SHOWN: &str = "(declare-term-types ((E 0)) (($a)))
(define-funs-rec ((S ((t E) (r Int)) Bool)) ((! (match t (($a (and (= r 1))))) :input () :output (r))))
(synth-fun f () E)
(constraint (S f 1))
(check-synth)
";

#[test]
fn problems_are_shown(rt: HostRuntime) -> Result<(), Fail> {
    for (problem, text) in [
        (TINY, TINY_SHOWN),
        (TINY_SHOWN, TINY_SHOWN),
        (SPELLED, SPELLED_AGAIN),
        (SPELLED_AGAIN, SPELLED_AGAIN),
    ] {
        let mut files = files_of(&rt, problem, b"")?;
        expect(&rt, "show problem", &mut files, Status::Shown, text)?;
    }
    Ok(())
}

#[test]
fn a_refused_problem_is_not_shown(rt: HostRuntime) -> Result<(), Fail> {
    let mut files = files_of(&rt, TINY, b"")?;
    let status = Status::Refused(
        Which::Problem,
        Fault {
            place: 0,
            reason: 60,
            limit: 0,
        },
    );
    expect(&rt, "show answer", &mut files, status, "refused 0 60\n")?;
    expect(&rt, "show", &mut files, Status::BadWords, "bad words\n")?;
    Ok(())
}

#[test]
fn an_absent_problem_is_not_shown(rt: HostRuntime) -> Result<(), Fail> {
    let mut files = files_of(&rt, TINY, b"")?;
    let status = Status::CannotOpen;
    expect(&rt, "show none", &mut files, status, "cannot open none\n")?;
    Ok(())
}
