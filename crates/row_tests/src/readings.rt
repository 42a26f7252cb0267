use crate::answers;
use crate::files::RULES;
use crate::running::{check, file_of, words_of};
use semgus_app::{Status, run};
use semgus_io::MemorySink;
use std::alloc::{AllocError, Global};
use std::process::Abort;
use std::test::Fail;

/// A problem whose one term has the value of an expression, where another expression is its example's.
fn problem_of(alloc: Global, value: &str, example: &str) -> Result<String, AllocError> {
    format!(in alloc;
        "(declare-term-types ((E 0)) (($a)))
(define-funs-rec ((S ((t E) (r Int)) Bool)) ((! (match t (($a (= r {value})))) :input () :output (r))))
(synth-fun f () E)
(constraint (S f {example}))
(check-synth)
"
    )
}

/// The status of `solve` with bounds of 1 over this text.
fn status_of(alloc: Global, text: &str) -> Result<Status, AllocError> {
    let mut files = file_of(alloc, text)?;
    let words = words_of(alloc, "solve p.sl 1 1")?;
    let mut out = MemorySink::new(alloc, 4096)?;
    Ok(run(alloc, &words, &mut files, &mut out))
}

/// Expressions of one value.
const SAME: [(&str, &str); 16] = [
    ("-4", "-4"),
    ("-4", "(- 4)"),
    ("(- 4)", "-4"),
    ("|-4|", "(- 4)"),
    ("(- (- 4))", "4"),
    ("(- -4)", "4"),
    ("(- (- (- 4)))", "-4"),
    ("(- (- -4))", "|-4|"),
    ("-0", "0"),
    ("(- -0)", "-0"),
    ("(- 0)", "(- 0)"),
    (
        "170141183460469231731687303715884105727",
        "170141183460469231731687303715884105727",
    ),
    (
        "(- 170141183460469231731687303715884105728)",
        "-170141183460469231731687303715884105728",
    ),
    (
        "-170141183460469231731687303715884105728",
        "(- 170141183460469231731687303715884105728)",
    ),
    (
        "(- (- 170141183460469231731687303715884105727))",
        "170141183460469231731687303715884105727",
    ),
    (
        "(- (+ -170141183460469231731687303715884105728 1))",
        "170141183460469231731687303715884105727",
    ),
];

/// Expressions of two values, or without one.
const OTHER: [(&str, &str); 7] = [
    ("4", "-4"),
    ("(- (- 4))", "-4"),
    (
        "(- (- 170141183460469231731687303715884105728))",
        "-170141183460469231731687303715884105728",
    ),
    (
        "(- -170141183460469231731687303715884105728)",
        "-170141183460469231731687303715884105728",
    ),
    (
        "(- (- 170141183460469231731687303715884105728))",
        "170141183460469231731687303715884105727",
    ),
    (
        "(+ 170141183460469231731687303715884105727 1)",
        "-170141183460469231731687303715884105728",
    ),
    (
        "(- 0 170141183460469231731687303715884105727 2)",
        "170141183460469231731687303715884105727",
    ),
];

fn check_readings(
    rt: &impl Abort,
    alloc: Global,
    cases: &[(&str, &str)],
    wanted: Status,
) -> Result<(), AllocError> {
    for (value, example) in cases {
        let text = problem_of(alloc, value, example)?;
        assert!(rt; status_of(alloc, text.as_str())? == wanted, "{value}");
    }
    Ok(())
}

#[test]
fn readings_of_numbers(rt: HostRuntime) -> Result<(), Fail> {
    check_readings(&rt, rt.alloc(), &SAME, Status::Found)?;
    check_readings(&rt, rt.alloc(), &OTHER, Status::NoTerm)?;
    Ok(())
}

#[test]
fn repeated_patterns_and_branches_add_rules(rt: HostRuntime) -> Result<(), Fail> {
    check(
        &rt,
        rt.alloc(),
        "solve p.sl 1 1",
        RULES,
        Status::Found,
        answers::RULES,
    )?;
    Ok(())
}
