use crate::checking::{check_refused, check_taken};
use crate::frames::{AFTER_RELATIONS, AFTER_WANTED};
use std::test::Fail;

const CALLS: [(&str, u8); 7] = [
    ("(constraint [(S))", 30),
    ("(constraint [(S f))", 30),
    ("(constraint [(S f 1 2))", 30),
    ("(constraint [(T f true))", 30),
    ("(constraint [(P f true))", 30),
    ("(constraint (and (S f 1) [(P f true)))", 30),
    ("(constraint (and [(S f) (S 1 1)))", 30),
];

const ARGUMENTS: [(&str, u8); 16] = [
    ("(constraint (S [1 1))", 30),
    ("(constraint (S [true 1))", 30),
    ("(constraint (S [(- 1) 1))", 30),
    ("(constraint (S [-1 1))", 30),
    (
        "(constraint (S [170141183460469231731687303715884105728 1))",
        30,
    ),
    (
        "(constraint (S [(- 170141183460469231731687303715884105729) 1))",
        30,
    ),
    ("(constraint (S f [true))", 30),
    ("(constraint (S f [f))", 30),
    ("(constraint (T [true f true))", 30),
    ("(constraint (T [f f true))", 30),
    ("(constraint (T 1 [1 true))", 30),
    ("(constraint (T 1 f [1))", 30),
    ("(constraint (T 1 f [-1))", 30),
    ("(constraint (T 1 f [(- 1)))", 30),
    (
        "(constraint (T 1 f [170141183460469231731687303715884105728))",
        30,
    ),
    ("(constraint (and (S f 1) (T 1 f [1)))", 30),
];

const NUMBERS: [(&str, u8); 7] = [
    (
        "(constraint (S f [170141183460469231731687303715884105728))",
        31,
    ),
    (
        "(constraint (S f [-170141183460469231731687303715884105729))",
        31,
    ),
    (
        "(constraint (S f [|-170141183460469231731687303715884105729|))",
        31,
    ),
    (
        "(constraint (S f (- [170141183460469231731687303715884105729)))",
        31,
    ),
    (
        "(constraint (T [170141183460469231731687303715884105728 f true))",
        31,
    ),
    (
        "(constraint (T [170141183460469231731687303715884105728 f 1))",
        31,
    ),
    (
        "(constraint (and (S f 1) (S f [170141183460469231731687303715884105728)))",
        31,
    ),
];

#[test]
fn sorts_of_examples(rt: HostRuntime) -> Result<(), Fail> {
    check_refused(&rt, rt.alloc(), AFTER_WANTED, &CALLS)?;
    check_refused(&rt, rt.alloc(), AFTER_WANTED, &ARGUMENTS)?;
    check_refused(&rt, rt.alloc(), AFTER_WANTED, &NUMBERS)?;
    Ok(())
}

/// Wanted functions whose names mean something else in other places.
const NAMED: [(&str, u8); 7] = [
    (
        "(synth-fun -4 () E)
(constraint (T [true -4 true))",
        30,
    ),
    (
        "(synth-fun -4 () E)
(constraint (S [(- 4) 1))",
        30,
    ),
    (
        "(synth-fun true () E)
(constraint (S true [true))",
        30,
    ),
    (
        "(synth-fun true () E)
(constraint (T 1 [false true))",
        30,
    ),
    (
        "(synth-fun S () E)
(constraint (S S [S))",
        30,
    ),
    (
        "(synth-fun |1| () E)
(constraint (S [1 1))",
        30,
    ),
    (
        "(synth-fun -170141183460469231731687303715884105729 () E)
(constraint (S -170141183460469231731687303715884105729 [-170141183460469231731687303715884105729))",
        31,
    ),
];

const RIGHT: [&str; 10] = [
    "(synth-fun -4 () E)
(constraint (S -4 -4))
(constraint (T -4 -4 true))",
    "(synth-fun true () E)
(constraint (T 1 true true))",
    "(synth-fun S () E)
(constraint (S S 1))",
    "(synth-fun -170141183460469231731687303715884105729 () E)
(constraint (S -170141183460469231731687303715884105729 1))",
    "(synth-fun and () E)
(constraint (and (S and 1) (T (- 3) and false)))",
    "(synth-fun || () E)
(constraint (S || 1))",
    "(synth-fun |4| () E)
(constraint (S |4| 4))",
    "(synth-fun f () F)
(constraint (P f |true|))
(constraint (P |f| false))",
    "(synth-fun f () E)
(constraint (and (and (S f 1)) (S |f| -0) (and (S f (- 0)))))
(constraint (S f 1))",
    "(synth-fun f () E)
(constraint (S f 170141183460469231731687303715884105727))
(constraint (S f (- 170141183460469231731687303715884105728)))
(constraint (T -170141183460469231731687303715884105728 f true))",
];

#[test]
fn names_of_the_wanted_function(rt: HostRuntime) -> Result<(), Fail> {
    check_refused(&rt, rt.alloc(), AFTER_RELATIONS, &NAMED)?;
    check_taken(&rt, rt.alloc(), AFTER_RELATIONS, &RIGHT)?;
    Ok(())
}
