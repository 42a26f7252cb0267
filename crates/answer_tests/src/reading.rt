//! Where the reading of an answer finds its first bad node, and why.
use crate::texts::{Said, said_of};
use answer_core::AnswerFault;
use std::alloc::Global;
use std::process::Abort;
use std::test::Fail;

fn bad(place: u32, reason: u8) -> Said {
    Said::Bad(AnswerFault { place, reason })
}

/// What each text is due, where the term is to give 1.
fn assert_bad(rt: &impl Abort, alloc: Global, cases: &[(&str, u32, u8)]) -> Result<(), Fail> {
    for (text, place, reason) in cases {
        let found = said_of(alloc, &[1], text, 1)?;
        assert_eq!(rt; found, bad(*place, *reason), "{text}");
    }
    Ok(())
}

#[test]
fn a_form_that_is_not_due(rt: HostRuntime) -> Result<(), Fail> {
    let cases = [
        ("(term $a)", 0, 1),
        ("answer", 0, 1),
        ("(answer 1)(term $a $a)", 10, 1),
        ("(answer 1)(term $a)(node 0 $a)", 19, 1),
        (
            "(answer 1)(term $a)(size 1)(node 0 $a)(step 0 S 0 0 (1) ())(node 1 $c)",
            59,
            1,
        ),
        (
            "(answer 1)(term $a)(size 1)(node 0 $a)(step 0 S 0 0 (1) ())(derived 0 0)(derived 1 0)",
            72,
            1,
        ),
        (
            "(answer 1)(term $a)(size 1)(node 0 $a)(step 0 S 0 0 (1) ())",
            59,
            1,
        ),
        ("", 0, 1),
    ];
    assert_bad(&rt, rt.alloc(), &cases)
}

#[test]
fn an_item_of_the_wrong_kind(rt: HostRuntime) -> Result<(), Fail> {
    let cases = [
        ("(answer 2)", 8, 1),
        ("(answer 1)(term ($a 5))", 20, 1),
        ("(answer 1)(term ())", 16, 1),
        ("(answer 1)(term $a)(size $a)", 25, 1),
        ("(answer 1)(term $a)(size 1)(node x $a)", 33, 1),
        ("(answer 1)(term $a)(size 1)(node 0 $a x)", 38, 1),
        (
            "(answer 1)(term $a)(size 1)(node 0 $a)(step 0 S 0 0 1 ())",
            52,
            1,
        ),
        (
            "(answer 1)(term $a)(size 1)(node 0 $a)(step 0 S 0 0 (x) ())",
            53,
            1,
        ),
        (
            "(answer 1)(term $a)(size 1)(node 0 $a)(step 0 S 0 0 (1) (x))",
            57,
            1,
        ),
        (
            "(answer 1)(term $a)(size 1)(node 0 $a)(step 1 T 1 0 (x) ())",
            53,
            1,
        ),
        (
            "(answer 1)(term $a)(size 1)(node 0 $a)(step 0 S 0 0 (1) ())(derived 0 x)",
            70,
            1,
        ),
    ];
    assert_bad(&rt, rt.alloc(), &cases)
}

#[test]
fn a_wrong_name(rt: HostRuntime) -> Result<(), Fail> {
    let cases = [
        ("(answer 1)(term $b)", 16, 2),
        ("(answer 1)(term ($p $a))", 16, 2),
        ("(answer 1)(term ($p $a ($a $c)))", 23, 2),
        ("(answer 1)(term $a)(size 1)(node 0 $b)", 35, 2),
        ("(answer 1)(term $a)(size 1)(node 0 $a)(node 2 $p 0)", 38, 2),
        (
            "(answer 1)(term $a)(size 1)(node 0 $a)(step 1 T 0 0 (1) ())",
            46,
            2,
        ),
    ];
    assert_bad(&rt, rt.alloc(), &cases)
}

#[test]
fn a_wrong_number(rt: HostRuntime) -> Result<(), Fail> {
    let cases = [
        ("(answer 1)(term $a)(size 18446744073709551616)", 25, 3),
        ("(answer 1)(term $a)(size 1)(node 1 $a)", 33, 3),
        ("(answer 1)(term $a)(size 1)(node 0 $p 0 0)", 38, 3),
        (
            "(answer 1)(term $a)(size 1)(node 0 $a)(step 1 S 0 0 (1) ())",
            44,
            3,
        ),
        (
            "(answer 1)(term $a)(size 1)(node 0 $a)(step 0 S 1 0 (1) ())",
            48,
            3,
        ),
        (
            "(answer 1)(term $a)(size 1)(node 0 $a)(step 0 S 0 18446744073709551616 (1) ())",
            50,
            3,
        ),
        (
            "(answer 1)(term $a)(size 1)(node 0 $a)(step 0 S 0 0 (1) (18446744073709551616))",
            57,
            3,
        ),
        (
            "(answer 1)(term $a)(size 1)(node 0 $a)(step 0 S 0 0 (1) ())(derived 1 0)",
            68,
            3,
        ),
    ];
    assert_bad(&rt, rt.alloc(), &cases)
}

#[test]
fn a_value_out_of_range(rt: HostRuntime) -> Result<(), Fail> {
    let cases = [
        (
            "(answer 1)(term $a)(size 1)(node 0 $a)(step 0 S 0 0 (170141183460469231731687303715884105728) ())",
            53,
            3,
        ),
        (
            "(answer 1)(term $a)(size 1)(node 0 $a)(step 0 S 0 0 ((- 170141183460469231731687303715884105729)) ())",
            53,
            3,
        ),
    ];
    assert_bad(&rt, rt.alloc(), &cases)
}

/// A node of size 2^32 - 1, and one of size 2^33 - 1.
#[test]
fn a_node_that_is_too_large(rt: HostRuntime) -> Result<(), Fail> {
    let cases = [
        (
            "(answer 1)(term $a)(size 1)(node 0 $a)(node 1 $p 0 0)(node 2 $p 1 1)(node 3 $p 2 2)(node 4 $p 3 3)(node 5 $p 4 4)(node 6 $p 5 5)(node 7 $p 6 6)(node 8 $p 7 7)(node 9 $p 8 8)(node 10 $p 9 9)(node 11 $p 10 10)(node 12 $p 11 11)(node 13 $p 12 12)(node 14 $p 13 13)(node 15 $p 14 14)(node 16 $p 15 15)(node 17 $p 16 16)(node 18 $p 17 17)(node 19 $p 18 18)(node 20 $p 19 19)(node 21 $p 20 20)(node 22 $p 21 21)(node 23 $p 22 22)(node 24 $p 23 23)(node 25 $p 24 24)(node 26 $p 25 25)(node 27 $p 26 26)(node 28 $p 27 27)(node 29 $p 28 28)(node 30 $p 29 29)(node 31 $p 30 30)",
            567,
            1,
        ),
        (
            "(answer 1)(term $a)(size 1)(node 0 $a)(node 1 $p 0 0)(node 2 $p 1 1)(node 3 $p 2 2)(node 4 $p 3 3)(node 5 $p 4 4)(node 6 $p 5 5)(node 7 $p 6 6)(node 8 $p 7 7)(node 9 $p 8 8)(node 10 $p 9 9)(node 11 $p 10 10)(node 12 $p 11 11)(node 13 $p 12 12)(node 14 $p 13 13)(node 15 $p 14 14)(node 16 $p 15 15)(node 17 $p 16 16)(node 18 $p 17 17)(node 19 $p 18 18)(node 20 $p 19 19)(node 21 $p 20 20)(node 22 $p 21 21)(node 23 $p 22 22)(node 24 $p 23 23)(node 25 $p 24 24)(node 26 $p 25 25)(node 27 $p 26 26)(node 28 $p 27 27)(node 29 $p 28 28)(node 30 $p 29 29)(node 31 $p 30 30)(node 32 $p 31 31)",
            567,
            3,
        ),
    ];
    assert_bad(&rt, rt.alloc(), &cases)
}
