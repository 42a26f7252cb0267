//! Small files, with the status and the output that are due.
use crate::files::TINY_WITH_2;
use crate::running::check;
use example_files::{TINY, TINY_ANSWER, TWICE};
use semgus_app::{Fault, Status, Which};
use std::test::Fail;

/// Texts of files, with the status and the output of `solve` with bounds of 1.
const ANSWERS: [(&str, Status, &str); 9] = [
    (TINY, Status::Found, TINY_ANSWER),
    (TINY_WITH_2, Status::NoTerm, "none\n"),
    // Two rules of one constructor, with different outputs.
    (
        TWICE,
        Status::Found,
        "(answer 1)\n(term $c)\n(size 1)\n(node 0 $c)\n(step 0 S 0 0 (0) ())\n(step 1 S 0 1 (1) ())\n(derived 0 0)\n(derived 1 1)\n",
    ),
    // Two facts with one input.
    (
        "(declare-term-types ((E 0)) (($c)))
(define-funs-rec ((S ((t E) (x Int) (r Int)) Bool)) ((! (match t (($c (= r 0)) ($c (= r 1)))) :input (x) :output (r))))
(synth-fun f () E)
(constraint (S f 5 0))
(constraint (S f 5 1))
(check-synth)",
        Status::Found,
        "(answer 1)\n(term $c)\n(size 1)\n(node 0 $c)\n(step 0 S 0 0 (5 0) ())\n(step 1 S 0 1 (5 1) ())\n(derived 0 0)\n(derived 1 1)\n",
    ),
    // Both constructors solve, and the case of the first comes last.
    (
        "(declare-term-types ((E 0)) (($a $b)))
(define-funs-rec ((S ((t E) (r Int)) Bool)) ((! (match t (($b (= r 1)) ($a (= r 1)))) :input () :output (r))))
(synth-fun f () E)
(constraint (S f 1))
(check-synth)",
        Status::Found,
        TINY_ANSWER,
    ),
    // The last of the constructors solves, by an input; one of them has no case.
    (
        "(declare-term-types ((E 0)) (($a ($b) $d $c)))
(define-funs-rec ((S ((t E) (x Int) (y Int) (r Int)) Bool)) ((! (match t (($a (= r 1)) (($b) (= r x)) ($c (= r y)))) :input (x y) :output (r))))
(synth-fun f () E)
(constraint (S f 7 170141183460469231731687303715884105727 170141183460469231731687303715884105727))
(check-synth)",
        Status::Found,
        "(answer 1)\n(term $c)\n(size 1)\n(node 0 $c)\n(step 0 S 0 0 (7 170141183460469231731687303715884105727 170141183460469231731687303715884105727) ())\n(derived 0 0)\n",
    ),
    // The last of 50 constructors solves, by the last of three inputs.
    (
        "(declare-term-types ((E 0)) (($c0 $c1 $c2 $c3 $c4 $c5 $c6 $c7 $c8 $c9 $c10 $c11 $c12 $c13 $c14 $c15 $c16 $c17 $c18 $c19 $c20 $c21 $c22 $c23 $c24 $c25 $c26 $c27 $c28 $c29 $c30 $c31 $c32 $c33 $c34 $c35 $c36 $c37 $c38 $c39 $c40 $c41 $c42 $c43 $c44 $c45 $c46 $c47 $c48 $c49)))
(define-funs-rec ((S ((t E) (x Int) (y Int) (z Int) (r Int)) Bool)) ((! (match t (($c0 (= r 0)) ($c1 (= r 1)) ($c2 (= r 2)) ($c3 (= r 3)) ($c4 (= r 4)) ($c5 (= r 5)) ($c6 (= r 6)) ($c7 (= r 7)) ($c8 (= r 8)) ($c9 (= r 9)) ($c10 (= r 10)) ($c11 (= r 11)) ($c12 (= r 12)) ($c13 (= r 13)) ($c14 (= r 14)) ($c15 (= r 15)) ($c16 (= r 16)) ($c17 (= r 17)) ($c18 (= r 18)) ($c19 (= r 19)) ($c20 (= r 20)) ($c21 (= r 21)) ($c22 (= r 22)) ($c23 (= r 23)) ($c24 (= r 24)) ($c25 (= r 25)) ($c26 (= r 26)) ($c27 (= r 27)) ($c28 (= r 28)) ($c29 (= r 29)) ($c30 (= r 30)) ($c31 (= r 31)) ($c32 (= r 32)) ($c33 (= r 33)) ($c34 (= r 34)) ($c35 (= r 35)) ($c36 (= r 36)) ($c37 (= r 37)) ($c38 (= r 38)) ($c39 (= r 39)) ($c40 (= r 40)) ($c41 (= r 41)) ($c42 (= r 42)) ($c43 (= r 43)) ($c44 (= r 44)) ($c45 (= r 45)) ($c46 (= r 46)) ($c47 (= r 47)) ($c48 (= r 48)) ($c49 (= r z)))) :input (x y z) :output (r))))
(synth-fun f () E)
(constraint (S f 7 8 99 99))
(check-synth)",
        Status::Found,
        "(answer 1)\n(term $c49)\n(size 1)\n(node 0 $c49)\n(step 0 S 0 0 (7 8 99 99) ())\n(derived 0 0)\n",
    ),
    // Without constraints the first term solves.
    (
        "(declare-term-types ((E 0)) (($a $b)))
(define-funs-rec ((S ((t E) (r Int)) Bool)) ((! (match t ()) :input () :output (r))))
(synth-fun f () E)
(check-synth)",
        Status::Found,
        "(answer 1)\n(term $a)\n(size 1)\n(node 0 $a)\n",
    ),
    (
        "(declare-term-types ((E 0)) (()))
(define-funs-rec ((S ((t E) (r Int)) Bool)) ((! (match t ()) :input () :output (r))))
(synth-fun f () E)
(check-synth)",
        Status::NoTerm,
        "none\n",
    ),
];

/// Texts that are refused, with the place, the reason and the line.
const REFUSALS: [(&str, u32, u8, &str); 7] = [
    ("", 0, 60, "refused 0 60\n"),
    ("(", 1, 3, "refused 1 3\n"),
    (
        "(declare-term-types ((E 0)) (($a)))
(define-funs-rec ((S ((t E) (r Int)) Bool)) ((! (match t (($a (exists ((v Int)) (= r 1))))) :input () :output (r))))
",
        107,
        42,
        "refused 107 42\n",
    ),
    (
        "(declare-term-types ((E 0)) (($a)))
(define-funs-rec ((S ((t E) (x Int) (r Int)) Bool)) ((! (match t (($a (exists ((v Int)) (and (S t v r) (= v 1)))))) :input (x) :output (r))))
",
        129,
        40,
        "refused 129 40\n",
    ),
    (
        "(declare-term-types ((E 0)) (($a)))
(define-funs-rec ((S ((t E) (r Int)) Bool)) ((! (match t (($a (= r 1)))) :input () :output (r))))
(synth-fun f () E)
(constraint (forall ((r Int)) (S f r)))
(check-synth)
",
        165,
        10,
        "refused 165 10\n",
    ),
    (
        "(declare-term-types ((E 0)) (($a)))
(define-funs-rec ((S ((t E) (r Int)) Bool)) ((! (match t (($a (= r 1)))) :input () :output (r))))
(synth-fun f () E)
(constraint (S f 170141183460469231731687303715884105728))
(check-synth)
",
        170,
        31,
        "refused 170 31\n",
    ),
    (
        "(declare-term-types ((E 0)) (($a $a)))",
        33,
        21,
        "refused 33 21\n",
    ),
];

#[test]
fn files_are_answered(rt: HostRuntime) -> Result<(), Fail> {
    for (text, status, output) in ANSWERS {
        check(&rt, rt.alloc(), "solve p.sl 1 1", text, status, output)?;
    }
    Ok(())
}

/// The status of a problem file that is refused.
fn refused(place: u32, reason: u8) -> Status {
    Status::Refused(
        Which::Problem,
        Fault {
            place,
            reason,
            limit: 0,
        },
    )
}

#[test]
fn files_are_refused(rt: HostRuntime) -> Result<(), Fail> {
    for (text, place, reason, output) in REFUSALS {
        let status = refused(place, reason);
        check(&rt, rt.alloc(), "solve p.sl 1 1", text, status, output)?;
    }
    Ok(())
}
