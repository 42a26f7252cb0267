use crate::checking::{check_refused, check_taken};
use crate::frames::{AFTER_RELATIONS, AFTER_WANTED, FIRST, WHOLE};
use std::test::Fail;

/// Forms that are no lists with a symbol first.
const NO_COMMANDS: [(&str, u8); 9] = [
    ("[abc", 10),
    ("[12", 10),
    ("[\"a\"", 10),
    ("[:a", 10),
    ("[()", 10),
    ("[(12)", 10),
    ("[((set-info :a))", 10),
    ("[(\"set-info\" :a)", 10),
    ("[(:set-info a)", 10),
];

/// Lists whose first symbol is no command.
const UNKNOWN: [(&str, u8); 7] = [
    ("([set-logic LIA)", 11),
    ("([define-fun f () Int 1)", 11),
    ("([exit)", 11),
    ("([and)", 11),
    ("([SET-INFO :a)", 11),
    ("([|| )", 11),
    ("([|set-info | :a)", 11),
];

#[test]
fn forms_that_are_no_commands(rt: HostRuntime) -> Result<(), Fail> {
    check_refused(&rt, rt.alloc(), FIRST, &NO_COMMANDS)?;
    check_refused(&rt, rt.alloc(), FIRST, &UNKNOWN)?;
    Ok(())
}

/// Commands that come before the wanted function though they are due after it.
const TOO_EARLY: [(&str, u8); 4] = [
    ("[(constraint (S f 1))", 12),
    ("[(check-synth)", 12),
    ("[(check-synth:a)", 12),
    ("[(constraint)", 12),
];

/// Commands that come after the wanted function though they are due before it.
const TOO_LATE: [(&str, u8); 5] = [
    ("[(declare-term-types () ())", 12),
    ("[(define-funs-rec () ())", 12),
    ("[(synth-fun g () E)", 12),
    ("[(synth-fun)", 12),
    (
        "(constraint (S f 1))
(set-info :a)
[(define-funs-rec)",
        12,
    ),
];

/// Forms after the last command.
const AFTER_THE_LAST: [(&str, u8); 9] = [
    (
        "(check-synth)
[(set-info :a)",
        12,
    ),
    (
        "(check-synth)
[(declare-term-types () ())",
        12,
    ),
    (
        "(check-synth)
[(define-funs-rec () ())",
        12,
    ),
    (
        "(check-synth)
[(synth-fun f () E)",
        12,
    ),
    (
        "(check-synth)
[(constraint (S f 1))",
        12,
    ),
    (
        "(check-synth)
[(check-synth)",
        12,
    ),
    (
        "(check-synth)
([check-sat)",
        11,
    ),
    (
        "(check-synth)
[0",
        10,
    ),
    (
        "(check-synth)
[(check-synth 1 2)",
        12,
    ),
];

#[test]
fn commands_out_of_their_order(rt: HostRuntime) -> Result<(), Fail> {
    check_refused(&rt, rt.alloc(), AFTER_RELATIONS, &TOO_EARLY)?;
    check_refused(&rt, rt.alloc(), AFTER_WANTED, &TOO_LATE)?;
    check_refused(&rt, rt.alloc(), AFTER_WANTED, &AFTER_THE_LAST)?;
    Ok(())
}

/// Files that end before their last command.
const UNENDED: [(&str, u8); 7] = [
    ("[", 60),
    (" \t\r\n[", 60),
    ("; (check-synth)[", 60),
    (
        "(set-info :a)
[",
        60,
    ),
    (
        "(declare-term-types ((E 0)) (($a)))
[",
        60,
    ),
    (
        "(declare-term-types ((E 0)) (($a)))
(synth-fun f () E)[",
        60,
    ),
    (
        "(declare-term-types ((E 0)) (($a)))
(define-funs-rec ((S ((t E) (r Int)) Bool)) ((! (match t (($a (= r 1)))) :input () :output (r))))
(synth-fun f () E)
(constraint (S f 1))
; (check-synth)
[",
        60,
    ),
];

#[test]
fn files_that_end_too_early(rt: HostRuntime) -> Result<(), Fail> {
    check_refused(&rt, rt.alloc(), WHOLE, &UNENDED)?;
    Ok(())
}

/// The commands in an order that is theirs.
const ORDERED: [&str; 5] = [
    "(declare-term-types ((E 0)) (($a)))
(synth-fun f () E)
(check-synth)",
    "(define-funs-rec () ())
(declare-term-types () ())
(set-info :a)
(declare-term-types ((E 0)) (()))
(define-funs-rec () ())
(set-info :a)
(synth-fun f () E)
(set-info :a)
(check-synth)
",
    "(declare-term-types ((E 0)) (($a)))
(declare-term-types ((F 0)) ((($b E))))
(define-funs-rec ((S ((t E)) Bool)) ((! (match t (($a true))) :input () :output ())))
(define-funs-rec ((T ((t F)) Bool)) ((! (match t ((($b u) (S u)))) :input () :output ())))
(synth-fun f () F)
(constraint (T f))
(set-info :a)
(constraint (T f))
(check-synth)
; nothing comes after it
",
    "(|set-info| :a)
(|declare-term-types| ((|E| 0)) ((|$a|)))
(|synth-fun| |f| () E)
(|check-synth|)
",
    "(set-info :a)(declare-term-types((E 0))(()))(synth-fun f()E)(check-synth)",
];

#[test]
fn commands_in_their_order(rt: HostRuntime) -> Result<(), Fail> {
    check_taken(&rt, rt.alloc(), WHOLE, &ORDERED)?;
    Ok(())
}

/// Files with several faults. The first refused command gives the refusal, and in one command the shape comes before the
/// limits, these before the names, these before the sorts, and these before data flow.
const SEVERAL: [(&str, u8); 6] = [
    (
        "(declare-term-types ((E 0)) (([1)))
(set-logic LIA)
(",
        10,
    ),
    (
        "(declare-term-types ((E 0)) (($a)))
(define-funs-rec ((S ((t E) (r Int)) Bool)) ((! (match t (
   ($a (and (= r q) (= r true)))
   ($a [(exists ((q Int))))))
  :input () :output (r))))",
        10,
    ),
    (
        "(declare-term-types ((E 0)) (($a)))
(define-funs-rec ((S ((t E) (r Int)) Bool)) ((! (match t (
   ($a true)
   ($a (and (S t r) (= r true)))
   ($a (= r [q))))
  :input () :output (r))))",
        20,
    ),
    (
        "(declare-term-types ((E 0)) (($a)))
(define-funs-rec ((S ((t E) (r Int)) Bool)) ((! (match t (
   ($a true)
   ($a (and (S t r) (= r [true)))))
  :input () :output (r))))",
        30,
    ),
    (
        "(declare-term-types ((E 0)) (($a)))
(define-funs-rec ((S ((t E) (r Int)) Bool)) ((! (match t (
   ($a [true)
   ($a (exists ((q Int)) (and (= r q) (= q 1))))))
  :input () :output (r))))",
        41,
    ),
    (
        "(declare-term-types ((E 0)) (($a [$a)))
(declare-term-types ((E 0)) ((1)))",
        21,
    ),
];

#[test]
fn the_first_fault_is_told(rt: HostRuntime) -> Result<(), Fail> {
    check_refused(&rt, rt.alloc(), WHOLE, &SEVERAL)?;
    Ok(())
}
