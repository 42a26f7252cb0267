use crate::commands::name_of;
use std::alloc::{AllocError, Global};
use std::process::Abort;
use std::test::Fail;
use syntax_core::{Fault, Head};

/// A text, and the place and the reason of its first wrong name.
type Case = (&'static str, u32, u8);

/// Ends the test unless each text has its wrong name at this place, for this reason.
fn check_names(
    rt: &impl Abort,
    alloc: Global,
    command: Head,
    cases: &[Case],
) -> Result<(), AllocError> {
    for (text, place, reason) in cases {
        let fault = Fault {
            place: *place,
            reason: *reason,
            limit: 0,
        };
        assert_eq!(rt;
            name_of(alloc, command, text.as_bytes())?,
            Some(fault),
            "{text}"
        );
    }
    Ok(())
}

#[test]
fn names_of_types(rt: HostRuntime) -> Result<(), Fail> {
    let cases = [
        ("(declare-term-types ((E 0)) (()))", 22, 21),
        ("(declare-term-types ((Int 0)) (()))", 22, 21),
        ("(declare-term-types ((F 0) (F 0)) (() ()))", 28, 21),
        ("(declare-term-types ((F 0)) (($b $b)))", 33, 21),
        ("(declare-term-types ((F 0)) (($a)))", 30, 21),
        ("(declare-term-types ((F 0) (G 0)) ((($b G H)) ()))", 42, 20),
    ];
    check_names(&rt, rt.alloc(), Head::DeclareTermTypes, &cases)?;
    Ok(())
}

const OF_FUNCTIONS: [Case; 12] = [
    (
        "(define-funs-rec ((and ((t E)) Bool)) ((! (match t ()) :input () :output ())))",
        19,
        21,
    ),
    (
        "(define-funs-rec ((S ((t E)) Bool) (S ((t E)) Bool)) ((! (match t ()) :input () :output ()) (! (match t ()) :input () :output ())))",
        36,
        21,
    ),
    (
        "(define-funs-rec ((S ((t E) (t Int)) Bool)) ((! (match t ()) :input () :output ())))",
        29,
        21,
    ),
    (
        "(define-funs-rec ((S ((t E) (not Int)) Bool)) ((! (match t ()) :input () :output ())))",
        29,
        21,
    ),
    (
        "(define-funs-rec ((S ((t F)) Bool)) ((! (match t ()) :input () :output ())))",
        25,
        20,
    ),
    (
        "(define-funs-rec ((S ((t E) (r Int)) Bool)) ((! (match t ()) :input () :output ())))",
        45,
        20,
    ),
    (
        "(define-funs-rec ((S ((t E) (r Int)) Bool)) ((! (match r ()) :input () :output (r))))",
        55,
        20,
    ),
    (
        "(define-funs-rec ((S ((t E) (r Int)) Bool)) ((! (match t (($b true))) :input () :output (r))))",
        59,
        20,
    ),
    (
        "(define-funs-rec ((S ((t E) (r Int)) Bool)) ((! (match t ((($+ u r) true))) :input () :output (r))))",
        65,
        21,
    ),
    (
        "(define-funs-rec ((S ((t E) (r Int)) Bool)) ((! (match t ((($+ u u) true))) :input () :output (r))))",
        65,
        21,
    ),
    (
        "(define-funs-rec ((S ((t E) (r Int)) Bool)) ((! (match t ()) :input (t) :output (r))))",
        69,
        20,
    ),
    (
        "(define-funs-rec ((S ((t E) (r Int)) Bool)) ((! (match t ()) :input (r) :output (r))))",
        81,
        21,
    ),
];

#[test]
fn names_of_functions(rt: HostRuntime) -> Result<(), Fail> {
    check_names(&rt, rt.alloc(), Head::DefineFunsRec, &OF_FUNCTIONS)?;
    Ok(())
}

const IN_BODIES: [Case; 8] = [
    (
        "(define-funs-rec ((S ((t E) (r Int)) Bool)) ((! (match t ((($+ u w) (exists ((u Int)) true)))) :input () :output (r))))",
        78,
        21,
    ),
    (
        "(define-funs-rec ((S ((t E) (r Int)) Bool)) ((! (match t ((($+ u w) (exists ((v E)) true)))) :input () :output (r))))",
        80,
        20,
    ),
    (
        "(define-funs-rec ((S ((t E) (r Int)) Bool)) ((! (match t ((($+ u w) (exists ((v Int)) (exists ((v Int)) true))))) :input () :output (r))))",
        96,
        21,
    ),
    (
        "(define-funs-rec ((S ((t E) (r Int)) Bool)) ((! (match t ((($+ u w) (= r v)))) :input () :output (r))))",
        73,
        20,
    ),
    (
        "(define-funs-rec ((S ((t E) (r Int)) Bool)) ((! (match t ((($+ u w) (f r)))) :input () :output (r))))",
        69,
        20,
    ),
    (
        "(define-funs-rec ((S ((t E) (r Int)) Bool)) ((! (match t ((($+ u w) (= r -01)))) :input () :output (r))))",
        73,
        20,
    ),
    (
        "(define-funs-rec ((S ((t E) (r Int)) Bool)) ((! (match t ((($+ u w) (and (S u 1) (= r (ite true r q)))))) :input () :output (r))))",
        98,
        20,
    ),
    (
        "(define-funs-rec ((S ((t E) (r Int)) Bool)) ((! (match t ((($+ u w) (or (exists ((v Int)) true) (= r v))))) :input () :output (r))))",
        101,
        20,
    ),
];

#[test]
fn names_in_bodies(rt: HostRuntime) -> Result<(), Fail> {
    check_names(&rt, rt.alloc(), Head::DefineFunsRec, &IN_BODIES)?;
    Ok(())
}

#[test]
fn names_of_grammars(rt: HostRuntime) -> Result<(), Fail> {
    let cases = [
        ("(synth-fun f () F)", 16, 20),
        ("(synth-fun f () E (($a E)) ((A E ())))", 20, 21),
        ("(synth-fun f () E ((A E) (A E)) (a b))", 26, 21),
        ("(synth-fun f () E ((A F)) (a))", 22, 20),
        ("(synth-fun f () E ((A E)) ((B E ())))", 28, 20),
        ("(synth-fun f () E ((A E)) ((A F ())))", 30, 20),
        ("(synth-fun f () E ((A E)) ((A E (A))))", 33, 13),
        ("(synth-fun f () E ((A E)) ((A E (B))))", 33, 20),
        ("(synth-fun f () E ((A E)) ((A E (($b A A)))))", 34, 20),
        ("(synth-fun f () E ((A E)) ((A E (($+ A $a)))))", 39, 13),
        ("(synth-fun f () E ((A E)) ((A E (($+ A (b))))))", 39, 13),
        ("(synth-fun f () E ((A E)) ((A E (($+ A B)))))", 39, 20),
    ];
    check_names(&rt, rt.alloc(), Head::SynthFun, &cases)?;
    Ok(())
}

#[test]
fn names_of_examples(rt: HostRuntime) -> Result<(), Fail> {
    let cases = [("(constraint (and (S f)))", 18, 20)];
    check_names(&rt, rt.alloc(), Head::Constraint, &cases)?;
    Ok(())
}

#[test]
fn names_that_are_right(rt: HostRuntime) -> Result<(), Fail> {
    let cases = [
        (
            Head::DeclareTermTypes,
            "(declare-term-types ((F 0) (G 0)) ((($b G E)) ()))",
        ),
        (
            Head::DefineFunsRec,
            "(define-funs-rec ((S ((t E) (r Int)) Bool)) ((! (match t ((($+ u w) (or (exists ((v Int)) (= v r)) (exists ((v Int)) (and (S u v) (= r -12))))))) :input () :output (r))))",
        ),
        (
            Head::SynthFun,
            "(synth-fun Int () E ((A E)) ((A E ($a ($+ A A)))))",
        ),
        (Head::SetInfo, "(set-info :a)"),
        (Head::CheckSynth, "(check-synth)"),
    ];
    for (command, text) in cases {
        assert!(rt;
            name_of(rt.alloc(), command, text.as_bytes())?.is_none(),
            "{text}"
        );
    }
    Ok(())
}
