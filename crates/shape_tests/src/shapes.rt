use spelling_tests::forms_of;
use std::alloc::{AllocError, Global};
use std::process::Abort;
use std::test::Fail;
use syntax_core::{Fault, Order, command_head};

/// The refusal of the first command of the text that is refused, if one is. No text here spells nothing.
fn fault_of(alloc: Global, text: &[u8]) -> Result<Option<Fault>, AllocError> {
    if text.len() > 1000 {
        return Ok(None);
    }
    let Some(forms) = forms_of(alloc, text)? else {
        return Ok(None);
    };
    let mut order = Order::new();
    for k in 0..forms.len() {
        let Some(form) = forms.get(k) else {
            break;
        };
        match command_head(order, form) {
            Ok(command) => order = order.after(command),
            Err(fault) => return Ok(Some(fault)),
        }
    }
    Ok(None)
}

/// Whether the text is refused at the place and for the reason.
fn is_refused(alloc: Global, text: &str, place: u32, reason: u8) -> Result<bool, AllocError> {
    let fault = Fault {
        place,
        reason,
        limit: 0,
    };
    Ok(fault_of(alloc, text.as_bytes())? == Some(fault))
}

/// A text, and the place and the reason of its refusal.
type Case = (&'static str, u32, u8);

/// Ends the test unless each text is refused at its place and for its reason.
fn check_refused(rt: &impl Abort, alloc: Global, cases: &[Case]) -> Result<(), AllocError> {
    for (text, place, reason) in cases {
        assert!(rt; is_refused(alloc, text, *place, *reason)?, "{text}");
    }
    Ok(())
}

#[test]
fn words_and_order(rt: HostRuntime) -> Result<(), Fail> {
    let cases = [
        ("5", 0, 10),
        ("()", 0, 10),
        ("(5)", 0, 10),
        ("((a))", 0, 10),
        ("(solve)", 1, 11),
        ("(check-synth)", 0, 12),
        ("(constraint (S f 1))", 0, 12),
        ("(synth-fun f () E)(synth-fun f () E)", 18, 12),
        (
            "(synth-fun f () E)(declare-term-types ((E 0)) (($a)))",
            18,
            12,
        ),
        ("(synth-fun f () E)(check-synth)(set-info :a)", 31, 12),
    ];
    check_refused(&rt, rt.alloc(), &cases)?;
    Ok(())
}

const DECLARATIONS: [Case; 21] = [
    ("(set-info)", 0, 10),
    ("(set-info a)", 10, 10),
    ("(set-info :a b c)", 0, 10),
    ("(declare-term-types ((E 0)))", 0, 10),
    ("(declare-term-types ((E 0)) ())", 0, 10),
    ("(declare-term-types x ())", 20, 10),
    ("(declare-term-types (E) (()))", 21, 10),
    ("(declare-term-types ((E 1)) (()))", 24, 10),
    ("(declare-term-types ((E 0)) ($a))", 29, 10),
    ("(declare-term-types ((E 0)) ((())))", 30, 10),
    ("(declare-term-types ((E 0)) (($a (0))))", 34, 10),
    ("(define-funs-rec ((S () Bool)) ())", 0, 10),
    ("(define-funs-rec ((S () Int)) ((a)))", 24, 10),
    ("(define-funs-rec ((S ())) ((a)))", 18, 10),
    (
        "(define-funs-rec ((S ((t E)) Bool)) ((! (match t ()) :input () :input ())))",
        37,
        10,
    ),
    (
        "(define-funs-rec ((S ((t E)) Bool)) ((let (match t ()) :input () :output ())))",
        37,
        10,
    ),
    (
        "(define-funs-rec ((S ((t E)) Bool)) ((! (match t ()) :input x :output ())))",
        60,
        10,
    ),
    (
        "(define-funs-rec ((S ((t E)) Bool)) ((! (match t ()) :input (x 1) :output ())))",
        63,
        10,
    ),
    (
        "(define-funs-rec ((S ((t E)) Bool)) ((! (case t ()) :input () :output ())))",
        40,
        10,
    ),
    (
        "(define-funs-rec ((S ((t E)) Bool)) ((! (match t (($a))) :input () :output ())))",
        50,
        10,
    ),
    (
        "(define-funs-rec ((S ((t E)) Bool)) ((! (match t ((($a 1) true))) :input () :output ())))",
        55,
        10,
    ),
];

#[test]
fn shapes_of_declarations(rt: HostRuntime) -> Result<(), Fail> {
    check_refused(&rt, rt.alloc(), &DECLARATIONS)?;
    Ok(())
}

const BODIES: [Case; 9] = [
    (
        "(define-funs-rec ((S ((t E)) Bool)) ((! (match t (($a (or)))) :input () :output ())))",
        54,
        10,
    ),
    (
        "(define-funs-rec ((S ((t E)) Bool)) ((! (match t (($a (exists ((x Int)))))) :input () :output ())))",
        54,
        10,
    ),
    (
        "(define-funs-rec ((S ((t E)) Bool)) ((! (match t (($a (exists ((x)) true)))) :input () :output ())))",
        63,
        10,
    ),
    (
        "(define-funs-rec ((S ((t E)) Bool)) ((! (match t (($a (and (exists () true))))) :input () :output ())))",
        59,
        10,
    ),
    (
        "(define-funs-rec ((S ((t E)) Bool)) ((! (match t (($a (and true ((f) 1))))) :input () :output ())))",
        65,
        10,
    ),
    (
        "(define-funs-rec ((S ((t E)) Bool)) ((! (match t (($a (forall () true)))) :input () :output ())))",
        54,
        10,
    ),
    (
        "(define-funs-rec ((S ((t E)) Bool)) ((! (match t (($a (= r (abs 1 2))))) :input () :output ())))",
        59,
        10,
    ),
    (
        "(define-funs-rec ((S ((t E)) Bool)) ((! (match t (($a (S t :a)))) :input () :output ())))",
        59,
        10,
    ),
    (
        "(define-funs-rec ((S ((t E)) Bool)) ((! (match t (($a (or true (and true (not)))))) :input () :output ())))",
        73,
        10,
    ),
];

#[test]
fn shapes_of_bodies(rt: HostRuntime) -> Result<(), Fail> {
    check_refused(&rt, rt.alloc(), &BODIES)?;
    Ok(())
}

#[test]
fn shapes_of_grammars_and_examples(rt: HostRuntime) -> Result<(), Fail> {
    let cases = [
        ("(synth-fun f x E)", 13, 10),
        ("(synth-fun f (x) E)", 13, 10),
        ("(synth-fun f () E ())", 0, 10),
        ("(synth-fun f () E () ())", 0, 10),
        ("(synth-fun f () E ((A E)) ())", 0, 10),
        ("(synth-fun f () E ((A E)) ((A E)))", 27, 10),
        ("(synth-fun f () E ((A E)) ((A E ($a 1))))", 36, 10),
        ("(synth-fun f () E)(constraint c)", 30, 10),
        ("(synth-fun f () E)(constraint (and))", 30, 10),
        ("(synth-fun f () E)(constraint (or (S f)))", 30, 10),
        (
            "(synth-fun f () E)(constraint (and (S f) (forall ((r Int)) (S f r))))",
            41,
            10,
        ),
        ("(synth-fun f () E)(constraint (S f (+ 1)))", 35, 10),
        ("(synth-fun f () E)(constraint (S f (- x)))", 38, 10),
        ("(synth-fun f () E)(constraint (S f (- 1 2)))", 35, 10),
        ("(synth-fun f () E)(check-synth x)", 18, 10),
    ];
    check_refused(&rt, rt.alloc(), &cases)?;
    Ok(())
}

#[test]
fn shapes_that_fit(rt: HostRuntime) -> Result<(), Fail> {
    let texts = [
        "(set-info :a)(set-info :a (1 (b)))(declare-term-types ((E 0)) (($a)))",
        "(define-funs-rec ((S ((t E)) Bool)) ((! (match t (($a (or true (and) (exists ((x Int)) (and (and) (S t x) (= r 1))))))) :input () :output ())))",
        "(define-funs-rec ((S ((t E)) Bool)) ((! (match t (($a x))) :input () :output ())))",
        "(define-funs-rec ((S ((t E)) Bool)) ((! (match t (($a 1))) :input () :output ())))",
        "(define-funs-rec ((S ((t E)) Bool)) ((! (match t (($a (or (and (or a b) (f)))))) :input () :output ())))",
        "(synth-fun f () E ((A E) (B E)) ((A E ()) (B E ($a ($b A (c))))))",
        "(synth-fun f () E)(set-info :a)(constraint (and (S f 1) (and (S f (- 2) x))))(check-synth)",
    ];
    for text in texts {
        assert!(rt; fault_of(rt.alloc(), text.as_bytes())?.is_none(), "{text}");
    }
    Ok(())
}

/// A constraint under a quantifier, in a file that is right but for it.
#[test]
fn a_quantifier_is_no_example(rt: HostRuntime) -> Result<(), Fail> {
    let text = "(declare-term-types ((E 0)) (($a)))\n\
        (define-funs-rec ((S ((t E) (r Int)) Bool)) ((! (match t (($a (= r 1)))) :input () :output (r))))\n\
        (synth-fun f () E)\n\
        (constraint (forall ((r Int)) (S f r)))\n\
        (check-synth)\n";
    assert!(rt; is_refused(rt.alloc(), text, 165, 10)?);
    Ok(())
}
