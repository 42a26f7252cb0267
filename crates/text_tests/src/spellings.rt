use crate::judging::printed;
use example_files::{SPELLED, SPELLED_AGAIN};
use sig_core::Bytes;
use std::alloc::{AllocError, Global};
use std::process::Abort;
use std::test::Fail;

/// Infos after other commands, branches, existentials in two lists, a grammar of its own, calls taken apart.
const NESTED: &str = "(declare-term-types ((E 0)) (($0 $x ($+ E E))))
(set-info :format-version \"2.0.0\")
(define-funs-rec ((S ((t E) (x Int) (r Int)) Bool))
 ((! (match t (
   ($0 (or (= r 0) (and (= r 1) (= 1 r))))
   (($+ u v) (exists ((a Int)) (exists ((b Int))
     (and (S u x a) (and (S v x b) (< a b)) (= (+ a b) r)))))))
  :input (x) :output (r))))
(synth-fun f () E ((A E)) ((A E (($+ A A) $x))))
(constraint (and (S f 1 2) (S f (- 3) -0)))
(set-info :status)
(check-synth)
";

const NESTED_AGAIN: &str = "(set-info :format-version \"2.0.0\")
(set-info :status)
(declare-term-types ((E 0)) (($0 $x ($+ E E))))
(define-funs-rec ((S ((t E) (x Int) (r Int)) Bool)) ((! (match t (($0 (and (= r 0))) ($0 (and (= r 1) (= 1 r))) (($+ u v) (exists ((a Int) (b Int)) (and (S u x a) (S v x b) (< a b) (= r (+ a b))))))) :input (x) :output (r))))
(synth-fun f () E ((A E)) ((A E (($+ A A) $x))))
(constraint (S f 1 2))
(constraint (S f (- 3) 0))
(check-synth)
";

/// No relation, and the grammar of all terms written out.
const WRITTEN_OUT: &str = "(declare-term-types ((E 0) (F 0)) ((a) (|b c| (d E F))))
(synth-fun f () F ((F F) (E E)) ((F F (|b c| (d E F))) (E E (a))))
(check-synth)
";

const LEFT_OUT: &str = "(declare-term-types ((E 0) (F 0)) ((a) (|b c| (d E F))))
(synth-fun f () F)
(check-synth)
";

/// Names in bars, a term between other parameters, a relation of a term alone.
const NAMED: &str = "(declare-term-types ((|e e| 0)) ((a (b |e e|))))
(define-funs-rec ((|R 1| ((x Int) (t |e e|) (|y y| Bool)) Bool) (Q ((t |e e|)) Bool))
 ((! (match t ((a (= |y y| (< x 0))) ((b |u u|) (|R 1| (- x 1) |u u| |y y|)))) :input (x) :output (|y y|))
  (! (match t ((a true) ((b u) (Q u)))) :input () :output ())))
(synth-fun |f f| () |e e|)
(constraint (and (|R 1| 3 |f f| true) (Q |f f|)))
(check-synth)
";

const NAMED_AGAIN: &str = "(declare-term-types ((|e e| 0)) ((a (b |e e|))))
(define-funs-rec ((|R 1| ((x Int) (t |e e|) (|y y| Bool)) Bool) (Q ((t |e e|)) Bool)) ((! (match t ((a (and (= |y y| (< x 0)))) ((b |u u|) (and (|R 1| (- x 1) |u u| |y y|))))) :input (x) :output (|y y|)) (! (match t ((a (and true)) ((b u) (and (Q u))))) :input () :output ())))
(synth-fun |f f| () |e e|)
(constraint (|R 1| 3 |f f| true))
(constraint (Q |f f|))
(check-synth)
";

/// A type named as a constructor, and the whole grammar.
const TYPE_AND_CONSTRUCTOR: &str = "(declare-term-types ((E 0)) ((E)))
(synth-fun f () E)
(check-synth)
";

/// The productions of the whole grammar in another order.
const REORDERED: &str = "(declare-term-types ((E 0)) ((a b)))
(synth-fun f () E ((E E)) ((E E (b a))))
(check-synth)
";

/// An info without value alone, and the least number.
const LEAST_NUMBER: &str = "(set-info :unused)
(declare-term-types ((E 0)) ((a)))
(define-funs-rec ((S ((t E) (r Int)) Bool))
 ((! (match t ((a (= r -170141183460469231731687303715884105728)))) :input () :output (r))))
(synth-fun f () E)
(constraint (S f -170141183460469231731687303715884105728))
(check-synth)
";

const LEAST_NUMBER_AGAIN: &str = "(set-info :unused)
(declare-term-types ((E 0)) ((a)))
(define-funs-rec ((S ((t E) (r Int)) Bool)) ((! (match t ((a (and (= r (- 170141183460469231731687303715884105728)))))) :input () :output (r))))
(synth-fun f () E)
(constraint (S f (- 170141183460469231731687303715884105728)))
(check-synth)
";

fn is_text(found: Option<&Bytes>, text: &str) -> bool {
    match found {
        Some(found) => found.as_slice() == text.as_bytes(),
        None => false,
    }
}

/// Whether each file is printed as the text beside it.
fn check_printed(rt: &impl Abort, alloc: Global, cases: &[(&str, &str)]) -> Result<(), AllocError> {
    for (file, text) in cases {
        let found = printed(rt, alloc, file.as_bytes())?;
        assert!(rt; is_text(found.as_ref(), text), "{file}");
    }
    Ok(())
}

#[test]
fn canonical_texts(rt: HostRuntime) -> Result<(), Fail> {
    let cases = [
        (SPELLED, SPELLED_AGAIN),
        (NESTED, NESTED_AGAIN),
        (NAMED, NAMED_AGAIN),
        (WRITTEN_OUT, LEFT_OUT),
        (LEAST_NUMBER, LEAST_NUMBER_AGAIN),
    ];
    check_printed(&rt, rt.alloc(), &cases)?;
    Ok(())
}

#[test]
fn canonical_texts_are_printed_as_they_are(rt: HostRuntime) -> Result<(), Fail> {
    let cases = [
        (SPELLED_AGAIN, SPELLED_AGAIN),
        (NESTED_AGAIN, NESTED_AGAIN),
        (NAMED_AGAIN, NAMED_AGAIN),
        (LEFT_OUT, LEFT_OUT),
        (TYPE_AND_CONSTRUCTOR, TYPE_AND_CONSTRUCTOR),
        (REORDERED, REORDERED),
        (LEAST_NUMBER_AGAIN, LEAST_NUMBER_AGAIN),
    ];
    check_printed(&rt, rt.alloc(), &cases)?;
    Ok(())
}
