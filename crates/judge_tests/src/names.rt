use crate::checking::{check_refused, check_taken};
use crate::frames::{AFTER_RELATIONS, AFTER_TYPES, AFTER_WANTED, ATOM, BODY, CASES, FIRST};
use std::test::Fail;

const TYPES: [(&str, u8); 14] = [
    ("(declare-term-types (([E 0)) (()))", 21),
    ("(declare-term-types (([Int 0)) (()))", 21),
    ("(declare-term-types (([Bool 0)) (()))", 21),
    ("(declare-term-types (([|Int| 0)) (()))", 21),
    ("(declare-term-types ((G 0) ([F 0)) (() ()))", 21),
    ("(declare-term-types ((G 0) (H 0) ([G 0)) (() () ()))", 21),
    ("(declare-term-types ((G 0)) ((($c [H))))", 20),
    ("(declare-term-types ((G 0)) ((($c G [Int))))", 20),
    ("(declare-term-types ((G 0)) ((($c E G F [Bool))))", 20),
    (
        "(declare-term-types ((G 0)) ((($c [H))))
(declare-term-types ((H 0)) (()))",
        20,
    ),
    ("(declare-term-types ((G 0)) (([$a)))", 21),
    ("(declare-term-types ((G 0)) ((([$+ G))))", 21),
    ("(declare-term-types ((G 0)) (($c [$c)))", 21),
    (
        "(declare-term-types ((G 0) (H 0)) (($c) ($d ([|$c| H))))",
        21,
    ),
];

const RIGHT_TYPES: [&str; 6] = [
    "(declare-term-types ((G 0) (H 0)) ((($c G H E F)) (($d H G))))",
    "(declare-term-types ((and 0) (true 0) (! 0)) (() () ()))",
    "(declare-term-types ((G 0)) ((G E F Int Bool true and ! _ |a b| || -4 -007)))",
    "(declare-term-types ((|a (b)| 0)) ((($c |a (b)|))))",
    "(declare-term-types ((S 0) (f 0)) ((S) (f)))",
    "(declare-term-types ((int 0) (BOOL 0) (Int. 0)) (() () ()))",
];

#[test]
fn names_of_types(rt: HostRuntime) -> Result<(), Fail> {
    check_refused(&rt, rt.alloc(), AFTER_TYPES, &TYPES)?;
    check_taken(&rt, rt.alloc(), AFTER_TYPES, &RIGHT_TYPES)?;
    Ok(())
}

/// Names of relations, of their parameters, and in the lists of inputs and outputs.
const FUNCTIONS: [(&str, u8); 14] = [
    (
        "(define-funs-rec (([S ((t E)) Bool)) ((! (match t ()) :input () :output ())))",
        21,
    ),
    (
        "(define-funs-rec (([ite ((t E)) Bool)) ((! (match t ()) :input () :output ())))",
        21,
    ),
    (
        "(define-funs-rec (([|Int| ((t E)) Bool)) ((! (match t ()) :input () :output ())))",
        21,
    ),
    (
        "(define-funs-rec ((Q ((t E)) Bool) ([Q ((t E)) Bool))
 ((! (match t ()) :input () :output ()) (! (match t ()) :input () :output ())))",
        21,
    ),
    (
        "(define-funs-rec ((Q ((t E) ([t E)) Bool)) ((! (match t ()) :input () :output ())))",
        21,
    ),
    (
        "(define-funs-rec ((Q ((t E) (x Int) ([x Bool)) Bool)) ((! (match t ()) :input (x) :output ())))",
        21,
    ),
    (
        "(define-funs-rec ((Q (([true E)) Bool)) ((! (match true ()) :input () :output ())))",
        21,
    ),
    (
        "(define-funs-rec ((Q ((t E) ([+ Int)) Bool)) ((! (match t ()) :input () :output (+))))",
        21,
    ),
    (
        "(define-funs-rec ((Q ((t [G)) Bool)) ((! (match t ()) :input () :output ())))",
        20,
    ),
    (
        "(define-funs-rec ((Q ((t E) (x [|int|)) Bool)) ((! (match t ()) :input (x) :output ())))",
        20,
    ),
    (
        "(define-funs-rec ((Q ((t E) (x Int)) Bool)) ((! (match [x ()) :input (x) :output ())))",
        20,
    ),
    (
        "(define-funs-rec ((Q ((t E) (x Int)) Bool)) ((! (match [u ()) :input (x) :output ())))",
        20,
    ),
    (
        "(define-funs-rec ((Q ((x Int)) Bool)) ((! (match [x ()) :input (x) :output ())))",
        20,
    ),
    (
        "(define-funs-rec ((Q ((t E)) Bool) (R ((u E)) Bool))
 ((! (match t ()) :input () :output ()) (! (match [t ()) :input () :output ())))",
        20,
    ),
];

const ATTRIBUTES: [(&str, u8); 10] = [
    (
        "(define-funs-rec ((Q ((t E) (x Int)) Bool)) ([(! (match t ()) :input () :output ())))",
        20,
    ),
    (
        "(define-funs-rec ((Q ((t E) (x Int) (y Int)) Bool)) ([(! (match u ()) :input (x) :output ())))",
        20,
    ),
    (
        "(define-funs-rec ((Q ((t E) (x Int) (y Int)) Bool)) ([(! (match t ()) :input (x x) :output ())))",
        20,
    ),
    (
        "(define-funs-rec ((Q ((t E) (x Int)) Bool)) ((! (match t ()) :input (x [x) :output ())))",
        21,
    ),
    (
        "(define-funs-rec ((Q ((t E) (x Int)) Bool)) ((! (match t ()) :input (x) :output ([x))))",
        21,
    ),
    (
        "(define-funs-rec ((Q ((t E) (x Int)) Bool)) ((! (match t ()) :output (x) :input ([x))))",
        21,
    ),
    (
        "(define-funs-rec ((Q ((t E) (x Int)) Bool)) ((! (match t ()) :input (x [t) :output ())))",
        20,
    ),
    (
        "(define-funs-rec ((Q ((t E) (x Int)) Bool)) ((! (match t ()) :input ([t) :output (x t))))",
        20,
    ),
    (
        "(define-funs-rec ((Q ((t E) (x Int)) Bool)) ((! (match t ()) :input (x) :output ([y))))",
        20,
    ),
    (
        "(define-funs-rec ((Q ((t E) (x Int)) Bool) (R ((t E) (y Int)) Bool))
 ((! (match t ()) :input (x) :output ()) (! (match t ()) :input ([x) :output (y))))",
        20,
    ),
];

const RIGHT_FUNCTIONS: [&str; 5] = [
    "(define-funs-rec ((Q ((t E) (x Int)) Bool) (R ((x E) (t Int)) Bool))
 ((! (match t (($a (R t x)))) :input (x) :output ()) (! (match x (($a (Q x t)))) :input (t) :output ())))",
    "(define-funs-rec ((E ((F E) ($a Int)) Bool)) ((! (match F (($a (= $a 1)))) :input () :output ($a))))",
    "(define-funs-rec ((-4 ((f E) (-5 Int)) Bool)) ((! (match f (($a (= -5 -4)))) :input () :output (-5))))",
    "(define-funs-rec ((|| ((|t t| E) (|| Int)) Bool)) ((! (match |t t| (($a (= || 1)))) :input () :output (||))))",
    "(define-funs-rec ((synth-fun ((t E)) Bool)) ((! (match t (($a (synth-fun t)))) :input () :output ())))",
];

#[test]
fn names_of_functions(rt: HostRuntime) -> Result<(), Fail> {
    check_refused(&rt, rt.alloc(), AFTER_RELATIONS, &FUNCTIONS)?;
    check_refused(&rt, rt.alloc(), AFTER_TYPES, &ATTRIBUTES)?;
    check_taken(&rt, rt.alloc(), AFTER_TYPES, &RIGHT_FUNCTIONS)?;
    Ok(())
}

const PATTERNS: [(&str, u8); 11] = [
    ("([$c (= r x))", 20),
    ("(([E) (= r x))", 20),
    ("(([S u) (= r x))", 20),
    ("([x (= r x))", 20),
    ("(($+ u [u) (= r x))", 21),
    ("(($+ [t u) (= r x))", 21),
    ("(($+ u [r) (= r x))", 21),
    ("(($+ [Int u) (= r x))", 21),
    ("(($g [abs) (= r x))", 21),
    ("(($+ u v [v) (= r x))", 21),
    ("(($a [x) (= r x))", 21),
];

const EXISTENTIALS: [(&str, u8); 13] = [
    ("(exists (([t Int)) (= r x))", 21),
    ("(exists (([x Int)) (= r x))", 21),
    ("(exists (([u Bool)) (= r x))", 21),
    ("(exists ((q Int) ([q Bool)) (= r x))", 21),
    ("(exists ((q Int)) (exists (([q Int)) (= r x)))", 21),
    (
        "(exists ((q Int)) (or (= r x) (exists ((p Int) ([q Int)) (= r x))))",
        21,
    ),
    ("(exists (([false Int)) (= r x))", 21),
    ("(exists (([- Int)) (= r x))", 21),
    ("(exists (([match Int)) (= r x))", 21),
    ("(exists ((q [E)) (= r x))", 20),
    ("(exists ((q [G)) (= r x))", 20),
    ("(exists ((q [int)) (= r x))", 20),
    ("(exists ((q [G) (q Int)) (= r x))", 20),
];

/// Symbols that are no variables in scope, and heads that are no relations.
const SYMBOLS: [(&str, u8); 27] = [
    ("[q", 20),
    ("(= r [q)", 20),
    ("(= [q r)", 20),
    ("(= r [w)", 20),
    ("(= r [S)", 20),
    ("(= r [$a)", 20),
    ("(= r [E)", 20),
    ("(= r [p)", 20),
    ("(= r [Int)", 20),
    ("(= r [exists)", 20),
    ("(= r [-)", 20),
    ("(= r [-x)", 20),
    ("(= r [--4)", 20),
    ("(= r [-4a)", 20),
    ("(= r [-01)", 20),
    ("(= r [-007)", 20),
    ("(= r [+4)", 20),
    ("(= r [|4|)", 20),
    ("(= r [|-4 |)", 20),
    ("(= r [||)", 20),
    ("(= r [TRUE)", 20),
    ("([Q t r)", 20),
    ("([$a)", 20),
    ("(= r ([f 1))", 20),
    ("(not ([Q t r))", 20),
    ("(S u ([Q 1) r)", 20),
    ("(S [w x r)", 20),
];

#[test]
fn names_in_bodies(rt: HostRuntime) -> Result<(), Fail> {
    check_refused(&rt, rt.alloc(), CASES, &PATTERNS)?;
    check_refused(&rt, rt.alloc(), BODY, &EXISTENTIALS)?;
    check_refused(&rt, rt.alloc(), ATOM, &SYMBOLS)?;
    Ok(())
}

/// Variables at places where they aren't in scope.
const OUT_OF_SCOPE: [(&str, u8); 4] = [
    ("(or (exists ((q Int)) (and (= q 1) (= r q))) (= r [q))", 20),
    ("(or (= r [q) (exists ((q Int)) (and (= q 1) (= r q))))", 20),
    (
        "(or (exists ((q Int)) (or (= r x) (exists ((p Int)) (= r x)) (= r [p))) (= r x))",
        20,
    ),
    ("(exists ((q Int)) (and (= q 1) (= r [Q)))", 20),
];

const RIGHT_BODIES: [&str; 8] = [
    "(or (exists ((q Int)) (and (= q 1) (= r q))) (exists ((q Int)) (and (= q 2) (= r q))))",
    "(exists ((p Bool)) (and (= p true) (= r x)))",
    "(exists ((S Int) ($a Int) (E Int)) (and (= S 1) (= $a 1) (= E 1) (S u S r)))",
    "(exists ((-4 Int) (|| Int)) (and (= -4 7) (= || -4) (= r ||)))",
    "(and (= r -4) (= |r| |-4|) (= r -0) |true| (not |false|))",
    "(exists ((f Int) (set-info Int)) (and (= f 1) (= set-info 1) (= r f)))",
    "(exists ((q |Int|) (b |Bool|)) (and (|=| q 1) (= b true) (|S| u q r)))",
    "(exists ((q Int)) (exists ((p Int)) (or (and (= q 1) (= p q) (= r p)) (and (= p 1) (= q p) (= r q)))))",
];

#[test]
fn names_in_scope(rt: HostRuntime) -> Result<(), Fail> {
    check_refused(&rt, rt.alloc(), BODY, &OUT_OF_SCOPE)?;
    check_taken(&rt, rt.alloc(), BODY, &RIGHT_BODIES)?;
    Ok(())
}

const GRAMMARS: [(&str, u8); 18] = [
    ("(synth-fun f () [G)", 20),
    ("(synth-fun f () [Int)", 20),
    ("(synth-fun f () [G ((A G)) ((A G ())))", 20),
    ("(synth-fun f () E (([$a E)) (($a E ())))", 21),
    (
        "(synth-fun f () E ((A E) (B F) ([A F)) ((A E ()) (B F ()) (A F ())))",
        21,
    ),
    ("(synth-fun f () E ((A [G)) ((A G ())))", 20),
    (
        "(synth-fun f () E ((A E) (B [Bool)) ((A E ()) (B F ())))",
        20,
    ),
    ("(synth-fun f () E ((A E) (B F)) (([B F ()) (A E ())))", 20),
    ("(synth-fun f () E ((A E)) (([a E ())))", 20),
    ("(synth-fun f () E ((A E)) ((A [G ())))", 20),
    ("(synth-fun f () E ((A E)) ((A E ([$c))))", 20),
    ("(synth-fun f () E ((A E)) ((A E ($a [E))))", 20),
    ("(synth-fun f () E ((A E)) ((A E (([$c A)))))", 20),
    ("(synth-fun f () E ((A E)) ((A E (([A)))))", 20),
    ("(synth-fun f () E ((A E)) ((A E (($+ A [C)))))", 20),
    ("(synth-fun f () E ((A E)) ((A E ([A))))", 13),
    ("(synth-fun f () E ((A E)) ((A E (($+ A [($+ A A))))))", 13),
    ("(synth-fun f () E ((A E)) ((A E (($+ A [$a)))))", 13),
];

const RIGHT_GRAMMARS: [&str; 5] = [
    "(synth-fun and () E ((E E) (Int F) (true E)) ((E E ($a ($+ E true))) (Int F ($f)) (true E (($g Int)))))",
    "(synth-fun E () E)",
    "(synth-fun -4 () |E| ((|| E)) ((|| E ($a ($+ || ||)))))",
    "(synth-fun S () F ((f F)) ((f F ())))",
    "(synth-fun $a () E ((f E) (S F)) ((f E ($a $a $a)) (S F ())))",
];

#[test]
fn names_of_grammars(rt: HostRuntime) -> Result<(), Fail> {
    check_refused(&rt, rt.alloc(), AFTER_RELATIONS, &GRAMMARS)?;
    check_taken(&rt, rt.alloc(), AFTER_RELATIONS, &RIGHT_GRAMMARS)?;
    Ok(())
}

/// Before any declaration.
const UNDECLARED: [(&str, u8); 4] = [
    ("(synth-fun f () [E)", 20),
    ("(synth-fun f () [Z ((A Z)) ((A Z ())))", 20),
    (
        "(define-funs-rec ((S ((t [E)) Bool)) ((! (match t ()) :input () :output ())))",
        20,
    ),
    ("(declare-term-types ((E 0)) ((($+ E [F))))", 20),
];

#[test]
fn names_before_their_declaration(rt: HostRuntime) -> Result<(), Fail> {
    check_refused(&rt, rt.alloc(), FIRST, &UNDECLARED)?;
    Ok(())
}

const EXAMPLES: [(&str, u8); 15] = [
    ("(constraint ([Q f 1))", 20),
    ("(constraint ([f 1))", 20),
    ("(constraint ([E f 1))", 20),
    ("(constraint (and (S f 1) ([Q f 1)))", 20),
    ("(constraint (and ([Q f 1) (S f x)))", 20),
    ("(constraint (S [g 1))", 20),
    ("(constraint (S f [x))", 20),
    ("(constraint (S f [r))", 20),
    ("(constraint (S f [-))", 20),
    ("(constraint (S f [-01))", 20),
    ("(constraint (S f [|1|))", 20),
    ("(constraint (S f [$a))", 20),
    ("(constraint (S [S 1))", 20),
    ("(constraint (T [x f true))", 20),
    ("(constraint (T 1 f [Bool))", 20),
];

#[test]
fn names_of_examples(rt: HostRuntime) -> Result<(), Fail> {
    check_refused(&rt, rt.alloc(), AFTER_WANTED, &EXAMPLES)?;
    Ok(())
}
