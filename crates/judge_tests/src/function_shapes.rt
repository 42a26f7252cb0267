use crate::checking::{check_refused, check_taken};
use crate::frames::{AFTER_TYPES, ATOM, BODY, CASES};
use std::test::Fail;

const LISTS: [(&str, u8); 9] = [
    ("[(define-funs-rec)", 10),
    ("[(define-funs-rec ())", 10),
    ("[(define-funs-rec () () ())", 10),
    ("[(define-funs-rec ((S ((t E)) Bool)) ())", 10),
    (
        "[(define-funs-rec () ((! (match t ()) :input () :output ())))",
        10,
    ),
    ("(define-funs-rec [S ())", 10),
    ("(define-funs-rec () [S)", 10),
    ("(define-funs-rec [:S 1)", 10),
    ("(define-funs-rec ((S ((t E)) Bool)) [0)", 10),
];

const DECLARATIONS: [(&str, u8); 16] = [
    ("(define-funs-rec ([S) (()))", 10),
    ("(define-funs-rec ([()) (()))", 10),
    ("(define-funs-rec ([(S ((t E)))) (()))", 10),
    ("(define-funs-rec ([(S ((t E)) Bool Bool)) (()))", 10),
    ("(define-funs-rec (([1 ((t E)) Bool)) (()))", 10),
    ("(define-funs-rec (([(S) ((t E)) Bool)) (()))", 10),
    ("(define-funs-rec ((S [t Bool)) (()))", 10),
    ("(define-funs-rec ((S ((t E)) [Int)) (()))", 10),
    ("(define-funs-rec ((S ((t E)) [true)) (()))", 10),
    ("(define-funs-rec ((S ((t E)) [(Bool))) (()))", 10),
    ("(define-funs-rec ((S ((t E)) [\"Bool\")) (()))", 10),
    ("(define-funs-rec ((S ([t) Bool)) (()))", 10),
    ("(define-funs-rec ((S ([(t)) Bool)) (()))", 10),
    ("(define-funs-rec ((S ((t E) [(r Int Int)) Bool)) (()))", 10),
    ("(define-funs-rec ((S (([1 E)) Bool)) (()))", 10),
    ("(define-funs-rec ((S ((t [(E))) Bool)) (()))", 10),
];

const DEFINITIONS: [(&str, u8); 10] = [
    ("(define-funs-rec ((S ((t E)) Bool)) ([x))", 10),
    ("(define-funs-rec ((S ((t E)) Bool)) ([()))", 10),
    ("(define-funs-rec ((S ((t E)) Bool)) ([(!)))", 10),
    (
        "(define-funs-rec ((S ((t E)) Bool)) (([1 (match t ()) :input () :output ())))",
        10,
    ),
    (
        "(define-funs-rec ((S ((t E)) Bool)) (([:! (match t ()) :input () :output ())))",
        10,
    ),
    (
        "(define-funs-rec ((S ((t E)) Bool)) ([(let (match t ()) :input () :output ())))",
        10,
    ),
    (
        "(define-funs-rec ((S ((t E)) Bool)) ([(! (match t ()) :input ())))",
        10,
    ),
    (
        "(define-funs-rec ((S ((t E)) Bool)) ([(! (match t ()) :input () :output () x)))",
        10,
    ),
    (
        "(define-funs-rec ((S ((t E)) Bool)) ([(! (match t ()) (:input ()) (:output ()))))",
        10,
    ),
    (
        "(define-funs-rec ((S ((t E)) Bool)) ([(! (match t ()) :output ())))",
        10,
    ),
];

const ATTRIBUTES: [(&str, u8); 10] = [
    (
        "(define-funs-rec ((S ((t E)) Bool)) ([(! (match t ()) :input () :input ())))",
        10,
    ),
    (
        "(define-funs-rec ((S ((t E)) Bool)) ([(! (match t ()) :output () :output ())))",
        10,
    ),
    (
        "(define-funs-rec ((S ((t E)) Bool)) ([(! (match t ()) :in () :output ())))",
        10,
    ),
    (
        "(define-funs-rec ((S ((t E)) Bool)) ([(! (match t ()) input () :output ())))",
        10,
    ),
    (
        "(define-funs-rec ((S ((t E)) Bool)) ([(! (match t ()) :input () (:output) ())))",
        10,
    ),
    (
        "(define-funs-rec ((S ((t E)) Bool)) ((! (match t ()) :input [x :output ())))",
        10,
    ),
    (
        "(define-funs-rec ((S ((t E)) Bool)) ((! (match t ()) :input ([1) :output ())))",
        10,
    ),
    (
        "(define-funs-rec ((S ((t E)) Bool)) ((! (match t ()) :input () :output [:x)))",
        10,
    ),
    (
        "(define-funs-rec ((S ((t E)) Bool)) ((! (match t ()) :input () :output (x [(y)))))",
        10,
    ),
    (
        "(define-funs-rec ((S ((t E)) Bool)) ((! (match t ()) :output () :input ([()))))",
        10,
    ),
];

const MATCHES: [(&str, u8); 11] = [
    (
        "(define-funs-rec ((S ((t E)) Bool)) ((! [t :input () :output ())))",
        10,
    ),
    (
        "(define-funs-rec ((S ((t E)) Bool)) ((! [() :input () :output ())))",
        10,
    ),
    (
        "(define-funs-rec ((S ((t E)) Bool)) ((! ([1 t ()) :input () :output ())))",
        10,
    ),
    (
        "(define-funs-rec ((S ((t E)) Bool)) ((! ([(match) t ()) :input () :output ())))",
        10,
    ),
    (
        "(define-funs-rec ((S ((t E)) Bool)) ((! [(case t ()) :input () :output ())))",
        10,
    ),
    (
        "(define-funs-rec ((S ((t E)) Bool)) ((! [(match t) :input () :output ())))",
        10,
    ),
    (
        "(define-funs-rec ((S ((t E)) Bool)) ((! [(match t () ()) :input () :output ())))",
        10,
    ),
    (
        "(define-funs-rec ((S ((t E)) Bool)) ((! (match [1 ()) :input () :output ())))",
        10,
    ),
    (
        "(define-funs-rec ((S ((t E)) Bool)) ((! (match [(t) ()) :input () :output ())))",
        10,
    ),
    (
        "(define-funs-rec ((S ((t E)) Bool)) ((! (match t [$a) :input () :output ())))",
        10,
    ),
    (
        "(define-funs-rec ((S ((t E)) Bool)) ((! (match t [\"\") :input () :output ())))",
        10,
    ),
];

#[test]
fn shapes_of_functions(rt: HostRuntime) -> Result<(), Fail> {
    check_refused(&rt, rt.alloc(), AFTER_TYPES, &LISTS)?;
    check_refused(&rt, rt.alloc(), AFTER_TYPES, &DECLARATIONS)?;
    check_refused(&rt, rt.alloc(), AFTER_TYPES, &DEFINITIONS)?;
    check_refused(&rt, rt.alloc(), AFTER_TYPES, &ATTRIBUTES)?;
    check_refused(&rt, rt.alloc(), AFTER_TYPES, &MATCHES)?;
    Ok(())
}

const PATTERNS: [(&str, u8); 11] = [
    ("[$a", 10),
    ("[()", 10),
    ("[($a)", 10),
    ("[($a (= r x) (= r x))", 10),
    ("([1 (= r x))", 10),
    ("([\"$a\" (= r x))", 10),
    ("([() (= r x))", 10),
    ("(([1) (= r x))", 10),
    ("(([($+) u v) (= r x))", 10),
    ("(($+ u [1) (= r x))", 10),
    ("(($+ [(u) v) (= r x))", 10),
];

const BODIES: [(&str, u8); 22] = [
    ("[()", 10),
    ("[\"\"", 10),
    ("[:r", 10),
    ("([1 r)", 10),
    ("([(=) r x)", 10),
    ("[(exists)", 10),
    ("[(exists ((q Int)))", 10),
    ("[(exists ((q Int)) (= r x) (= r x))", 10),
    ("(exists [q (= r x))", 10),
    ("(exists ([q) (= r x))", 10),
    ("(exists ([(q)) (= r x))", 10),
    ("(exists ([(q Int Int)) (= r x))", 10),
    ("(exists (([1 Int)) (= r x))", 10),
    ("(exists ((q [1)) (= r x))", 10),
    ("(exists () [())", 10),
    ("(exists () (exists () [(exists)))", 10),
    ("[(or)", 10),
    ("(or (= r x) [(or))", 10),
    ("(or [:r (= r x))", 10),
    ("(and [() (= r x))", 10),
    ("(and (= r x) [(exists () (= r x)))", 10),
    ("(and (and (= r x)) (and [(or)))", 10),
];

/// Lists whose head no atom, expression or conjunct has.
const HEADS: [(&str, u8); 12] = [
    ("[(match x ())", 10),
    ("[(forall ((q Int)) (= r x))", 10),
    ("[(exists () (= r x))", 10),
    ("[(let ((q 1)) (= r x))", 10),
    ("[(! (= r x) :named a)", 10),
    ("[(_ x 1)", 10),
    ("[(as x Int)", 10),
    ("[(par (X) (= r x))", 10),
    ("[(true)", 10),
    ("[(false x)", 10),
    ("[(Int)", 10),
    ("[(Bool x)", 10),
];

const HEADS_WITHIN: [(&str, u8); 14] = [
    ("(= r [(match x ()))", 10),
    ("(not [(forall ((q Int)) true))", 10),
    ("(not [(exists ((q Int)) true))", 10),
    ("(= r [(let ((q 1)) q))", 10),
    ("(or [(! true :named a) true)", 10),
    ("(= r (+ [(_ x 1) 1))", 10),
    ("(= r [(as x Int))", 10),
    ("(= r [(par (X) x))", 10),
    ("(not [(true))", 10),
    ("(S u [(Int x) r)", 10),
    ("(S u x [())", 10),
    ("(S u x ([1 x))", 10),
    ("(S u [\"x\" r)", 10),
    ("(q [:x r)", 10),
];

/// Operators with a number of operands that isn't theirs.
const OPERANDS: [(&str, u8); 26] = [
    ("[(not)", 10),
    ("[(not true true)", 10),
    ("[(or)", 10),
    ("(not [(and))", 10),
    ("(not [(or))", 10),
    ("[(xor true)", 10),
    ("[(=> true)", 10),
    ("[(=)", 10),
    ("[(= r)", 10),
    ("[(distinct r)", 10),
    ("(= r [(ite true 1))", 10),
    ("(= r [(ite true 1 2 3))", 10),
    ("(= r [(+))", 10),
    ("(= r [(*))", 10),
    ("(= r [(-))", 10),
    ("(= r [(div))", 10),
    ("(= r [(div 1))", 10),
    ("(= r [(mod 1))", 10),
    ("(= r [(mod 1 2 3))", 10),
    ("(= r [(abs))", 10),
    ("(= r [(abs 1 2))", 10),
    ("[(< r)", 10),
    ("[(<= r)", 10),
    ("[(> r)", 10),
    ("[(>= r)", 10),
    ("(= (+ 1 [(* )) 1)", 10),
];

#[test]
fn shapes_of_bodies(rt: HostRuntime) -> Result<(), Fail> {
    check_refused(&rt, rt.alloc(), CASES, &PATTERNS)?;
    check_refused(&rt, rt.alloc(), BODY, &BODIES)?;
    check_refused(&rt, rt.alloc(), ATOM, &HEADS)?;
    check_refused(&rt, rt.alloc(), ATOM, &HEADS_WITHIN)?;
    check_refused(&rt, rt.alloc(), ATOM, &OPERANDS)?;
    Ok(())
}

const RIGHT_FUNCTIONS: [&str; 6] = [
    "(define-funs-rec () ())",
    "(define-funs-rec ((S ((t E)) Bool)) ((! (match t ()) :input () :output ())))",
    "(define-funs-rec ((S ((t E)) |Bool|)) ((|!| (|match| t ()) :output () :input ())))",
    "(define-funs-rec ((S ((x Int) (t E)) Bool)) ((! (match t ()) :output () :input (x))))",
    "(define-funs-rec
 ((S ((t E)) Bool) (S2 ((t E) (b Bool)) Bool))
 ((! (match t (($a true) (($a) false) (($+ u v) (and)))) :input () :output ())
  (! (match t (($a (and (S t) (= b true))))) :input () :output (b))))",
    "(define-funs-rec ((S ((t E) (r Int) (x Int) (p Bool) (b Bool)) Bool))
 ((! (match t ()) :output (b r) :input (p x))))",
];

const RIGHT_BODIES: [&str; 10] = [
    "(= r x)",
    "(and (= r x))",
    "(and (= r x) (and) (and (and)))",
    "(or (= r x))",
    "(or (or (= r x) (and (= r 1))) (exists () (= r 2)))",
    "(exists () (exists ((q Int)) (or (and (= q 1) (= r q)) (and (= q 2) (= r q)))))",
    "(exists ((p Bool) (q Int)) (and (= p true) (= q 1) (= r q)))",
    "(and (= r x) (or true false))",
    "(and (= r x) (and true) (not (and true)) (or false) (xor true true true))",
    "(and (S u x r) true (S v r x))",
];

/// Each operator with the fewest of its operands, and with more where it takes more.
const RIGHT_OPERANDS: [&str; 16] = [
    "(not true) (and true) (or true) (and true true true) (or true true true)",
    "(xor true true) (=> true true) (=> true true true)",
    "(= r x) (= r x 1) (= true true) (= true true true)",
    "(distinct r x) (distinct r x 1) (distinct true false)",
    "(= r (ite true r x)) (ite true true false)",
    "(= r (+ r)) (= r (+ r x 1))",
    "(= r (* r)) (= r (* r x 1))",
    "(= r (- r)) (= r (- r x)) (= r (- r x 1))",
    "(= r (div r x)) (= r (div r x 1))",
    "(= r (mod r x)) (= r (abs r))",
    "(< r x) (< r x 1)",
    "(<= r x) (<= r x 1)",
    "(> r x) (> r x 1)",
    "(>= r x) (>= r x 1)",
    "true",
    "false",
];

#[test]
fn right_functions(rt: HostRuntime) -> Result<(), Fail> {
    check_taken(&rt, rt.alloc(), AFTER_TYPES, &RIGHT_FUNCTIONS)?;
    check_taken(&rt, rt.alloc(), BODY, &RIGHT_BODIES)?;
    check_taken(&rt, rt.alloc(), ATOM, &RIGHT_OPERANDS)?;
    Ok(())
}
