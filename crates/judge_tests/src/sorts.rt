use crate::checking::{check_refused, check_taken};
use crate::frames::{AFTER_RELATIONS, AFTER_TYPES, ATOM, BODY, CASES};
use std::test::Fail;

/// Relations with another number of parameters for terms than one.
const DECLARATIONS: [(&str, u8); 2] = [
    (
        "(define-funs-rec ([(Q ((t E) (u E)) Bool)) ((! (match t ()) :input () :output ())))",
        30,
    ),
    (
        "(define-funs-rec ((Q ((t E)) Bool) [(R ((t E) (x Int) (u F)) Bool))
 ((! (match t ()) :input () :output ()) (! (match u ()) :input (x) :output ())))",
        30,
    ),
];

const PATTERNS: [(&str, u8); 10] = [
    ("([$f (= r x))", 30),
    ("([($f) (= r x))", 30),
    ("([($f u) (= r x))", 30),
    ("([$+ (= r x))", 30),
    ("([($+) (= r x))", 30),
    ("([($+ u) (= r x))", 30),
    ("([($+ u v w) (= r x))", 30),
    ("([($a u) (= r x))", 30),
    ("($a (= r x)) ([$g (= r x))", 30),
    ("([($b u) (= r true))", 30),
];

/// Atoms that are expressions of another sort than Bool.
const ATOMS: [(&str, u8); 9] = [
    ("[r", 30),
    ("[1", 30),
    ("[-4", 30),
    ("[(- 4)", 30),
    ("[(+ r x)", 30),
    ("[(ite true 1 2)", 30),
    ("[t", 30),
    ("[u", 30),
    ("[(- (+ r x))", 30),
];

/// The operands of each operator.
const OPERANDS: [(&str, u8); 34] = [
    ("(not [r)", 30),
    ("(and true [1)", 30),
    ("(or [r true)", 30),
    ("(xor true [(+ r x))", 30),
    ("(=> true true [r)", 30),
    ("(= r [true)", 30),
    ("(= true [r)", 30),
    ("(= r x [true)", 30),
    ("(distinct r [(= r x))", 30),
    ("(distinct true false [0)", 30),
    ("(= r (ite [x r x))", 30),
    ("(= r (ite true r [true))", 30),
    ("(ite true true [1)", 30),
    ("(= r [(ite true true false))", 30),
    ("(= r (+ [true))", 30),
    ("(= r (+ r x [true))", 30),
    ("(= r (* r [false))", 30),
    ("(= r (- [true))", 30),
    ("(= r (- r [(= r x)))", 30),
    ("(= r (div r [true))", 30),
    ("(= r (mod [true r))", 30),
    ("(= r (abs [false))", 30),
    ("(< r [true)", 30),
    ("(<= [true r)", 30),
    ("(> r x [true)", 30),
    ("(>= [(not true) r)", 30),
    ("(not [(ite true r x))", 30),
    ("(not [4)", 30),
    ("(not [-4)", 30),
    ("(not [(- 4))", 30),
    ("(= (not [r) true)", 30),
    ("(= (+ r x) (+ r [(not r)))", 30),
    ("(and (= r x) (= r [true) (= x false))", 30),
    ("(= r (+ 1 (* 2 (- 3 [true))))", 30),
];

/// Variables for terms, which no operator takes.
const TERMS: [(&str, u8); 11] = [
    ("(= (ite true [t 1) r)", 30),
    ("(= [t t)", 30),
    ("(= r [t)", 30),
    ("(distinct [u v)", 30),
    ("(not [t)", 30),
    ("(= r (+ 1 [v))", 30),
    ("(ite [u true false)", 30),
    ("[(ite true u v)", 30),
    ("(= r [(ite true t 1))", 30),
    ("(= (ite true 1 [t) r)", 30),
    ("(= r (ite true 1 [t))", 30),
];

/// Relations as heads inside expressions.
const RELATIONS_WITHIN: [(&str, u8); 8] = [
    ("(not [(S u x r))", 30),
    ("(= r [(S u x r))", 30),
    ("(= [(S u x r) true)", 30),
    ("(= true [(S u x r))", 30),
    ("(or true [(S))", 30),
    ("(S u [(S u x r) r)", 30),
    ("(= r (+ 1 [(P u true)))", 30),
    ("(or true (and true [(S u x r)))", 30),
];

#[test]
fn sorts_of_cases(rt: HostRuntime) -> Result<(), Fail> {
    check_refused(&rt, rt.alloc(), AFTER_TYPES, &DECLARATIONS)?;
    check_refused(&rt, rt.alloc(), CASES, &PATTERNS)?;
    check_refused(&rt, rt.alloc(), ATOM, &ATOMS)?;
    check_refused(&rt, rt.alloc(), ATOM, &OPERANDS)?;
    check_refused(&rt, rt.alloc(), ATOM, &TERMS)?;
    check_refused(&rt, rt.alloc(), ATOM, &RELATIONS_WITHIN)?;
    Ok(())
}

const CALLS: [(&str, u8); 21] = [
    ("[(S)", 30),
    ("[(S u)", 30),
    ("[(S u x)", 30),
    ("[(S u x r r)", 30),
    ("[(P u)", 30),
    ("[(P)", 30),
    ("(S [1 x r)", 30),
    ("(S [x x r)", 30),
    ("(S [true x r)", 30),
    ("(S [(+ x 1) x r)", 30),
    ("(S [170141183460469231731687303715884105728 x r)", 30),
    ("(P [u true)", 30),
    ("(P [t true)", 30),
    ("(S u [true r)", 30),
    ("(S u [t r)", 30),
    ("(S u [v r)", 30),
    ("(S u x [true)", 30),
    ("(S u x [u)", 30),
    ("(S u (+ x [true) r)", 30),
    ("(S u x (ite [x 1 2))", 30),
    ("(S [r u r)", 30),
];

#[test]
fn sorts_of_calls(rt: HostRuntime) -> Result<(), Fail> {
    check_refused(&rt, rt.alloc(), ATOM, &CALLS)?;
    Ok(())
}

const RIGHT_BODIES: [&str; 5] = [
    "(= r (ite (= x 1) x (- x)))",
    "(= r x)",
    "(S u (+ x 1) r)",
    "(and (S t x r) (S u x r) (S v (ite (< x r) x r) (+ r 1)))",
    "(and (= r x) (ite true true false) (= (= r x) (not (= r x))))",
];

const GRAMMARS: [(&str, u8); 14] = [
    ("(synth-fun f () E ((A [F)) ((A F ())))", 30),
    ("(synth-fun f () F ((A [E) (B F)) ((A E ()) (B F ())))", 30),
    ("(synth-fun f () E ((A E)) ((A [F ())))", 30),
    ("(synth-fun f () E ((A E) (B F)) ((A E ()) (B [E ())))", 30),
    ("(synth-fun f () E ((A E)) ((A E ([$f))))", 30),
    (
        "(synth-fun f () E ((A E) (B F)) ((A E ()) (B F ($f [$a))))",
        30,
    ),
    ("(synth-fun f () E ((A E)) ((A E ([$+))))", 30),
    ("(synth-fun f () E ((A E)) ((A E ([($+)))))", 30),
    ("(synth-fun f () E ((A E)) ((A E ([($+ A)))))", 30),
    ("(synth-fun f () E ((A E)) ((A E ($a [($+ A A A)))))", 30),
    ("(synth-fun f () E ((A E)) ((A E ([($a A)))))", 30),
    ("(synth-fun f () E ((A E)) ((A E (($g [A)))))", 30),
    (
        "(synth-fun f () E ((A E) (B F)) ((A E (($+ A [B))) (B F ())))",
        30,
    ),
    (
        "(synth-fun f () E ((A E) (B F)) ((A E (($+ [B B))) (B F ())))",
        30,
    ),
];

const RIGHT_GRAMMARS: [&str; 2] = [
    "(synth-fun f () F ((A F) (B E)) ((A F ($f)) (B E (($g A) ($+ B B) ($a) $b))))",
    "(synth-fun f () E ((A E) (B E)) ((A E (($+ B A))) (B E ($b $a))))",
];

#[test]
fn sorts_of_grammars(rt: HostRuntime) -> Result<(), Fail> {
    check_refused(&rt, rt.alloc(), AFTER_RELATIONS, &GRAMMARS)?;
    check_taken(&rt, rt.alloc(), AFTER_RELATIONS, &RIGHT_GRAMMARS)?;
    check_taken(&rt, rt.alloc(), BODY, &RIGHT_BODIES)?;
    Ok(())
}

/// Numbers past the greatest and below the least.
const OUT_OF_RANGE: [(&str, u8); 12] = [
    ("(= r [170141183460469231731687303715884105728)", 31),
    ("(= [170141183460469231731687303715884105728 r)", 31),
    (
        "(= r [99999999999999999999999999999999999999999999999999)",
        31,
    ),
    ("(= r [-170141183460469231731687303715884105729)", 31),
    ("(= r [|-170141183460469231731687303715884105729|)", 31),
    ("(= r (- [170141183460469231731687303715884105729))", 31),
    ("(= r (- [170141183460469231731687303715884105728 1))", 31),
    ("(= r (- 1 [170141183460469231731687303715884105728))", 31),
    ("(= r (+ [170141183460469231731687303715884105728))", 31),
    ("(= r (- (- [170141183460469231731687303715884105729)))", 31),
    ("(S u [170141183460469231731687303715884105728 r)", 31),
    ("(S u x [-170141183460469231731687303715884105729)", 31),
];

/// Where another sort is wanted, a number out of range has a wrong sort.
const OF_WRONG_SORT: [(&str, u8); 4] = [
    ("[170141183460469231731687303715884105728", 30),
    ("(not [170141183460469231731687303715884105728)", 30),
    ("(not [-170141183460469231731687303715884105729)", 30),
    ("(= (= r x) [170141183460469231731687303715884105728)", 30),
];

const IN_RANGE: [&str; 7] = [
    "(= r 170141183460469231731687303715884105727)",
    "(= r -170141183460469231731687303715884105728)",
    "(= r (- 170141183460469231731687303715884105728))",
    "(= r (- (- 170141183460469231731687303715884105728)))",
    "(= r (- -170141183460469231731687303715884105728))",
    "(= r (+ (- 170141183460469231731687303715884105728) 170141183460469231731687303715884105727))",
    "(= r (- (- -4)) (- -0) (- 0) 0)",
];

#[test]
fn numbers_out_of_range(rt: HostRuntime) -> Result<(), Fail> {
    check_refused(&rt, rt.alloc(), ATOM, &OUT_OF_RANGE)?;
    check_refused(&rt, rt.alloc(), ATOM, &OF_WRONG_SORT)?;
    check_taken(&rt, rt.alloc(), ATOM, &IN_RANGE)?;
    Ok(())
}
