use crate::checking::{check_refused, check_taken};
use crate::frames::{FLOW, WHOLE};
use std::test::Fail;

/// Atoms that use an unknown variable, the first of each rule.
const ATOMS: [(&str, u8); 27] = [
    ("(and [(= r s) (= s 1))", 40),
    ("(and (= s 1) [(= r r))", 40),
    ("(and (= s 1) [(= r (+ r 1)))", 40),
    ("(and (= s 1) [(= (+ r 1) x))", 40),
    ("(and (= s 1) [(= (+ r 1) r))", 40),
    ("(and (= s 1) [(= r 1 1))", 40),
    ("(and (= s 1) [(= r x y))", 40),
    ("(and (= s 1) [(= x y r))", 40),
    ("(and (= s 1) [(distinct r 1))", 40),
    ("(and (= s 1) [(< r 1) (= r 1))", 40),
    ("(and [(not (= r 1)) (= r 1) (= s 1))", 40),
    ("(and [(or (= r 1) (= s 1)))", 40),
    ("(and (= s 1) [(ite true true (= r 1)))", 40),
    ("(exists ((q Int)) (and (= s 1) [(= r q) (= q 1)))", 40),
    ("(exists ((q Bool)) [q)", 40),
    (
        "(exists ((q Bool)) (and (= r 1) (= s 1) [(or q) (= q true)))",
        40,
    ),
    ("(and (= r 1) [(S u s y r s))", 40),
    ("(and [(S u (+ r 1) y r s))", 40),
    ("(and [(S u x (ite true y r) r s) (= r 1))", 40),
    ("(exists ((q Int)) (and (= s 1) [(D q u q r)))", 40),
    ("(exists ((q Int)) (and (= s 1) [(D r u r q)))", 40),
    ("(and [(S u x y (+ s 1) s) (= r 1))", 40),
    ("(and (= s 1) [(S u x y (- r) s))", 40),
    ("(and (= s 1) [(S u x y (+ r 0) r))", 40),
    ("(and (and (= s 1)) (and [(= r r) (and (= s r))))", 40),
    ("(or (and (= r 1) (= s 1)) (and (= r 1) [(= s s)))", 40),
    ("(or (and (= r 1) [(= s s)) (= r 1))", 40),
];

/// Rules that leave an output unknown.
const OUTPUTS: [(&str, u8); 13] = [
    ("[(= r 1)", 41),
    ("[(= s 1)", 41),
    ("[true", 41),
    ("[(and)", 41),
    ("[(and (= r 1) (= x 1))", 41),
    ("[(and (= s 1) (and (and)))", 41),
    ("[(S u x y r x)", 41),
    ("[(S u x y r r)", 41),
    ("(exists ((q Int)) [(and (= q 1) (= r 1)))", 41),
    ("(exists ((q Int)) [(= r 1))", 41),
    ("(exists () (or (and (= r 1) (= s 1)) [(= r 1)))", 41),
    ("(or [(= s 1) (= r 1))", 41),
    (
        "(or (and (= r 1) (= s 1)) (or (and (= s 1) (= r 1)) [(= 1 1)))",
        41,
    ),
];

/// Rules that leave an existential unknown.
const EXISTENTIALS: [(&str, u8); 6] = [
    ("(exists ([(q Int)) (and (= r 1) (= s 1)))", 42),
    (
        "(exists ((p Int) [(q Int) (o Int)) (and (= p 1) (= r 1) (= s 1)))",
        42,
    ),
    (
        "(exists ((p Int)) (exists ([(q Bool)) (and (= p 1) (= r 1) (= s 1))))",
        42,
    ),
    (
        "(exists ([(p Int)) (exists ((q Bool)) (and (= r 1) (= s 1))))",
        42,
    ),
    (
        "(exists ([(q Int)) (or (and (= q 1) (= r 1) (= s 1)) (and (= r 1) (= s 1))))",
        42,
    ),
    (
        "(or (and (= r 1) (= s 1)) (exists ([(q Int)) (S u x y r s)))",
        42,
    ),
];

/// Of several rules the first that fails.
const RULES: [(&str, u8); 5] = [
    ("(exists ([(q Int)) (and (= r 1) (= s 1)))) ($a (= r r)", 42),
    ("[(= r 1)) ($a (and (= r s) (= s 1))", 41),
    ("(and (= r 1) (= s 1))) ($a [(= s 1)", 41),
    (
        "(and (= r 1) (= s 1))) (($+ u v) (and (= r 1) [(= s (+ s 1)))",
        40,
    ),
    ("(and (= r 1) (= s 1))) (($+ w w2) [(= s 1)", 41),
];

#[test]
fn unknown_variables(rt: HostRuntime) -> Result<(), Fail> {
    check_refused(&rt, rt.alloc(), FLOW, &ATOMS)?;
    check_refused(&rt, rt.alloc(), FLOW, &OUTPUTS)?;
    check_refused(&rt, rt.alloc(), FLOW, &EXISTENTIALS)?;
    check_refused(&rt, rt.alloc(), FLOW, &RULES)?;
    Ok(())
}

const RIGHT: [&str; 11] = [
    "(and (= 1 r) (= (+ x 1) s))",
    "(and (= r x) (= s r) (= r s) (= s r x))",
    "(S u x y r s)",
    "(and (S t y x s r) (S v r s x y))",
    "(and (S u x y r (+ r 1)) (= s 1))",
    "(and (S u x y r r) (= s 1))",
    "(and (= r 1) (S u r y r s))",
    "(exists ((q Int)) (and (D r u x q) (= s q)))",
    "(exists ((q Int)) (and (D q u x q) (= s q) (= r q)))",
    "(or (and (= r 1) (= s 1)) (exists ((q Int)) (and (= q 1) (= r q) (= s q))))",
    "(exists ((p Bool) (q Int)) (and (= p (< x y)) p (= (ite p x y) q) (D r v q s)))",
];

#[test]
fn known_variables(rt: HostRuntime) -> Result<(), Fail> {
    check_taken(&rt, rt.alloc(), FLOW, &RIGHT)?;
    Ok(())
}

/// Commands with several relations, whose rules are taken in order, and several commands.
const RELATIONS: [(&str, u8); 2] = [
    (
        "(declare-term-types ((E 0)) (($a)))
(define-funs-rec ((S ((t E) (r Int)) Bool) (T ((t E) (r Int)) Bool))
 ((! (match t (($a (exists ([(q Int)) (= r 1))))) :input () :output (r))
  (! (match t (($a (and (= r r))))) :input () :output (r))))",
        42,
    ),
    (
        "(declare-term-types ((E 0)) (($a)))
(define-funs-rec ((S ((t E) (r Int)) Bool) (T ((t E) (r Int)) Bool))
 ((! (match t (($a (= r 1)))) :input () :output (r))
  (! (match t (($a (and (T t r) (S t r))) ($a [(S t 1)))) :input () :output (r))))",
        41,
    ),
];

#[test]
fn rules_of_several_relations(rt: HostRuntime) -> Result<(), Fail> {
    check_refused(&rt, rt.alloc(), WHOLE, &RELATIONS)?;
    Ok(())
}
