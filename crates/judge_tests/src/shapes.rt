use crate::checking::{check_refused, check_taken};
use crate::frames::{AFTER_RELATIONS, AFTER_TYPES, AFTER_WANTED, FIRST};
use std::test::Fail;

const INFOS: [(&str, u8); 7] = [
    ("[(set-info)", 10),
    ("[(set-info :a b c)", 10),
    ("[(set-info a b c)", 10),
    ("(set-info [a)", 10),
    ("(set-info [12 b)", 10),
    ("(set-info [\"a\" b)", 10),
    ("(set-info [(:a) b)", 10),
];

/// The counts of types, and what stands in the place of their two lists.
const TYPE_LISTS: [(&str, u8); 10] = [
    ("[(declare-term-types)", 10),
    ("[(declare-term-types ((E 0)))", 10),
    ("[(declare-term-types ((E 0)) (()) ())", 10),
    ("[(declare-term-types ((E 0)) ())", 10),
    ("[(declare-term-types () (()))", 10),
    ("[(declare-term-types ((E 0) (F 0)) (()))", 10),
    ("(declare-term-types [E (()))", 10),
    ("(declare-term-types [0 ())", 10),
    ("(declare-term-types ((E 0)) [E)", 10),
    ("(declare-term-types () [\"\")", 10),
];

const TYPE_NAMES: [(&str, u8); 12] = [
    ("(declare-term-types ([E) (()))", 10),
    ("(declare-term-types ([()) (()))", 10),
    ("(declare-term-types ([(E)) (()))", 10),
    ("(declare-term-types ([(E 0 0)) (()))", 10),
    ("(declare-term-types (([1 0)) (()))", 10),
    ("(declare-term-types (([(E) 0)) (()))", 10),
    ("(declare-term-types (([1 1)) (()))", 10),
    ("(declare-term-types ((E [1)) (()))", 10),
    ("(declare-term-types ((E [a)) (()))", 10),
    ("(declare-term-types ((E [|0|)) (()))", 10),
    ("(declare-term-types ((E [(0))) (()))", 10),
    ("(declare-term-types ((E 0) [(F)) (() (1)))", 10),
];

const CONSTRUCTORS: [(&str, u8); 11] = [
    ("(declare-term-types ((E 0)) ([E))", 10),
    ("(declare-term-types ((E 0)) ([0))", 10),
    ("(declare-term-types ((E 0)) (([0)))", 10),
    ("(declare-term-types ((E 0)) (($a [:b)))", 10),
    ("(declare-term-types ((E 0)) (($a [\"b\")))", 10),
    ("(declare-term-types ((E 0)) (($a [())))", 10),
    ("(declare-term-types ((E 0)) ((([0))))", 10),
    ("(declare-term-types ((E 0)) ((([(c) E))))", 10),
    ("(declare-term-types ((E 0)) ((($c [0))))", 10),
    ("(declare-term-types ((E 0)) ((($c E [(E)))))", 10),
    ("(declare-term-types ((E 0) (F 0)) (() ((c [:E))))", 10),
];

#[test]
fn shapes_of_declarations(rt: HostRuntime) -> Result<(), Fail> {
    check_refused(&rt, rt.alloc(), FIRST, &INFOS)?;
    check_refused(&rt, rt.alloc(), FIRST, &TYPE_LISTS)?;
    check_refused(&rt, rt.alloc(), FIRST, &TYPE_NAMES)?;
    check_refused(&rt, rt.alloc(), FIRST, &CONSTRUCTORS)?;
    Ok(())
}

const WANTED: [(&str, u8); 14] = [
    ("[(synth-fun)", 10),
    ("[(synth-fun f)", 10),
    ("[(synth-fun f ())", 10),
    ("[(synth-fun f () E ())", 10),
    ("[(synth-fun f () E ((A E)) ((A E ())) ())", 10),
    ("(synth-fun [1 () E)", 10),
    ("(synth-fun [(f) () E)", 10),
    ("(synth-fun [:f () E)", 10),
    ("(synth-fun f [x E)", 10),
    ("(synth-fun f [(x) E)", 10),
    ("(synth-fun f [((x Int)) E)", 10),
    ("(synth-fun f () [1)", 10),
    ("(synth-fun f () [(E))", 10),
    ("(synth-fun f () [\"E\")", 10),
];

const NONTERMINALS: [(&str, u8); 12] = [
    ("[(synth-fun f () E () ())", 10),
    ("[(synth-fun f () E ((A E)) ())", 10),
    ("[(synth-fun f () E ((A E)) ((A E ()) (A E ())))", 10),
    ("[(synth-fun f () E ((A E) (B E)) ((A E ())))", 10),
    ("(synth-fun f () E [A ((A E ())))", 10),
    ("(synth-fun f () E ((A E)) [A)", 10),
    ("(synth-fun f () E ([A) ((A E ())))", 10),
    ("(synth-fun f () E ([()) ((A E ())))", 10),
    ("(synth-fun f () E ([(A)) ((A E ())))", 10),
    ("(synth-fun f () E ([(A E E)) ((A E ())))", 10),
    ("(synth-fun f () E (([1 E)) ((A E ())))", 10),
    ("(synth-fun f () E ((A [(E))) ((A E ())))", 10),
];

const PRODUCTIONS: [(&str, u8); 14] = [
    ("(synth-fun f () E ((A E)) ([A))", 10),
    ("(synth-fun f () E ((A E)) ([()))", 10),
    ("(synth-fun f () E ((A E)) ([(A E)))", 10),
    ("(synth-fun f () E ((A E)) ([(A E () ())))", 10),
    ("(synth-fun f () E ((A E)) (([1 E ())))", 10),
    ("(synth-fun f () E ((A E)) ((A [1 ())))", 10),
    ("(synth-fun f () E ((A E)) ((A E [$a)))", 10),
    ("(synth-fun f () E ((A E)) ((A E ([1))))", 10),
    ("(synth-fun f () E ((A E)) ((A E ($a [:b))))", 10),
    ("(synth-fun f () E ((A E)) ((A E ([()))))", 10),
    ("(synth-fun f () E ((A E)) ((A E (([1 A)))))", 10),
    ("(synth-fun f () E ((A E)) ((A E (($+ [1 A)))))", 10),
    ("(synth-fun f () E ((A E)) ((A E (($+ A [\"A\")))))", 10),
    ("(synth-fun f () E ((A E)) ((A E (($+ A [:A)))))", 10),
];

#[test]
fn shapes_of_grammars(rt: HostRuntime) -> Result<(), Fail> {
    check_refused(&rt, rt.alloc(), AFTER_TYPES, &WANTED)?;
    check_refused(&rt, rt.alloc(), AFTER_TYPES, &NONTERMINALS)?;
    check_refused(&rt, rt.alloc(), AFTER_TYPES, &PRODUCTIONS)?;
    Ok(())
}

const CALLS: [(&str, u8); 21] = [
    ("[(constraint)", 10),
    ("[(constraint (S f 1) (S f 1))", 10),
    ("(constraint [S)", 10),
    ("(constraint [1)", 10),
    ("(constraint [())", 10),
    ("(constraint ([1 f))", 10),
    ("(constraint ([(S) f))", 10),
    ("(constraint [(and))", 10),
    ("(constraint [(or (S f 1)))", 10),
    ("(constraint [(not (S f 1)))", 10),
    ("(constraint [(= f 1))", 10),
    ("(constraint [(exists ((r Int)) (S f r)))", 10),
    ("(constraint [(let ((r 1)) (S f r)))", 10),
    ("(constraint [(! (S f 1) :named a))", 10),
    ("(constraint [(true))", 10),
    ("(constraint [(Int f))", 10),
    ("(constraint (and (S f 1) [(or (S f 1))))", 10),
    ("(constraint (and (S f 1) [f))", 10),
    ("(constraint (and [() (S f 1)))", 10),
    ("(constraint (and (S f 1) ([1)))", 10),
    ("(constraint (and (S f 1) (and [(and))))", 10),
];

const ARGUMENTS: [(&str, u8); 13] = [
    ("(constraint (S f [\"1\"))", 10),
    ("(constraint (S f [:x))", 10),
    ("(constraint (S f [()))", 10),
    ("(constraint (S f [(-)))", 10),
    ("(constraint (S f [(- 1 2)))", 10),
    ("(constraint (S f [(+ 1 2)))", 10),
    ("(constraint (S f [(+ 1)))", 10),
    ("(constraint (S f ([1 1)))", 10),
    ("(constraint (S f (- [x)))", 10),
    ("(constraint (S f (- [-4)))", 10),
    ("(constraint (S f (- [(- 4))))", 10),
    ("(constraint (S [(f) 1))", 10),
    ("(constraint (and (S f 1) (T [\"\" f true)))", 10),
];

const LAST: [(&str, u8); 2] = [("[(check-synth 1)", 10), ("[(check-synth ())", 10)];

#[test]
fn shapes_of_examples(rt: HostRuntime) -> Result<(), Fail> {
    check_refused(&rt, rt.alloc(), AFTER_WANTED, &CALLS)?;
    check_refused(&rt, rt.alloc(), AFTER_WANTED, &ARGUMENTS)?;
    check_refused(&rt, rt.alloc(), AFTER_WANTED, &LAST)?;
    Ok(())
}

/// Commands of the right shape, though some spell it in a rare way.
const RIGHT_INFOS: [&str; 6] = [
    "(set-info :a)",
    "(set-info :a b)",
    "(set-info :a :b)",
    "(set-info :a (1 () \"\" ((set-info)) :b |c d|))",
    "(set-info :source |
a text
|)",
    "(set-info :! _)",
];

const RIGHT_WANTED: [&str; 4] = [
    "(synth-fun f () E)",
    "(synth-fun f ( ; no parameters
) E)",
    "(synth-fun f () E ((A E)) ((A E ())))",
    "(synth-fun f () E ((A E) (B F)) ((A E ($a ($b) ($+ A A) ($g B))) (B F ($f))))",
];

#[test]
fn right_shapes(rt: HostRuntime) -> Result<(), Fail> {
    check_taken(&rt, rt.alloc(), FIRST, &RIGHT_INFOS)?;
    check_taken(&rt, rt.alloc(), AFTER_RELATIONS, &RIGHT_WANTED)?;
    Ok(())
}
