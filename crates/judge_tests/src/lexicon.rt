use crate::checking::{check_refused, check_taken};
use crate::frames::{FIRST, WHOLE};
use crate::judging::{Refusal, refusal_of};
use sig_core::Bytes;
use std::alloc::{AllocError, Global};
use std::test::Fail;

/// Bytes that neither begin nor continue a token where they stand.
const STRAY_BYTES: [(&str, u8); 29] = [
    ("[{", 1),
    ("[}", 1),
    ("[]", 1),
    ("[,", 1),
    ("[#b0", 1),
    ("['a", 1),
    ("[`", 1),
    ("[\\", 1),
    ("[\u{0}", 1),
    ("[\u{b}", 1),
    ("[\u{c}", 1),
    ("[\u{7f}", 1),
    ("[é", 1),
    ("(set-info :a [{b)", 1),
    ("(set-info :a b[,)", 1),
    ("(set-info :a 12[#)", 1),
    ("(set-info :a 0[é)", 1),
    ("(set-info :a[\\)", 1),
    ("(set-info :[ a)", 1),
    ("(set-info :[)", 1),
    ("(set-info :[1)", 1),
    (":[(", 1),
    (":[:a", 1),
    (":[|a|", 1),
    (":[\"a\"", 1),
    (":[; a comment", 1),
    ("(set-info :a |b[\\|)", 1),
    ("(set-info :a |b[\u{1}|)", 1),
    ("(set-info :a \"b[\u{7f}\")", 1),
];

const NUMERALS: [(&str, u8); 9] = [
    ("0[0", 2),
    ("0[1", 2),
    ("0[x1f", 2),
    ("12[a", 2),
    ("1[+", 2),
    ("3[.5", 2),
    ("(set-info :a 2[.0)", 2),
    ("(set-info :a 0[7)", 2),
    ("(set-info :a (1 2 3[-))", 2),
];

/// Texts that end within a token or a list.
const UNENDED: [(&str, u8); 11] = [
    ("([", 3),
    ("(set-info[", 3),
    ("(set-info :a ([", 3),
    ("(set-info :a ; )[", 3),
    (
        "(set-info :a)
(set-info :b
[",
        3,
    ),
    ("|a[", 3),
    ("|[", 3),
    ("\"a[", 3),
    ("\"a\"\"[", 3),
    ("(set-info :a \"b)[", 3),
    (":[", 3),
];

const CLOSED: [(&str, u8); 5] = [
    ("[)", 4),
    ("(set-info :a)[)", 4),
    (
        "; (
[)",
        4,
    ),
    (":[)", 4),
    (
        "(set-info :a \"(\")
[)",
        4,
    ),
];

#[test]
fn texts_that_are_no_spellings(rt: HostRuntime) -> Result<(), Fail> {
    check_refused(&rt, rt.alloc(), WHOLE, &STRAY_BYTES)?;
    check_refused(&rt, rt.alloc(), WHOLE, &NUMERALS)?;
    check_refused(&rt, rt.alloc(), WHOLE, &UNENDED)?;
    check_refused(&rt, rt.alloc(), WHOLE, &CLOSED)?;
    Ok(())
}

/// A form before the lexical fault is judged first where it is complete.
const FORMS_BEFORE: [(&str, u8); 10] = [
    ("[abc (", 10),
    ("[abc,", 10),
    ("[0)", 10),
    ("[\"a\"|b", 10),
    ("[()(", 10),
    (
        "(set-info [1)
(set-info :a",
        10,
    ),
    (
        "([set-logic LIA)
\\",
        11,
    ),
    (
        "[(check-synth)
)",
        12,
    ),
    (
        "(synth-fun f () [E)
0x",
        20,
    ),
    ("(set-info 1 2[,", 1),
];

#[test]
fn forms_before_a_lexical_fault(rt: HostRuntime) -> Result<(), Fail> {
    check_refused(&rt, rt.alloc(), WHOLE, &FORMS_BEFORE)?;
    Ok(())
}

/// Rare spellings within whole files.
const SPELLINGS: [&str; 12] = [
    "(set-info:a\"x\")",
    "(set-info\t:a\r\n\"say \"\"so\"\"\")",
    "(set-info :a ; a ) ( | \" [ \u{1}\u{7f} é comment\r)",
    "(set-info :a);",
    "(set-info :a |;\"(\t\r\né~|)",
    "(set-info :a \"\\|;(\t\r\né~\")",
    "(set-info :a \"\")",
    "(set-info :a ||)",
    "(set-info :a (let! _ as(0 ! (par))))",
    "(set-info :~!@$%^&*_-+=<>.?/z9 (0(12)a(b)|c|d\"e\"f))",
    "(set-info :a (x|y|z:k:l\"m\"\"n\"0))",
    "(|set-info| :a (|a b| -4 - -- +4 ... .5))",
];

/// Files that spell their names in rare ways.
const NAMES: [&str; 3] = [
    "(declare-term-types((|E|0)(|a (b)|0))(($a|$b|(|$c;|E|a (b)|))()))
(define-funs-rec((|S|((t|E|)(|r r|Int))Bool))((!(match|t|(($b(= |r r| -4))(|$a|(= |r r| 0))))
:output(|r r|):input())))
(synth-fun || () E)
(constraint(S || -4))
(check-synth)",
    "(declare-term-types ((-007 0) (-0 0)) ((- ($ -007 -0)) (-- |-1|)))
(synth-fun -007 () -007)
(check-synth)",
    "(declare-term-types ((E 0) (|e\té| 0)) (((|$|)) ((-> E |e\té|))))
(define-funs-rec ((=== ((? E) (<> Int)) Bool)) ((! (match ? (($ (= <> -0)))) :input () :output (<>))))
(synth-fun .f. () |E|) ; the start
(constraint (=== .f. 0))
(check-synth);",
];

#[test]
fn rare_spellings(rt: HostRuntime) -> Result<(), Fail> {
    check_taken(&rt, rt.alloc(), FIRST, &SPELLINGS)?;
    check_taken(&rt, rt.alloc(), WHOLE, &NAMES)?;
    Ok(())
}

/// The byte, so many times.
fn put_times(text: &mut Bytes, byte: u8, times: u32) -> Result<(), AllocError> {
    for _ in 0..times {
        text.push(byte)?;
    }
    Ok(())
}

/// Why a file is refused whose info nests so many lists deep. The list of its command stands around them.
fn refusal_of_nested(alloc: Global, levels: u32) -> Result<Option<Refusal>, AllocError> {
    let mut text = Bytes::new(alloc);
    text.append(b"(set-info :a ")?;
    put_times(&mut text, b'(', levels)?;
    put_times(&mut text, b')', levels)?;
    text.push(b')')?;
    refusal_of(alloc, text.as_slice())
}

#[test]
fn lists_nest_200_deep(rt: HostRuntime) -> Result<(), Fail> {
    // `(set-info :a ` has 13 bytes. At 200 levels, the command's among them, 199 and 200 parentheses follow.
    let at_end = Refusal {
        place: 412,
        reason: 60,
        limit: 0,
    };
    // The parenthesis of level 201 stands after 199 others.
    let too_deep = Refusal {
        place: 212,
        reason: 5,
        limit: 0,
    };
    assert_eq!(rt; refusal_of_nested(rt.alloc(), 199)?, Some(at_end));
    assert_eq!(rt; refusal_of_nested(rt.alloc(), 200)?, Some(too_deep));
    Ok(())
}
