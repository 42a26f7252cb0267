use judge_tests::{Refusal, append_marked, refusal_of};
use sig_core::Bytes;
use std::alloc::{AllocError, Global};
use std::fmt::Write;
use std::process::Abort;
use std::test::Fail;

/// A file with numbered items in its middle, of which it may have at most so many. With one more it is refused at its
/// last mark `[`.
#[derive(Clone, Copy)]
struct Series {
    front: &'static str,
    /// what stands before and after the number of each item
    item: (&'static str, &'static str),
    back: &'static str,
    most: u32,
    limit: u8,
}

/// Appends the lines without their mark. The place of the mark, and without one the place that was known before.
fn append(text: &mut Bytes, lines: &str, place: usize) -> Result<usize, AllocError> {
    if lines.contains('[') {
        append_marked(text, lines)
    } else {
        text.append(lines.as_bytes())?;
        Ok(place)
    }
}

/// Appends so many numbered items. The place of the last mark.
fn append_items(
    alloc: Global,
    text: &mut Bytes,
    item: (&str, &str),
    count: u32,
    place: usize,
) -> Result<usize, AllocError> {
    let (before, after) = item;
    let mut last = place;
    for number in 0..count {
        let mut lines = String::new(alloc);
        write!(lines, "{before}{number}{after}")?;
        last = append(text, lines.as_str(), last)?;
    }
    Ok(last)
}

/// Why the file with so many items is refused, and the place of its last mark.
fn refusal_with(
    alloc: Global,
    series: Series,
    count: u32,
) -> Result<(Option<Refusal>, usize), AllocError> {
    let mut text = Bytes::new(alloc);
    let place = append(&mut text, series.front, 0)?;
    let place = append_items(alloc, &mut text, series.item, count, place)?;
    let place = append(&mut text, series.back, place)?;
    Ok((refusal_of(alloc, text.as_slice())?, place))
}

/// Whether the file may have the greatest number of items and no more.
fn check_series(rt: &impl Abort, alloc: Global, series: Series) -> Result<(), AllocError> {
    assert!(rt; series.most < 100_000);
    let (refusal, _) = refusal_with(alloc, series, series.most)?;
    assert_eq!(rt; refusal, None);
    let (refusal, place) = refusal_with(alloc, series, series.most + 1)?;
    let wanted = Refusal {
        place,
        reason: 50,
        limit: series.limit,
    };
    assert_eq!(rt; refusal, Some(wanted));
    Ok(())
}

/// Types, each in a command of its own.
const TYPES: Series = Series {
    front: "",
    item: ("(declare-term-types (([T", " 0)) (()))\n"),
    back: "(synth-fun f () T0)
(check-synth)
",
    most: 256,
    limit: 5,
};

/// Constructors of two types.
const CONSTRUCTORS: Series = Series {
    front: "(declare-term-types ((E 0) (F 0)) (($a $b) (",
    item: ("[$c", " "),
    back: ")))
(synth-fun f () E)
(check-synth)
",
    most: 4094,
    limit: 6,
};

/// Argument types of a constructor, each on a line with a comment.
const ARGUMENTS: Series = Series {
    front: "(declare-term-types ((E 0)) (($a [($c",
    item: (" E ; ", "\n"),
    back: "))))
(synth-fun f () E)
(check-synth)
",
    most: 16,
    limit: 7,
};

/// Relations, each in a command of its own.
const RELATIONS: Series = Series {
    front: "(declare-term-types ((E 0)) (($a)))\n",
    item: (
        "(define-funs-rec ([(R",
        " ((t E)) Bool)) ((! (match t ()) :input () :output ())))\n",
    ),
    back: "(synth-fun f () E)
(check-synth)
",
    most: 256,
    limit: 8,
};

/// Parameters of a relation, beside the one for terms.
const PARAMETERS: Series = Series {
    front: "(declare-term-types ((E 0)) (($a)))
(define-funs-rec ((R ((t E)",
    item: (" [(p", " Int)"),
    back: ") Bool))
 ((! (match t ())
  :input (p0 p1 p2 p3 p4 p5 p6 p7 p8 p9 p10 p11 p12 p13 p14)
  :output (p15 p16 p17 p18 p19 p20 p21 p22 p23 p24 p25 p26 p27 p28 p29 p30))))
(synth-fun f () E)
(check-synth)
",
    most: 31,
    limit: 9,
};

#[test]
fn a_file_has_256_types_at_most(rt: HostRuntime) -> Result<(), Fail> {
    check_series(&rt, rt.alloc(), TYPES)?;
    Ok(())
}

#[test]
fn a_file_has_4096_constructors_at_most(rt: HostRuntime) -> Result<(), Fail> {
    check_series(&rt, rt.alloc(), CONSTRUCTORS)?;
    Ok(())
}

#[test]
fn a_constructor_has_16_arguments_at_most(rt: HostRuntime) -> Result<(), Fail> {
    check_series(&rt, rt.alloc(), ARGUMENTS)?;
    Ok(())
}

#[test]
fn a_file_has_256_relations_at_most(rt: HostRuntime) -> Result<(), Fail> {
    check_series(&rt, rt.alloc(), RELATIONS)?;
    Ok(())
}

#[test]
fn a_relation_has_32_parameters_at_most(rt: HostRuntime) -> Result<(), Fail> {
    check_series(&rt, rt.alloc(), PARAMETERS)?;
    Ok(())
}

/// Rules of one relation, each a case.
const CASES: Series = Series {
    front: "(declare-term-types ((E 0)) (($a)))
(define-funs-rec ((S ((t E)) Bool)) ((! (match t (",
    item: ("($a [(= 0 ", "))\n"),
    back: ")) :input () :output ())))
(synth-fun f () E)
(check-synth)
",
    most: 16_384,
    limit: 11,
};

/// Productions of a nonterminal, each on a line with a comment.
const PRODUCTIONS: Series = Series {
    front: "(declare-term-types ((E 0)) (($a ($+ E E))))
(synth-fun f () E ((A E) (B E)) ((A E ($a)) (B E (",
    item: ("[($+ A B) ; ", "\n"),
    back: "))))
(check-synth)
",
    most: 4095,
    limit: 13,
};

/// Examples, two in each command.
const PAIRS_OF_EXAMPLES: Series = Series {
    front: "(declare-term-types ((E 0)) (($a)))
(define-funs-rec ((S ((t E) (r Int)) Bool)) ((! (match t (($a (= r 1)))) :input () :output (r))))
(synth-fun f () E)
",
    item: ("(constraint (and [(S f 1) (S f ", ")))\n"),
    back: "(check-synth)
",
    most: 512,
    limit: 14,
};

/// Examples in one command, of which two are taken apart deeper.
const EXAMPLES: Series = Series {
    front: "(declare-term-types ((E 0)) (($a)))
(define-funs-rec ((S ((t E) (r Int)) Bool)) ((! (match t (($a (= r 1)))) :input () :output (r))))
(synth-fun f () E)
(constraint (S f 1))
(constraint (and (and (S f 1) (and (S f 1)))",
    item: (" [(S f ", ")"),
    back: "))
(check-synth)
",
    most: 1021,
    limit: 14,
};

#[test]
fn a_file_has_16384_rules_at_most(rt: HostRuntime) -> Result<(), Fail> {
    check_series(&rt, rt.alloc(), CASES)?;
    Ok(())
}

#[test]
fn a_grammar_has_4096_productions_at_most(rt: HostRuntime) -> Result<(), Fail> {
    check_series(&rt, rt.alloc(), PRODUCTIONS)?;
    Ok(())
}

#[test]
fn a_file_has_1024_examples_at_most(rt: HostRuntime) -> Result<(), Fail> {
    check_series(&rt, rt.alloc(), PAIRS_OF_EXAMPLES)?;
    check_series(&rt, rt.alloc(), EXAMPLES)?;
    Ok(())
}

/// A file with one long name in its middle.
fn with_name(
    alloc: Global,
    front: &str,
    length: u32,
    back: &str,
) -> Result<(Bytes, usize), AllocError> {
    let mut text = Bytes::new(alloc);
    let place = append(&mut text, front, 0)?;
    for _ in 0..length {
        text.push(b'n')?;
    }
    let place = append(&mut text, back, place)?;
    Ok((text, place))
}

/// Whether a name of 1,024 bytes passes no limit there, and one byte more does.
fn check_name(rt: &impl Abort, alloc: Global, front: &str, back: &str) -> Result<(), AllocError> {
    let (text, _) = with_name(alloc, front, 1024, back)?;
    let refusal = refusal_of(alloc, text.as_slice())?;
    assert!(rt;
        !matches!(refusal, Some(Refusal { reason: 50, .. })),
        "{front}"
    );
    let (text, place) = with_name(alloc, front, 1025, back)?;
    let wanted = Refusal {
        place,
        reason: 50,
        limit: 4,
    };
    assert_eq!(rt;
        refusal_of(alloc, text.as_slice())?,
        Some(wanted),
        "{front}"
    );
    Ok(())
}

/// A long name of each kind, within a file.
const NAMES: [(&str, &str); 11] = [
    (
        "(declare-term-types ((E 0) ([",
        " 0)) (() ()))
(synth-fun f () E)
(check-synth)
",
    ),
    (
        "(declare-term-types ((E 0) ([|",
        "| 0)) (() ()))
(synth-fun f () E)
(check-synth)
",
    ),
    (
        "(declare-term-types ((E 0)) (($a [",
        ")))
(synth-fun f () E)
(check-synth)
",
    ),
    (
        "(declare-term-types ((E 0)) (($a ([",
        " E))))
(synth-fun f () E)
(check-synth)
",
    ),
    (
        "(declare-term-types ((E 0)) (($a)))
(define-funs-rec (([",
        " ((t E)) Bool)) ((! (match t ()) :input () :output ())))
(synth-fun f () E)
(check-synth)
",
    ),
    (
        "(declare-term-types ((E 0)) (($a)))
(define-funs-rec ((S (([",
        " E)) Bool)) ((! (match t ()) :input () :output ())))
",
    ),
    (
        "(declare-term-types ((E 0)) (($a)))
(define-funs-rec ((S ((t E) ([",
        " Int)) Bool)) ((! (match t ()) :input () :output ())))
",
    ),
    (
        "(declare-term-types ((E 0)) (($a ($+ E E))))
(define-funs-rec ((S ((t E)) Bool)) ((! (match t ((($+ u [",
        ") true))) :input () :output ())))
(synth-fun f () E)
(check-synth)
",
    ),
    (
        "(declare-term-types ((E 0)) (($a)))
(define-funs-rec ((S ((t E)) Bool)) ((! (match t (($a (exists ((q Int) ([",
        " Int)) true)))) :input () :output ())))
",
    ),
    (
        "(declare-term-types ((E 0)) (($a)))
(synth-fun [",
        " () E)
(check-synth)
",
    ),
    (
        "(declare-term-types ((E 0)) (($a)))
(synth-fun f () E ((A E) ([",
        " E)) ((A E ()) (B E ())))
",
    ),
];

#[test]
fn names_have_1024_bytes_at_most(rt: HostRuntime) -> Result<(), Fail> {
    for (front, back) in NAMES {
        check_name(&rt, rt.alloc(), front, back)?;
    }
    Ok(())
}

/// Where a long name is used and not declared, it is unknown.
const USES: [(&str, &str); 6] = [
    (
        "(declare-term-types ((E 0)) ((($c [",
        "))))
",
    ),
    (
        "(declare-term-types ((E 0)) (($a)))
(synth-fun f () [",
        ")
",
    ),
    (
        "(declare-term-types ((E 0)) (($a)))
(define-funs-rec ((S ((t E)) Bool)) ((! (match t (([",
        " true))) :input () :output ())))
",
    ),
    (
        "(declare-term-types ((E 0)) (($a)))
(define-funs-rec ((S ((t E)) Bool)) ((! (match t ()) :input ([",
        ") :output ())))
",
    ),
    (
        "(declare-term-types ((E 0)) (($a)))
(define-funs-rec ((S ((t E)) Bool)) ((! (match t (($a (= 1 [",
        ")))) :input () :output ())))
",
    ),
    (
        "(declare-term-types ((E 0)) (($a)))
(synth-fun f () E)
(constraint ([",
        " f))
",
    ),
];

#[test]
fn long_names_that_are_unknown(rt: HostRuntime) -> Result<(), Fail> {
    for (front, back) in USES {
        let (text, place) = with_name(rt.alloc(), front, 1025, back)?;
        let wanted = Refusal {
            place,
            reason: 20,
            limit: 0,
        };
        let refusal = refusal_of(rt.alloc(), text.as_slice())?;
        assert_eq!(rt; refusal, Some(wanted), "{front}");
    }
    Ok(())
}

/// Why a rule is refused of a relation with three parameters and so many existentials, each filled; and the place of
/// the last of these.
fn refusal_of_rule(alloc: Global, count: u32) -> Result<(Option<Refusal>, usize), AllocError> {
    let mut text = Bytes::new(alloc);
    text.append(
        b"(declare-term-types ((E 0)) (($a)))
(define-funs-rec ((S ((t E) (x Int) (r Int)) Bool)) ((! (match t (($a (or (= r x) (exists (",
    )?;
    let place = append_items(alloc, &mut text, ("[(q", " Int)"), count, 0)?;
    text.append(b") (and (= r x)")?;
    append_items(alloc, &mut text, (" (= q", " 1)"), count, 0)?;
    text.append(
        b")))))) :input (x) :output (r))))
(synth-fun f () E)
(check-synth)
",
    )?;
    Ok((refusal_of(alloc, text.as_slice())?, place))
}

#[test]
fn a_rule_has_64_variables_at_most(rt: HostRuntime) -> Result<(), Fail> {
    let (refusal, _) = refusal_of_rule(rt.alloc(), 61)?;
    assert_eq!(rt; refusal, None);
    let (refusal, place) = refusal_of_rule(rt.alloc(), 62)?;
    let wanted = Refusal {
        place,
        reason: 50,
        limit: 10,
    };
    assert_eq!(rt; refusal, Some(wanted));
    Ok(())
}

/// Why a file is refused with so many nonterminals, and the place of the last.
fn refusal_of_grammar(alloc: Global, count: u32) -> Result<(Option<Refusal>, usize), AllocError> {
    let mut text = Bytes::new(alloc);
    text.append(
        b"(declare-term-types ((E 0)) (($a)))
(synth-fun f () E (",
    )?;
    let place = append_items(alloc, &mut text, ("[(N", " E)"), count, 0)?;
    text.append(b") (")?;
    append_items(alloc, &mut text, ("(N", " E ($a))"), count, 0)?;
    text.append(
        b"))
(check-synth)
",
    )?;
    Ok((refusal_of(alloc, text.as_slice())?, place))
}

#[test]
fn a_grammar_has_256_nonterminals_at_most(rt: HostRuntime) -> Result<(), Fail> {
    let (refusal, _) = refusal_of_grammar(rt.alloc(), 256)?;
    assert_eq!(rt; refusal, None);
    let (refusal, place) = refusal_of_grammar(rt.alloc(), 257)?;
    let wanted = Refusal {
        place,
        reason: 50,
        limit: 12,
    };
    assert_eq!(rt; refusal, Some(wanted));
    Ok(())
}

/// Why a file is refused that has these bytes, then 1,048,576 spaces, and then those bytes.
fn refusal_of_spaces(
    alloc: Global,
    front: &[u8],
    back: &[u8],
) -> Result<Option<Refusal>, AllocError> {
    let mut text = Bytes::new(alloc);
    text.append(front)?;
    for _ in 0..16_384 {
        text.append([b' '; 64].as_slice())?;
    }
    text.append(back)?;
    refusal_of(alloc, text.as_slice())
}

/// A file of the greatest length, and files that are one byte longer.
const LENGTHS: [(&[u8], &[u8], Refusal); 3] = [
    (
        b"",
        b"",
        Refusal {
            place: 1_048_576,
            reason: 60,
            limit: 0,
        },
    ),
    (
        b"",
        b" ",
        Refusal {
            place: 1_048_576,
            reason: 50,
            limit: 1,
        },
    ),
    (
        b")",
        b"",
        Refusal {
            place: 1_048_576,
            reason: 50,
            limit: 1,
        },
    ),
];

#[test]
fn a_file_has_1048576_bytes_at_most(rt: HostRuntime) -> Result<(), Fail> {
    for (front, back, wanted) in LENGTHS {
        let refusal = refusal_of_spaces(rt.alloc(), front, back)?;
        assert_eq!(rt; refusal, Some(wanted));
    }
    Ok(())
}
