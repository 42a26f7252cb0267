use crate::commands::limit_of;
use sig_core::Bytes;
use std::alloc::{AllocError, Global};
use std::test::Fail;
use syntax_core::Head;

#[test]
fn full_files_take_no_more(rt: HostRuntime) -> Result<(), Fail> {
    let functions =
        "(define-funs-rec ((S ((t E)) Bool)) ((! (match t (($a true))) :input () :output ())))";
    let cases = [
        (Head::SetInfo, "(set-info :a)", 16384, 1024, None),
        (Head::DefineFunsRec, functions, 16383, 0, None),
        (Head::DefineFunsRec, functions, 16384, 0, Some((54, 11))),
        (
            Head::Constraint,
            "(constraint (and (S f) (S f)))",
            0,
            1022,
            None,
        ),
        (
            Head::Constraint,
            "(constraint (and (S f) (S f)))",
            0,
            1023,
            Some((23, 14)),
        ),
        (Head::CheckSynth, "(check-synth)", 16384, 1024, None),
    ];
    for (command, text, rules, constraints, wanted) in cases {
        let found = limit_of(rt.alloc(), rules, constraints, command, text.as_bytes())?;
        assert_eq!(rt; found, wanted, "{text}");
    }
    Ok(())
}

/// A text with something so many times in its middle.
fn repeated(
    alloc: Global,
    front: &[u8],
    item: &[u8],
    times: u16,
    back: &[u8],
) -> Result<Bytes, AllocError> {
    let mut text = Bytes::new(alloc);
    text.append(front)?;
    for _ in 0..times {
        text.append(item)?;
    }
    text.append(back)?;
    Ok(text)
}

/// A command, what stands before an item, the item, how often it stands, what stands after it, and the place and the number
/// of the limit that is passed.
type LimitedList = (
    Head,
    &'static str,
    &'static str,
    u16,
    &'static str,
    Option<(u32, u8)>,
);

const LISTS: [LimitedList; 14] = [
    (
        Head::DeclareTermTypes,
        "(declare-term-types ((",
        "E",
        1024,
        " 0)) (()))",
        None,
    ),
    (
        Head::DeclareTermTypes,
        "(declare-term-types ((",
        "E",
        1025,
        " 0)) (()))",
        Some((22, 4)),
    ),
    (
        Head::DeclareTermTypes,
        "(declare-term-types ((E 0)) ((($a",
        " E",
        16,
        "))))",
        None,
    ),
    (
        Head::DeclareTermTypes,
        "(declare-term-types ((E 0)) ((($a",
        " E",
        17,
        "))))",
        Some((30, 7)),
    ),
    (
        Head::DeclareTermTypes,
        "(declare-term-types ((E 0)) ((",
        "a ",
        4096,
        ")))",
        None,
    ),
    (
        Head::DeclareTermTypes,
        "(declare-term-types ((E 0)) ((",
        "a ",
        4097,
        ")))",
        Some((8222, 6)),
    ),
    (
        Head::DeclareTermTypes,
        "(declare-term-types (",
        "(E 0)",
        256,
        ") ())",
        None,
    ),
    (
        Head::DeclareTermTypes,
        "(declare-term-types (",
        "(E 0)",
        257,
        ") ())",
        Some((1302, 5)),
    ),
    (
        Head::DefineFunsRec,
        "(define-funs-rec ((S (",
        "(p Int)",
        32,
        ") Bool)) (a))",
        None,
    ),
    (
        Head::DefineFunsRec,
        "(define-funs-rec ((S (",
        "(p Int)",
        33,
        ") Bool)) (a))",
        Some((246, 9)),
    ),
    (
        Head::SynthFun,
        "(synth-fun f () E (",
        "(A E)",
        256,
        ") ())",
        None,
    ),
    (
        Head::SynthFun,
        "(synth-fun f () E (",
        "(A E)",
        257,
        ") ())",
        Some((1299, 12)),
    ),
    (
        Head::SynthFun,
        "(synth-fun f () E ((A E)) ((A E (",
        "a ",
        4096,
        "))))",
        None,
    ),
    (
        Head::SynthFun,
        "(synth-fun f () E ((A E)) ((A E (",
        "a ",
        4097,
        "))))",
        Some((8225, 13)),
    ),
];

#[test]
fn lists_end_at_their_limits(rt: HostRuntime) -> Result<(), Fail> {
    for (command, front, item, times, back, wanted) in LISTS {
        let text = repeated(
            rt.alloc(),
            front.as_bytes(),
            item.as_bytes(),
            times,
            back.as_bytes(),
        )?;
        let found = limit_of(rt.alloc(), 0, 0, command, text.as_slice())?;
        assert_eq!(rt; found, wanted, "{front}");
    }
    Ok(())
}

/// The limit passed by a rule of a relation with four parameters and so many existentials.
fn limit_of_rule(alloc: Global, more: u16) -> Result<Option<(u32, u8)>, AllocError> {
    let text = repeated(
        alloc,
        b"(define-funs-rec ((S ((t E) (x Int) (y Int) (r Int)) Bool)) ((! (match t (($a (exists (",
        b"(v Int)",
        more,
        b") true)))) :input (x y) :output (r))))",
    )?;
    limit_of(alloc, 0, 0, Head::DefineFunsRec, text.as_slice())
}

#[test]
fn rules_have_64_variables_at_most(rt: HostRuntime) -> Result<(), Fail> {
    assert_eq!(rt; limit_of_rule(rt.alloc(), 60)?, None);
    assert_eq!(rt; limit_of_rule(rt.alloc(), 61)?, Some((507, 10)));
    Ok(())
}
