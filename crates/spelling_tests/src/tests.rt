use crate::reading::forms_of;
use sexpr_core::{Atom, FeedError, Forest, LexFault, Reader, Sexpr, print};
use sig_core::Bytes;
use std::alloc::{AllocError, Global};
use std::fmt::Write;
use std::process::Abort;
use std::test::Fail;

/// A kind, a place and, after `=`, the bytes.
fn show_atom(kind: char, atom: &Atom, out: &mut String) -> Result<(), AllocError> {
    let place = atom.place;
    write!(out, "{kind}{place}=")?;
    for byte in atom.bytes.as_slice() {
        out.push(char::from(*byte))?;
    }
    out.push(' ')
}

fn show(form: &Sexpr, out: &mut String) -> Result<(), AllocError> {
    match form {
        Sexpr::Symbol(atom) => show_atom('s', atom, out)?,
        Sexpr::Numeral(atom) => show_atom('n', atom, out)?,
        Sexpr::Text(atom) => show_atom('t', atom, out)?,
        Sexpr::Keyword(atom) => show_atom('k', atom, out)?,
        Sexpr::List(nest) => {
            let place = nest.place;
            write!(out, "({place} ")?;
            for item in nest.items.as_slice() {
                show(item, out)?;
            }
            out.push_str(") ")?;
        }
    }
    Ok(())
}

/// The forms that the text spells, shown. `none` where it isn't a spelling.
fn reading(rt: &impl Abort, alloc: Global, text: &[u8]) -> Result<String, AllocError> {
    assert!(rt; text.len() < 1000);
    let mut out = String::new(alloc);
    let Some(forest) = forms_of(alloc, text)? else {
        out.push_str("none")?;
        return Ok(out);
    };
    for k in 0..forest.len() {
        let Some(form) = forest.get(k) else {
            break;
        };
        show(form, &mut out)?;
    }
    Ok(out)
}

#[test]
fn reads_spellings(rt: HostRuntime) -> Result<(), Fail> {
    let cases = [
        ("", ""),
        (" \t\r\n", ""),
        ("abc", "s0=abc "),
        ("0", "n0=0 "),
        ("(12)", "(0 n1=12 ) "),
        ("\t\r\n a", "s4=a "),
        ("(a (b 12) :k)\n0", "(0 s1=a (3 s4=b n6=12 ) k10=k ) n14=0 "),
        ("a:b:c", "s0=a k1=b k3=c "),
        ("-1 x1()", "s0=-1 s3=x1 (5 ) "),
        ("~!@$%^&*_-+=<>.?/Zz9", "s0=~!@$%^&*_-+=<>.?/Zz9 "),
        ("90 9", "n0=90 n3=9 "),
        ("((x)y)z", "(0 (1 s2=x ) s4=y ) s6=z "),
    ];
    for (text, want) in cases {
        let read = reading(&rt, rt.alloc(), text.as_bytes())?;
        assert_eq!(rt; read.as_str(), want, "at {text}");
    }
    Ok(())
}

#[test]
fn reads_comments_and_quotes(rt: HostRuntime) -> Result<(), Fail> {
    let cases = [
        ("a;b", "s0=a "),
        ("(a ;)\nb)", "(0 s1=a s6=b ) "),
        (";\u{0}\u{7f}|\"\r0", "n6=0 "),
        ("|a b|", "s0=a b "),
        ("||", "s0= "),
        ("|$x| $x", "s0=$x s5=$x "),
        ("|;\"|a", "s0=;\" s4=a "),
        ("\"a\"\"b\"", "t0=a\"b "),
        ("\"\"\"\"", "t0=\" "),
        ("\"a\"x", "t0=a s3=x "),
        ("\"\\|;é\"", "t0=\\|;Ã© "),
    ];
    for (text, want) in cases {
        let read = reading(&rt, rt.alloc(), text.as_bytes())?;
        assert_eq!(rt; read.as_str(), want, "at {text}");
    }
    Ok(())
}

#[test]
fn refuses_what_is_no_spelling(rt: HostRuntime) -> Result<(), Fail> {
    let cases = [
        ")", "a)", "(", "(()", "00", "01", "12a", "0a", "1+", "(1-)", ":", ":1", ": a", "a :",
        "\u{1}", "a\u{7f}", "é", "[", "{", "'", ",", "#x0", "\\", "(;)", "|", "|a", "|a\\|",
        "|\0|", "\"", "\"a", "\"a\"\"", "\"\x7f\"",
    ];
    for text in cases {
        let read = reading(&rt, rt.alloc(), text.as_bytes())?;
        assert_eq!(rt; read.as_str(), "none", "at {text}");
    }
    Ok(())
}

/// The byte, so many times.
fn put_times(text: &mut Bytes, byte: u8, times: usize) -> Result<(), AllocError> {
    for _ in 0..times {
        text.push(byte)?;
    }
    Ok(())
}

/// So many opening parentheses, and as many closing ones.
fn nested(alloc: Global, levels: usize) -> Result<Bytes, AllocError> {
    let mut text = Bytes::new(alloc);
    put_times(&mut text, b'(', levels)?;
    put_times(&mut text, b')', levels)?;
    Ok(text)
}

#[test]
fn lists_nest_200_deep(rt: HostRuntime) -> Result<(), Fail> {
    let deepest = nested(rt.alloc(), 200)?;
    assert_ne!(rt;
        reading(&rt, rt.alloc(), deepest.as_slice())?.as_str(),
        "none"
    );
    let deeper = nested(rt.alloc(), 201)?;
    assert_eq!(rt;
        reading(&rt, rt.alloc(), deeper.as_slice())?.as_str(),
        "none"
    );
    Ok(())
}

#[test]
fn forests_give_their_forms_in_order(rt: HostRuntime) -> Result<(), Fail> {
    let mut forest = Forest::new(rt.alloc());
    assert!(rt; forest.take_first().is_none());
    for place in 0..3 {
        let bytes = Bytes::new(rt.alloc());
        forest.push(Sexpr::Symbol(Atom { place, bytes }))?;
    }
    assert_eq!(rt; forest.len(), 3);
    assert!(rt; matches!(forest.get(2), Some(Sexpr::Symbol(Atom { place: 2, .. }))));
    assert!(rt; forest.get(3).is_none());
    assert!(rt;
        matches!(
            &forest.take_first(),
            Some(Sexpr::Symbol(Atom { place: 0, .. }))
        )
    );
    assert_eq!(rt; forest.len(), 2);
    assert!(rt; matches!(forest.get(0), Some(Sexpr::Symbol(Atom { place: 1, .. }))));
    Ok(())
}

/// The canonical spellings of the forms that the text spells, each on a line.
fn printed(rt: &impl Abort, alloc: Global, text: &[u8]) -> Result<Bytes, AllocError> {
    assert!(rt; text.len() < 1000);
    let mut out = Bytes::new(alloc);
    let Some(forest) = forms_of(alloc, text)? else {
        return Ok(out);
    };
    for k in 0..forest.len() {
        let Some(form) = forest.get(k) else {
            break;
        };
        print(form, &mut out)?;
        out.push(b'\n')?;
    }
    Ok(out)
}

#[test]
fn prints_canonical_spellings(rt: HostRuntime) -> Result<(), Fail> {
    let cases = [
        ("|$x| |a b| || |-4|", "$x\n|a b|\n||\n-4\n"),
        ("\"say \"\"so\"\"\" 0 12", "\"say \"\"so\"\"\"\n0\n12\n"),
        (
            "(set-info\t:a ; a comment\n ( b() ) )",
            "(set-info :a (b ()))\n",
        ),
        ("(((x)y)\r\nz)", "(((x) y) z)\n"),
    ];
    for (text, wanted) in cases {
        let out = printed(&rt, rt.alloc(), text.as_bytes())?;
        assert_eq!(rt; out.as_slice(), wanted.as_bytes(), "{text}");
    }
    Ok(())
}

/// The forms of a forest, shown.
fn show_all(forest: &Forest, out: &mut String) -> Result<(), AllocError> {
    for k in 0..forest.len() {
        let Some(form) = forest.get(k) else {
            break;
        };
        show(form, out)?;
    }
    Ok(())
}

/// What was answered: `ok`, or the place and the reason of a fault.
fn show_answer(answer: Result<(), FeedError>, out: &mut String) -> Result<(), AllocError> {
    match answer {
        Ok(()) => out.push_str("ok "),
        Err(FeedError::Memory) => out.push_str("memory "),
        Err(FeedError::Lex(LexFault { place, reason })) => write!(out, "{place}:{reason} "),
    }
}

/// Feeds two pieces and then ends the stream. The answers with the forms that each call added.
fn feeding(
    rt: &impl Abort,
    alloc: Global,
    first: &[u8],
    second: &[u8],
) -> Result<String, AllocError> {
    assert!(rt; first.len() < 2000 && second.len() < 2000);
    let mut out = String::new(alloc);
    let mut reader = Reader::new(alloc);
    let mut added = Forest::new(alloc);
    show_answer(reader.feed(first, &mut added), &mut out)?;
    show_all(&added, &mut out)?;
    let mut added = Forest::new(alloc);
    show_answer(reader.feed(second, &mut added), &mut out)?;
    show_all(&added, &mut out)?;
    let mut added = Forest::new(alloc);
    show_answer(reader.finish(&mut added), &mut out)?;
    show_all(&added, &mut out)?;
    Ok(out)
}

#[test]
fn reads_in_pieces(rt: HostRuntime) -> Result<(), Fail> {
    let cases = [
        ("ab", "cd", "ok ok ok s0=abcd "),
        ("\"a\"", "\"b\"", "ok ok ok t0=a\"b "),
        ("12", "a", "ok 2:2 2:2 "),
        ("0", "1", "ok 1:2 1:2 "),
        ("a", "bc,", "ok 3:1 s0=abc 3:1 "),
        ("|a", "", "ok ok 2:3 "),
        (")", "a", "0:4 0:4 0:4 "),
        ("-", "4", "ok ok ok s0=-4 "),
        ("(a", ") b ", "ok ok (0 s1=a ) s4=b ok "),
        ("a;b", "\nc", "ok s0=a ok ok s4=c "),
        ("|a|", "b", "ok s0=a ok ok s3=b "),
        (":", ")", "ok 1:4 1:4 "),
        ("(:", ")", "ok 2:1 2:1 "),
        (":", "", "ok ok 1:3 "),
        (":", "1", "ok 1:1 1:1 "),
        (":", "(", "ok 1:1 1:1 "),
        ("((", "a b", "ok ok 5:3 "),
        ("0", "", "ok ok ok n0=0 "),
        ("0", ")", "ok 1:4 n0=0 1:4 "),
        ("(12", "a)", "ok 3:2 3:2 "),
        ("x \"\u{7f}", "", "3:1 s0=x 3:1 3:1 "),
        ("|\\", "", "1:1 1:1 1:1 "),
    ];
    for (first, second, wanted) in cases {
        let read = feeding(&rt, rt.alloc(), first.as_bytes(), second.as_bytes())?;
        assert_eq!(rt; read.as_str(), wanted, "at {first} and {second}");
    }
    Ok(())
}

#[test]
fn level_201_is_refused_at_its_place(rt: HostRuntime) -> Result<(), Fail> {
    let deepest = nested(rt.alloc(), 200)?;
    let deeper = nested(rt.alloc(), 201)?;
    assert_eq!(rt;
        feeding(&rt, rt.alloc(), deeper.as_slice(), b"")?.as_str(),
        "200:5 200:5 200:5 "
    );
    assert_ne!(rt;
        feeding(&rt, rt.alloc(), deepest.as_slice(), b"")?.as_str(),
        "200:5 200:5 200:5 "
    );
    Ok(())
}
