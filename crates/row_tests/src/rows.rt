use crate::answers;
use crate::files::{DBL_MAX, TINY_TWICE};
use crate::running::{check, check_over, file_of};
use example_files::{
    DBL_MIN, LEAST, MANY, MAX2, MAX2_ANSWER, PICK, SHIFT, SLOW, TINY_ANSWER, TINY_EMPTY,
};
use semgus_app::Status;
use std::alloc::{AllocError, Global};
use std::test::Fail;

#[test]
fn max2_at_height_3_and_size_6(rt: HostRuntime) -> Result<(), Fail> {
    check(
        &rt,
        rt.alloc(),
        "solve p.sl 3 6",
        MAX2,
        Status::Found,
        MAX2_ANSWER,
    )?;
    Ok(())
}

#[test]
fn max2_with_the_bounds_that_are_usual(rt: HostRuntime) -> Result<(), Fail> {
    check(
        &rt,
        rt.alloc(),
        "solve p.sl",
        MAX2,
        Status::Found,
        MAX2_ANSWER,
    )?;
    Ok(())
}

#[test]
fn max2_below_its_height_or_its_size(rt: HostRuntime) -> Result<(), Fail> {
    for line in ["solve p.sl 2 6", "solve p.sl 3 5"] {
        check(&rt, rt.alloc(), line, MAX2, Status::NoTerm, "none\n")?;
    }
    Ok(())
}

/// The file without its examples, each of which stands on a line of its own.
fn without_examples(alloc: Global, file: &str) -> Result<String, AllocError> {
    let mut rest = String::new(alloc);
    for line in file.lines() {
        if !line.starts_with("(constraint ") {
            rest.push_str(line)?;
            rest.push('\n')?;
        }
    }
    Ok(rest)
}

#[test]
fn the_first_term_where_there_are_no_examples(rt: HostRuntime) -> Result<(), Fail> {
    let file = without_examples(rt.alloc(), MAX2)?;
    check(
        &rt,
        rt.alloc(),
        "solve p.sl 1 1",
        file.as_str(),
        Status::Found,
        answers::FIRST,
    )?;
    Ok(())
}

/// Files and bounds with the answers that are due.
const FOUND: [(&str, &str, &str); 8] = [
    ("solve p.sl 4 4", DBL_MIN, answers::DBL_MIN),
    ("solve p.sl 2 2", SHIFT, answers::SHIFT),
    ("solve p.sl 2 2", SLOW, answers::FAST),
    ("solve p.sl 3 2", SLOW, answers::SLOW),
    ("solve p.sl 1 1", LEAST, answers::LEAST),
    ("solve p.sl 2 1", PICK, answers::PICK),
    ("solve p.sl 1 1", TINY_TWICE, TINY_ANSWER),
    ("solve p.sl 1000 40", TINY_TWICE, TINY_ANSWER),
];

#[test]
fn answers_that_are_due(rt: HostRuntime) -> Result<(), Fail> {
    for (line, text, answer) in FOUND {
        check(&rt, rt.alloc(), line, text, Status::Found, answer)?;
    }
    Ok(())
}

/// Files and bounds without an answer.
const NONE: [(&str, &str); 7] = [
    ("solve p.sl 4 4", DBL_MAX),
    ("solve p.sl 2 1", SHIFT),
    ("solve p.sl 1 2", SLOW),
    ("solve p.sl 1 1", PICK),
    ("solve p.sl 1 1", TINY_EMPTY),
    ("solve p.sl 1000 40", TINY_EMPTY),
    ("solve p.sl 3 40", MANY),
];

#[test]
fn files_without_an_answer(rt: HostRuntime) -> Result<(), Fail> {
    for (line, text) in NONE {
        check(&rt, rt.alloc(), line, text, Status::NoTerm, "none\n")?;
    }
    Ok(())
}

/// Words that have none of the forms.
const BAD_WORDS: [&str; 21] = [
    "",
    "solve",
    "solve p.sl 0 5",
    "solve p.sl 5 0",
    "solve p.sl 01 5",
    "solve p.sl 5 01",
    "solve p.sl 1001 5",
    "solve p.sl 5 41",
    "solve p.sl 5",
    "solve p.sl -1 5",
    "solve p.sl +1 1",
    "solve p.sl 1 1 1",
    "show p.sl 1 1",
    "solve p.sl 1 5 ",
    "solve  p.sl 1 5",
    "solve p.sl 1x 5",
    "solve p.sl 18446744073709551617 1",
    "solve p.sl 1 4294967297",
    "Solve p.sl",
    "solve-it p.sl",
    "p.sl",
];

#[test]
fn words_without_a_form(rt: HostRuntime) -> Result<(), Fail> {
    for line in BAD_WORDS {
        check(&rt, rt.alloc(), line, MAX2, Status::BadWords, "bad words\n")?;
    }
    Ok(())
}

#[test]
fn a_file_that_is_absent(rt: HostRuntime) -> Result<(), Fail> {
    check(
        &rt,
        rt.alloc(),
        "solve absent.sl",
        MAX2,
        Status::CannotOpen,
        "cannot open absent.sl\n",
    )?;
    Ok(())
}

#[test]
fn max2_in_pieces(rt: HostRuntime) -> Result<(), Fail> {
    for piece in [1, 2, 7, 100, 4096] {
        let mut files = file_of(rt.alloc(), MAX2)?;
        files.piece(piece);
        check_over(
            &rt,
            rt.alloc(),
            "solve p.sl 3 6",
            &mut files,
            Status::Found,
            MAX2_ANSWER,
        )?;
    }
    Ok(())
}
