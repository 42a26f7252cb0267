//! The verdict on answers, and answers that are printed as they were read.
use crate::texts::{Said, said_of, said_of_narrow};
use answer_core::{Verdict, print_answer, read_answer};
use deriv_core::BadStep;
use example_problems::problem;
use problem_core::Problem;
use sig_core::Bytes;
use spelling_tests::forms_of;
use std::alloc::{AllocError, Global};
use std::process::Abort;
use std::test::Fail;

const FOUND: &str =
    "(answer 1)\n(term $a)\n(size 1)\n(node 0 $a)\n(step 0 S 0 0 (1) ())\n(derived 0 0)\n";

fn bad_step(step: usize, reason: u8) -> Verdict {
    Verdict::Step(BadStep { step, reason })
}

/// What each text is due, where the term is to give 1 within height 1.
fn assert_verdicts(rt: &impl Abort, alloc: Global, cases: &[(&str, Verdict)]) -> Result<(), Fail> {
    for (text, verdict) in cases {
        let found = said_of(alloc, &[1], text, 1)?;
        assert_eq!(rt; found, Said::Judged(*verdict), "{text}");
    }
    Ok(())
}

#[test]
fn an_answer_and_its_forgeries(rt: HostRuntime) -> Result<(), Fail> {
    let cases = [
        (FOUND, Verdict::Valid),
        (
            "(answer 1)(term $a)(size 2)(node 0 $a)(step 0 S 0 0 (1) ())(derived 0 0)",
            Verdict::Size,
        ),
        (
            "(answer 1)(term $a)(size 1)(node 0 $a)(node 1 $c)(step 0 S 0 0 (1) ())(derived 0 0)",
            Verdict::Nodes,
        ),
        (
            "(answer 1)(term $a)(size 2)(node 0 $c)(step 0 S 0 0 (1) ())(derived 0 0)",
            Verdict::Nodes,
        ),
        (
            "(answer 1)(term $a)(size 1)(node 0 $a)(step 0 S 0 1 (1) ())(derived 0 0)",
            bad_step(0, 1),
        ),
        (
            "(answer 1)(term $a)(size 1)(node 0 $a)(step 0 S 0 0 (1) (0))(derived 0 0)",
            bad_step(0, 3),
        ),
        (
            "(answer 1)(term $c)(size 1)(node 0 $c)(step 0 S 0 0 (0) ())(derived 0 0)",
            Verdict::Constraint(0),
        ),
    ];
    assert_verdicts(&rt, rt.alloc(), &cases)
}

#[test]
fn other_spellings(rt: HostRuntime) -> Result<(), Fail> {
    let cases = [
        (
            "(answer 1) ; found\n(term (|$a|))(size 1)(node 0 |$a|)(step 0 |S| 0 0 (1) ())(derived 0 0)",
            Verdict::Valid,
        ),
        (
            "(answer 1)(term $a)(size 1)(node 0 $a)(step 0 S 0 0 (-4) ())(derived 0 0)",
            bad_step(0, 5),
        ),
        (
            "(answer 1)(term $a)(size 1)(node 0 $a)(step 0 S 0 0 ((- 4)) ())(derived 0 0)",
            bad_step(0, 5),
        ),
    ];
    assert_verdicts(&rt, rt.alloc(), &cases)
}

#[test]
fn a_step_above_the_height(rt: HostRuntime) -> Result<(), Fail> {
    let found = said_of(rt.alloc(), &[1], FOUND, 0)?;
    assert_eq!(rt; found, Said::Judged(bad_step(0, 6)));
    Ok(())
}

#[test]
fn a_term_outside_the_grammar(rt: HostRuntime) -> Result<(), Fail> {
    let found = said_of_narrow(rt.alloc(), FOUND)?;
    assert_eq!(rt; found, Said::Judged(Verdict::Valid));
    let other = "(answer 1)(term $c)(size 1)(node 0 $c)(step 0 S 0 1 (1) ())(derived 0 0)";
    let found = said_of_narrow(rt.alloc(), other)?;
    assert_eq!(rt; found, Said::Judged(Verdict::Grammar));
    Ok(())
}

#[test]
fn two_examples_with_a_step_each(rt: HostRuntime) -> Result<(), Fail> {
    let steps =
        "(answer 1)(term $c)(size 1)(node 0 $c)(step 0 S 0 0 (0) ())(step 1 S 0 1 (1) ())(derived 0 0)(derived 1 1)";
    let found = said_of(rt.alloc(), &[0, 1], steps, 1)?;
    assert_eq!(rt; found, Said::Judged(Verdict::Valid));
    let one =
        "(answer 1)(term $c)(size 1)(node 0 $c)(step 0 S 0 0 (0) ())(step 1 S 0 1 (1) ())(derived 0 0)(derived 1 0)";
    let found = said_of(rt.alloc(), &[0, 1], one, 1)?;
    assert_eq!(rt; found, Said::Judged(Verdict::Constraint(1)));
    Ok(())
}

/// The text of the answer that is read from this one.
fn printed(alloc: Global, problem: &Problem, text: &[u8]) -> Result<Option<Bytes>, AllocError> {
    if text.len() > 1000 {
        return Ok(None);
    }
    let Some(forms) = forms_of(alloc, text)? else {
        return Ok(None);
    };
    let Ok(answer) = read_answer(alloc, problem, &forms, 0) else {
        return Ok(None);
    };
    let signature = problem.signature();
    let derived = answer.derived.as_slice();
    let text = print_answer(
        alloc,
        signature,
        &answer.bank,
        answer.root,
        &answer.steps,
        derived,
    )?;
    Ok(Some(text))
}

fn printed_of(alloc: Global, text: &[u8]) -> Result<Option<Bytes>, AllocError> {
    match problem(alloc, &[1]) {
        Some(problem) => printed(alloc, &problem, text),
        None => Err(AllocError),
    }
}

fn assert_printed_again(rt: &impl Abort, alloc: Global, text: &[u8]) -> Result<(), Fail> {
    let Some(printed) = printed_of(alloc, text)? else {
        return Err(Fail::from("it isn't read"));
    };
    assert_eq!(rt; printed.as_slice(), text);
    Ok(())
}

#[test]
fn prints_what_was_read(rt: HostRuntime) -> Result<(), Fail> {
    assert_printed_again(&rt, rt.alloc(), FOUND.as_bytes())?;
    assert_printed_again(
        &rt,
        rt.alloc(),
        b"(answer 1)\n(term ($p $a ($p $c $a)))\n(size 5)\n(node 0 $a)\n(node 1 $c)\n(node 2 $p 1 0)\n(node 3 $p 0 2)\n(step 0 S 0 0 (1 (- 7) true) ())\n(step 1 S 2 3 () (0 0))\n(derived 0 1)\n",
    )
}
