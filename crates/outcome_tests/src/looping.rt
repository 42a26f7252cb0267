//! Relations that ask themselves.
ghost use Rattle.std.specs.Prelude.{◌≡◌, All, IfOk};
ghost use Rattle.eval_core.specs.Evaluations.{IsAccepted};
ghost use Rattle.example_loops.specs.Loops.{loops};

use crate::expecting::expect;
use example_loops::{S, counting_rules, fibonacci_rules, loops};
use example_outcomes::{Given, Question, found_by};
use example_terms::LEAF;
use rule_core::{AddError, Rulebook};
use sig_core::{Signature, Value};
use std::alloc::Global;

/// What the relation counts: twos, or the numbers of Fibonacci.
#[derive(Clone, Copy)]
enum Counting {
    Twos,
    Fibonacci,
}

fn book(alloc: Global, signature: &Signature, counting: Counting) -> Result<Rulebook, AddError>
    requires { signature.now ≡ loops }
    ensures { IfOk result (All (IsAccepted signature.now)) }
{
    match counting {
        Counting::Twos => counting_rules(alloc, signature),
        Counting::Fibonacci => fibonacci_rules(alloc, signature),
    }
}

fn at_by(
    alloc: Global,
    signature: &Signature,
    counting: Counting,
    inputs: &[Value],
    height: u32,
) -> Result<Given, AddError>
    requires { signature.now ≡ loops }
{
    let question = Question {
        relation: S,
        inputs,
        height,
    };
    let book = book(alloc, signature, counting);
    found_by(alloc, signature, book, &LEAF, &question)
}

/// What the relation gives at x.
fn at(alloc: Global, counting: Counting, x: i128, height: u32) -> Result<Given, AddError> {
    match loops(alloc) {
        Ok(signature) => at_by(alloc, &signature, counting, &[Value::Int(x)], height),
        Err(_) => Err(AddError::Memory),
    }
}

#[test]
fn each_round_is_one_higher(rt: HostRuntime) {
    expect(&rt, at(rt.alloc(), Counting::Twos, 3, 4), &[(6, 4)]);
    expect(&rt, at(rt.alloc(), Counting::Twos, 3, 3), &[]);
    expect(&rt, at(rt.alloc(), Counting::Twos, -5, 1), &[(0, 1)]);
}

/// Without the table of outcomes this takes more than 10 ^ 12 calls.
#[test]
fn sixty_is_reached_at_once(rt: HostRuntime) {
    let sixtieth = [(1548008755920, 60)];
    expect(&rt, at(rt.alloc(), Counting::Fibonacci, 60, 59), &[]);
    expect(&rt, at(rt.alloc(), Counting::Fibonacci, 60, 60), &sixtieth);
}
