ghost use Rattle.std.specs.Prelude.{◌≡◌, ◌≢◌, List, [], ◌∷◌, option_and_then};
ghost use Rattle.sig_core.specs.declared.value.Value.{Value};
ghost use Rattle.expr_core.specs.Operators.{applied};
ghost use Rattle.expr_core.specs.Partials.{of_neighbours, of_two_numbers, of_two_truths, value_after};
ghost use Rattle.expr_core.specs.declared.expr.Op.TheVariants as variant;

use crate::expr::Op;
use crate::numbers::{quotient, remainder};
use sig_core::Value;

/// What an operator has made of its first operands.
#[derive(Clone, Copy, Debug)]
pub(crate) enum Partial {
    /// of the operators on numbers that are folded from the left
    Number(i128),
    /// of those on truth values
    Truth(bool),
    /// of `=>`: whether a premise before the last operand is false
    Premises { refuted: bool, last: bool },
    /// of `=` and the comparisons: whether each operand is so related to the next
    Neighbours { holds: bool, last: Value },
    /// of `mod`, its first operand
    Dividend(i128),
    /// the value, where no more operands are taken
    Whole(Value),
}

/// What the operator gives of a single operand.
pub(crate) fn of_single(op: Op, value: Value) -> Option<Value>
    ensures { result ≡ applied op (value ∷ []) }
{
    match (op, value) {
        (Op::Not, Value::Bool(truth)) => Some(Value::Bool(!truth)),
        (Op::And | Op::Or, Value::Bool(_)) | (Op::Add | Op::Times, Value::Int(_)) => Some(value),
        (Op::Minus, Value::Int(number)) => number.checked_neg().map(Value::Int),
        (Op::Abs, Value::Int(number)) => number.checked_abs().map(Value::Int),
        _ => None,
    }
}

/// What the operator makes of the first of two or more operands.
pub(crate) fn start(op: Op, first: Value) -> Option<Partial>
    requires strict { op ≢ variant.Ite }
    requires pairwise { op ≢ variant.Distinct }
    ensures { (second : Value) (more : List Value) →
        applied op (first ∷ second ∷ more) ≡ option_and_then (λ made. value_after op made (second ∷ more)) result }
{
    let neighbours = Some(Partial::Neighbours {
        holds: true,
        last: first,
    });
    match (op, first) {
        (Op::Add | Op::Minus | Op::Times | Op::Div, Value::Int(number)) => {
            Some(Partial::Number(number))
        }
        (Op::Mod, Value::Int(number)) => Some(Partial::Dividend(number)),
        (Op::And | Op::Or | Op::Xor, Value::Bool(truth)) => Some(Partial::Truth(truth)),
        (Op::Implies, Value::Bool(truth)) => Some(Partial::Premises {
            refuted: false,
            last: truth,
        }),
        (Op::Less, Value::Int(_)) => neighbours,
        (Op::AtMost, Value::Int(_)) => neighbours,
        (Op::Greater, Value::Int(_)) => neighbours,
        (Op::AtLeast, Value::Int(_)) => neighbours,
        (Op::Equal, _) => neighbours,
        _ => None,
    }
}

/// What the operator makes of one operand more.
pub(crate) fn advance(op: Op, made: Partial, value: Value) -> Option<Partial>
    ensures { (more : List Value) →
        value_after op made (value ∷ more) ≡ option_and_then (λ next. value_after op next more) result }
{
    match (made, value) {
        (Partial::Number(left), Value::Int(right)) => {
            of_two_numbers(op, left, right).map(Partial::Number)
        }
        (Partial::Truth(left), Value::Bool(right)) => {
            of_two_truths(op, left, right).map(Partial::Truth)
        }
        (Partial::Premises { refuted, last }, Value::Bool(truth)) => {
            Some(Partial::Premises {
                refuted: refuted | !last,
                last: truth,
            })
        }
        (Partial::Neighbours { holds, last }, _) => {
            let related = of_neighbours(op, last, value)?;
            Some(Partial::Neighbours {
                holds: holds & related,
                last: value,
            })
        }
        (Partial::Dividend(dividend), Value::Int(divisor)) => {
            let rest = remainder(dividend, divisor)?;
            Some(Partial::Whole(Value::Int(rest)))
        }
        _ => None,
    }
}

/// What the operator gives where no operand follows.
pub(crate) fn finish(op: Op, made: Partial) -> Option<Value>
    ensures { result ≡ value_after op made [] }
{
    match made {
        Partial::Number(number) => Some(Value::Int(number)),
        Partial::Truth(truth) => Some(Value::Bool(truth)),
        Partial::Premises { refuted, last } => Some(Value::Bool(refuted | last)),
        Partial::Neighbours { holds, last: _ } => Some(Value::Bool(holds)),
        Partial::Dividend(_) => None,
        Partial::Whole(value) => Some(value),
    }
}

fn of_two_numbers(op: Op, left: i128, right: i128) -> Option<i128>
    ensures { result ≡ of_two_numbers op left right }
{
    match op {
        Op::Add => left.checked_add(right),
        Op::Minus => left.checked_sub(right),
        Op::Times => left.checked_mul(right),
        Op::Div => quotient(left, right),
        _ => None,
    }
}

fn of_two_truths(op: Op, left: bool, right: bool) -> Option<bool>
    ensures { result ≡ of_two_truths op left right }
{
    match op {
        Op::And => Some(left & right),
        Op::Or => Some(left | right),
        Op::Xor => Some(left ^ right),
        _ => None,
    }
}

fn of_neighbours(op: Op, left: Value, right: Value) -> Option<bool>
    ensures { result ≡ of_neighbours op left right }
{
    match (op, left, right) {
        (Op::Less, Value::Int(m), Value::Int(n)) => Some(m < n),
        (Op::AtMost, Value::Int(m), Value::Int(n)) => Some(m <= n),
        (Op::Greater, Value::Int(m), Value::Int(n)) => Some(m > n),
        (Op::AtLeast, Value::Int(m), Value::Int(n)) => Some(m >= n),
        (Op::Equal, Value::Int(m), Value::Int(n)) => Some(m == n),
        (Op::Equal, Value::Bool(a), Value::Bool(b)) => Some(a == b),
        _ => None,
    }
}
