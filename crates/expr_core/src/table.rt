ghost use Rattle.std.specs.Prelude.{◌≡◌};
ghost use Rattle.expr_core.specs.Sorts.{takes};

use crate::expr::Op;

/// Whether the operator takes so many operands: as in SMT-LIB 2.6, but that a single one will do for `and`, `or`, `+` and
/// `*`.
pub fn takes(op: Op, count: usize) -> bool
    ensures { result ≡ takes op count }
{
    match op {
        Op::Not | Op::Abs => count == 1,
        Op::Mod => count == 2,
        Op::Ite => count == 3,
        Op::And | Op::Or | Op::Add | Op::Minus | Op::Times => count >= 1,
        Op::Xor
        | Op::Implies
        | Op::Equal
        | Op::Distinct
        | Op::Div
        | Op::Less
        | Op::AtMost
        | Op::Greater
        | Op::AtLeast => count >= 2,
    }
}
