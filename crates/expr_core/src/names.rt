//! The names of the operators, by the theories Core and Ints of SMT-LIB 2.6.
ghost use Rattle.std.specs.Prelude.{◌≡◌};
ghost use Rattle.sig_core.specs.Names.{same_name};
ghost use Rattle.expr_core.specs.Names.{operator_name, operator_named, number_operator_named};

use crate::expr::Op;
use sig_core::is_word;

/// The operator's name.
pub fn name_of(op: Op) -> &'static [u8]
    ensures { result.now ≡ operator_name op }
{
    match op {
        Op::Not => b"not",
        Op::And => b"and",
        Op::Or => b"or",
        Op::Xor => b"xor",
        Op::Implies => b"=>",
        Op::Equal => b"=",
        Op::Distinct => b"distinct",
        Op::Ite => b"ite",
        Op::Add => b"+",
        Op::Minus => b"-",
        Op::Times => b"*",
        Op::Div => b"div",
        Op::Mod => b"mod",
        Op::Abs => b"abs",
        Op::Less => b"<",
        Op::AtMost => b"<=",
        Op::Greater => b">",
        Op::AtLeast => b">=",
    }
}

/// The operator with this name; none where none has it.
pub fn operator_named(name: &[u8]) -> Option<Op>
    ensures { result ≡ operator_named name.now }
{
    if is_word(name, b"not") {
        Some(Op::Not)
    } else if is_word(name, b"and") {
        Some(Op::And)
    } else if is_word(name, b"or") {
        Some(Op::Or)
    } else if is_word(name, b"xor") {
        Some(Op::Xor)
    } else if is_word(name, b"=>") {
        Some(Op::Implies)
    } else if is_word(name, b"=") {
        Some(Op::Equal)
    } else if is_word(name, b"distinct") {
        Some(Op::Distinct)
    } else if is_word(name, b"ite") {
        Some(Op::Ite)
    } else {
        number_operator_named(name)
    }
}

/// The operator of the theory Ints with this name.
fn number_operator_named(name: &[u8]) -> Option<Op>
    ensures { result ≡ number_operator_named name.now }
{
    if is_word(name, b"+") {
        Some(Op::Add)
    } else if is_word(name, b"-") {
        Some(Op::Minus)
    } else if is_word(name, b"*") {
        Some(Op::Times)
    } else if is_word(name, b"div") {
        Some(Op::Div)
    } else if is_word(name, b"mod") {
        Some(Op::Mod)
    } else if is_word(name, b"abs") {
        Some(Op::Abs)
    } else if is_word(name, b"<") {
        Some(Op::Less)
    } else if is_word(name, b"<=") {
        Some(Op::AtMost)
    } else if is_word(name, b">") {
        Some(Op::Greater)
    } else if is_word(name, b">=") {
        Some(Op::AtLeast)
    } else {
        None
    }
}
