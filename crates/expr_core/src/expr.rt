use items::Items;
use sig_core::Value;

/// The operators of the theories Core and Ints of SMT-LIB 2.6. Which operands each takes, and of which sorts, is that
/// theory's, but for `and`, `or`, `+` and `*`, which may have a single operand here.
#[derive(Clone, Copy, Debug, PartialEq, Eq)]
pub enum Op {
    Not,
    And,
    Or,
    Xor,
    Implies,
    Equal,
    Distinct,
    Ite,
    Add,
    Minus,
    Times,
    Div,
    Mod,
    Abs,
    Less,
    AtMost,
    Greater,
    AtLeast,
}

/// An expression over the slots of a rule. It may be built with any operands: `sort_of` finds what doesn't fit.
#[derive(Debug, Drop)]
pub enum Expr {
    /// the variable with this number
    Slot(u8),
    /// a literal
    Lit(Value),
    /// an operator and its operands
    Apply(Op, Kids),
}

/// The operands of an operator, from the left.
pub type Kids = Items<Expr>;
