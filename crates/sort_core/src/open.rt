//! Expressions whose names are looked up.

use expr_core::Op;
use items::Items;
use rule_core::Who;
use sig_core::RelId;
use syntax_core::Literal;

/// An expression whose names are looked up, at its place.
#[cycle(open)]
#[derive(Debug, Drop)]
pub struct OpenExp {
    pub place: u32,
    pub node: OpenNode,
}

#[cycle(open)]
#[derive(Debug, Drop)]
pub enum OpenNode {
    /// the variable with this number
    Slot(u8),
    /// the matched term or one of its children
    Term(Who),
    /// a literal, whose digits stand at this place
    Literal(u32, Literal),
    Apply(Op, OpenExps),
    Call(RelId, OpenExps),
}

pub type OpenExps = Items<OpenExp>;
