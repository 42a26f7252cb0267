use expr_core::{Expr, Kids};
use items::Items;
use sig_core::{Bytes, ConId, RelId, Sort};

/// The term that a call is on.
#[derive(Clone, Copy, Debug, PartialEq, Eq)]
pub enum Who {
    /// the term that the rule is of
    Own,
    /// its child at this place, from 0
    Child(u8),
}

/// A call of a relation. The arguments stand in order of the called relation's parameters.
#[derive(Debug, Drop)]
pub struct Call {
    pub relation: RelId,
    pub who: Who,
    pub inputs: Kids,
    pub outputs: Kids,
}

/// A part of a rule's body. An atom is what its variant says: an equation in a `Test` makes no variable known.
#[derive(Debug, Drop)]
pub enum Atom {
    Call(Call),
    /// the slot has the value of the expression
    Fill(u8, Expr),
    /// the expression is true
    Test(Expr),
}

/// An existential variable of a rule.
#[derive(Debug, Drop)]
pub struct Var {
    pub name: Bytes,
    pub sort: Sort,
}

pub type Names = Items<Bytes>;

pub type Vars = Items<Var>;

pub type Atoms = Items<Atom>;

/// A rule of a relation for the terms of a constructor. Its slots are the relation's parameters that aren't terms, in
/// order, and then its existentials, the outermost first.
#[derive(Debug, Drop)]
pub struct Rule {
    pub relation: RelId,
    pub con: ConId,
    /// the names of the children, which play no part in what the rule derives
    pub kid_names: Names,
    /// the existentials
    pub more: Vars,
    pub atoms: Atoms,
}
