//! What commands of right shape are read as, where they are more than lists of names.
use items::Items;
use sexpr_core::Atom;

pub type Symbols = Items<Atom>;

/// An expression.
#[cycle(expression)]
#[derive(Debug, Drop)]
pub enum Exp {
    Symbol(Atom),
    Numeral(Atom),
    Negative(Negative),
    Apply(Application),
}

/// `(- n)` with a numeral n
#[derive(Debug, Drop)]
pub struct Negative {
    /// the offset of the list
    pub place: u32,
    pub numeral: Atom,
}

/// `(s e ..)`: an operator or a relation, and expressions.
#[cycle(expression)]
#[derive(Debug, Drop)]
pub struct Application {
    /// the offset of the list
    pub place: u32,
    pub head: Atom,
    pub args: Exps,
}

pub type Exps = Items<Exp>;

pub type Applications = Items<Application>;

/// `(s s)`: a name, and the name of its sort or type.
#[derive(Debug, Drop)]
pub struct Pair {
    /// the offset of the list
    pub place: u32,
    pub name: Atom,
    pub sort: Atom,
}

pub type Pairs = Items<Pair>;

/// What the rules of a case are made of.
#[cycle(body)]
#[derive(Debug, Drop)]
pub enum Body {
    /// `(exists (pair ..) body)`, or `(or body ..)`, which brings no variables
    Fork(Scope),
    Leaf(Leaf),
}

/// Bodies in the scope of these variables.
#[cycle(body)]
#[derive(Debug, Drop)]
pub struct Scope {
    pub pairs: Pairs,
    pub bodies: Bodies,
}

pub type Bodies = Items<Body>;

/// The atoms of one rule.
#[derive(Debug, Drop)]
pub struct Leaf {
    /// the offset of the `and`, or of the one atom
    pub place: u32,
    /// each a call of a relation or an expression, nested `and` taken apart
    pub atoms: Exps,
}

/// `s` or `(s s ..)`: a constructor and the variables for its children.
#[derive(Debug, Drop)]
pub struct Pattern {
    /// the offset of the form
    pub place: u32,
    pub name: Atom,
    pub variables: Symbols,
}

pub type Patterns = Items<Pattern>;

/// `(pattern body)`
#[derive(Debug, Drop)]
pub struct Case {
    pub pattern: Pattern,
    pub body: Body,
}

pub type Cases = Items<Case>;

/// `(s (pair ..) Bool)`: a relation and its parameters.
#[derive(Debug, Drop)]
pub struct Declaration {
    /// the offset of the list
    pub place: u32,
    pub name: Atom,
    pub params: Pairs,
}

/// `(! (match s (case ..)) :input (s ..) :output (s ..))`, or with `:output` before `:input`.
#[derive(Debug, Drop)]
pub struct Definition {
    /// the offset of the list
    pub place: u32,
    /// the term that is matched
    pub matched: Atom,
    pub cases: Cases,
    pub inputs: Symbols,
    pub outputs: Symbols,
    /// whether `:output` stands first
    pub has_outputs_first: bool,
}

/// A relation with its definition. A `define-funs-rec` has the declarations of all of them first, and then the
/// definitions.
#[derive(Debug, Drop)]
pub struct Function {
    pub declaration: Declaration,
    pub definition: Definition,
}

pub type Functions = Items<Function>;
