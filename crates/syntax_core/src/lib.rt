//! Problem files: their forms as commands of right shape, and the syntax that these forms are read as.
#![tactic(auto)]

mod access;
mod bodies;
mod commands;
mod dues;
mod expressions;
mod fault;
mod fits;
mod functions;
mod grammars;
mod heads;
mod literal;
mod reading;
mod roles;
mod shapes;
mod syntax;

pub use access::{begins, items_at};
pub use bodies::{body_of, calls_of};
pub use commands::{Head, Order, head_named};
pub use expr_core::operator_named;
pub use expressions::{application_of, expression_of};
pub use fault::Fault;
pub use functions::functions_of;
pub use grammars::{constructors_in, nonterminals_of, type_names};
pub use literal::{
    Literal, digits_place, is_out_of_range, literal_named, literal_of, negative, place_of_exp,
    positive, sort_of_literal,
};
pub use reading::{atom_of, name_of, pair_of, pairs_of, symbols_of};
pub use roles::{Due, Role};
pub use shapes::{command_head, first_item, misfit, refusal, shape_fault};
pub use syntax::{
    Application, Applications, Bodies, Body, Case, Cases, Declaration, Definition, Exp, Exps,
    Function, Functions, Leaf, Negative, Pair, Pairs, Pattern, Patterns, Scope, Symbols,
};
