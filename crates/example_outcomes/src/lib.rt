//! What relations of examples give, for crates of tests.
#![tactic(auto)]

mod conditions;
mod evaluating;
mod relations;

pub use evaluating::{Given, Question, add_made, found_by, two_rules};
pub use relations::{add_binary, add_constant, add_unary};
