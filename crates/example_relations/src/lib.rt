//! Parameters of relations of examples, for crates of tests.
#![tactic(auto)]

mod relations;

pub use relations::{binary_params, constant_params, param, unary_params};
