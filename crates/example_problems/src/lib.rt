//! Whole problems of examples, for tests of answers.
#![tactic(auto)]

mod language;
mod problems;

pub use problems::{narrow_problem, problem};
