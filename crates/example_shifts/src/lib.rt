//! A problem for tests, over a language in which a constructor looks at its child at another input.
#![tactic(auto)]

mod language;
mod problem;
mod rules;

pub use language::{SHIFT, X, ZERO};
pub use problem::shift_problem;
