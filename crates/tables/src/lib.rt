//! Lists of numbers under keys.
#![tactic(auto)]

mod tables;

pub use tables::{Table, list_at, pop, push};
