//! Relations of one constant that ask themselves at earlier inputs, for crates of tests.
#![tactic(auto)]

mod language;
mod rules;

pub use language::{LOOP, S, loops};
pub use rules::{counting_rules, fibonacci_rules};
