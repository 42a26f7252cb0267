//! Rules of examples, of few atoms each, for crates of tests.
#![tactic(auto)]

mod rules;

pub use rules::{
    call_child, call_itself, choice, fill, giving, number, over_number, over_two, put, rule, test,
    variables,
};
