//! A signature and rules of examples, for crates of tests.
#![tactic(auto)]

mod language;
mod rules;

pub use language::{TERM, example, two_constructors};
pub use rules::{
    CHOICE, GIVES, MAPS, PLUS, alone, call, is_one, one, ones, pair, rule, slot, successor,
    variables,
};
