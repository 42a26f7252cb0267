//! Tests of reading and printing forms, and the forms of a text for other crates of tests.
#![tactic(auto)]

mod reading;
#[cfg(test)]
mod tests;

pub use reading::forms_of;
