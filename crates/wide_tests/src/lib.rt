//! Tests of rules of relations with several inputs and outputs.
#![tactic(auto)]

#[cfg(test)]
mod wide;
