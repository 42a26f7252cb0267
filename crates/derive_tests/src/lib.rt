//! Tests of first derivations.
#![tactic(auto)]

#[cfg(test)]
mod steps;
