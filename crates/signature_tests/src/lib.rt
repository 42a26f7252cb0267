//! Tests of signatures at their limits.
#![tactic(auto)]

#[cfg(test)]
mod limits;
