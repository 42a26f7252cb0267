//! Tests of the limits of files.
#![tactic(auto)]

#[cfg(test)]
mod limits;
