//! Tests of rules: which children they hand on.
#![tactic(auto)]

#[cfg(test)]
mod handing;
