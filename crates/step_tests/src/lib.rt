//! Tests of the check of steps.
#![tactic(auto)]

#[cfg(test)]
mod checking;
#[cfg(test)]
mod steps;
