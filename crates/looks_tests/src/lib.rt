//! Tests of how many marks a search takes, and of the size of the term that it finds.
#![tactic(auto)]

#[cfg(test)]
mod looks;
#[cfg(test)]
mod searching;
