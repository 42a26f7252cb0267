//! Tests of rules: their data flow, and the book that keeps them.
#![tactic(auto)]

#[cfg(test)]
mod book;
#[cfg(test)]
mod flow;
