//! Tests of the canonical texts of whole files.
#![tactic(auto)]

#[cfg(test)]
mod judging;
#[cfg(test)]
mod spellings;
