//! Tests of terms and of whole grammars.
#![tactic(auto)]

#[cfg(test)]
mod terms;
#[cfg(test)]
mod whole;
