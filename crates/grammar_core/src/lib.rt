//! Grammars of terms: membership, and which nonterminals the start leads to.
#![tactic(auto)]

mod by_productions;
mod by_sets;
mod grammar;
mod ids;
mod laws;
mod marks;
mod members;
mod parts;
mod production;
mod sets;
#[cfg(test)]
mod tests;
mod whole;

pub use grammar::{Grammar, GrammarError};
pub use ids::{NtId, NtIds};
pub use laws::language_laws;
pub use production::Production;
