//! The text of the answer to a problem: its first term, with derivations of its constraints.
#![tactic(auto)]

mod answering;
mod derivation;

pub use answering::answer;
