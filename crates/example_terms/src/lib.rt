//! Languages and banks of examples, for crates of tests.
#![tactic(auto)]

mod languages;
mod nodes;

pub use languages::{B, Constructor, E, Language, SHIFT, SUMS, TINY, signature_of};
pub use nodes::{LEAF, Node, chain, interned};
