//! Laws of judged files: in which order their faults stand, and what data flow never refuses.
#![tactic(auto)]

mod laws;

pub use laws::{nodes_from_the_left, rules_fit};
