//! The lens of marks: marks that are equal exactly for alike terms.
#![tactic(auto)]

mod answers;
mod examples;
mod horn;
mod places;
mod probe;

pub use horn::HornMarks;
