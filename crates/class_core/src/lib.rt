//! Leaders of classes of terms with equal marks.
#![tactic(auto)]

mod candidates;
mod choosing;
mod classes;
mod laws;
mod levels;
mod places;

pub use classes::Classes;
pub use laws::{leader_laws, looks_laws, standing_law};
