//! Laws of whole runs.
#![tactic(auto)]

mod laws;

pub use laws::{found_answers_are_valid, judged_names_are_spelled, judged_problems_are_sound};
