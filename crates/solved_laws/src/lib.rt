//! Laws of what `solve` prints.
#![tactic(auto)]

mod laws;

pub use laws::solved_answers_read_back;
