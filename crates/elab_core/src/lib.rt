//! Problem files: their commands are judged one after the other, and make a problem.
#![tactic(auto)]

mod elaborator;
mod judge;
mod laws;

pub use elaborator::Elaborator;
pub use judge::Judge;
pub use laws::one_judgement;
pub use sort_core::ElabError;
pub use syntax_core::Fault;
