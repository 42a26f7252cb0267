//! Answers: their text, its reading, and their check.
#![tactic(auto)]

mod adding;
mod answer;
mod checking;
mod draft;
mod forms;
mod kinds;
mod laws;
mod names;
mod numbers;
mod printing;
mod reading;
mod shapes;
mod subterms;

pub use answer::{Answer, AnswerError, AnswerFault, Verdict};
pub use checking::check;
pub use kinds::{Due, Kind, Role};
pub use laws::one_verdict;
pub use printing::{print_answer, put_number};
pub use reading::read_answer;
