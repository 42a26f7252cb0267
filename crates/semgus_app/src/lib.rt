//! The whole program over any files and any sink.
#![tactic(auto)]

mod answer;
mod command;
mod contents;
mod due;
mod feed;
mod judge;
mod laws;
mod lines;
mod program;
mod read;
mod status;
mod task;

pub use answer_core::AnswerFault;
pub use checking_core::Flaw;
pub use deriv_core::BadStep;
pub use laws::{one_status, one_task};
pub use program::run;
pub use status::{Status, Which};
pub use syntax_core::Fault;
