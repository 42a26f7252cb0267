//! What is found of the bytes of an answer file.
#![tactic(auto)]

mod check;
mod file;

pub use check::{ANSWER_LIMIT, Checked, Flaw, check_answer};
pub use file::AnswerFile;
