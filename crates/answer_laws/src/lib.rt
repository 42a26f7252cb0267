//! Laws of answers: what is printed reads back.
#![tactic(auto)]

mod laws;

pub use laws::{
    answers_read_back, literals_read_back, numerals_read_back, terms_read_back,
    valid_answers_read_back,
};
