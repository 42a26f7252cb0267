//! S-expressions, after the lexicon of SMT-LIB 2.6.
#![tactic(auto)]

mod access;
mod fault;
mod forest;
mod form;
mod laws;
mod lexicon;
mod numerals;
mod printing;
mod reader;

pub use access::{item_of, others_of, parts_of};
pub use fault::{FeedError, LexFault};
pub use forest::Forest;
pub use form::{Atom, Forms, Nest, Sexpr};
pub use laws::{
    forms_spelled_again, giving_grows, one_fault, one_giving, one_spelling, prefix_examples,
};
pub use numerals::{is_negative, number_below};
pub use printing::print;
pub use reader::Reader;
