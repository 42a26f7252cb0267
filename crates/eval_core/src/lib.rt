//! What relations give on terms: the outputs whose facts have a derivation within a height, found by running rules, and
//! which terms are alike.
#![tactic(auto)]

mod alikeness;
mod evaluator;
mod laws;
mod mark;
mod merge;
mod outcome;
mod run;
mod search;
mod slots;
mod table;

pub use alikeness::{
    alike_in_words, alike_terms_solve_alike, alikeness_examples, alikeness_laws, congruence,
    height_examples, height_laws, lens_laws, marks_decide,
};
pub use evaluator::Evaluator;
pub use laws::{cut, facts_have_parts, grown_banks, one_list};
pub use mark::{Mark, compare_marks};
pub use outcome::{Outcome, Outcomes};
pub use run::RuleInstances;
