//! What the commands of a problem file add: types, constructors, relations, rules, grammars and constraints.
#![tactic(auto)]

mod examples;
mod flow;
mod grammars;
mod making;
mod relations;
mod rules;
mod types;

pub use examples::constraint_of;
pub use flow::add_cases;
pub use grammars::grammar_of;
pub use relations::add_relations;
pub use types::add_terms;
