//! Rules, data flow, and rules by relation and constructor.
#![tactic(auto)]

mod flow;
mod handing;
mod laws;
mod numbers;
mod rule;
mod rulebook;
mod terms;

pub use flow::{AddError, FlowFault, input_slots, is_known, learn, same_type};
pub use laws::flow_laws;
pub use rule::{Atom, Atoms, Call, Names, Rule, Var, Vars, Who};
pub use rulebook::Rulebook;
pub use terms::term_at;
