//! Derivations of facts as shared steps.
#![tactic(auto)]

mod derivation;
mod facts;
mod firsts;
mod laws;
mod places;

pub use derivation::derive;
pub use laws::{
    first_faults, first_steps_derive, one_addition, one_list_of_first_steps, tidy_is_valid,
};
