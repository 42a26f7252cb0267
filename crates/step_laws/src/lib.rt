//! The law that valid lists of steps are derivations.
#![tactic(auto)]

mod laws;

pub use laws::valid_is_within;
