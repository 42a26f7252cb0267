//! What the commands of a problem file have stated, and how the next one is taken.
#![tactic(auto)]

mod commands;
mod constraints;
mod declaring;
mod defining;
mod stated;
mod taking;
mod taking_terms;
mod taking_wanted;
mod wanting;

pub use stated::{StatedParts, WantedFunction};
