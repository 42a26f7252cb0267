//! Tests of the limits and the names of commands.
#![tactic(auto)]

#[cfg(test)]
mod commands;
#[cfg(test)]
mod limits;
#[cfg(test)]
mod names;
