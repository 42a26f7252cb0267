//! Tests of how expressions are read, and of the sorts of atoms.
#![tactic(auto)]

#[cfg(test)]
mod atoms;
#[cfg(test)]
mod language;
#[cfg(test)]
mod readings;
