//! Tests of productions, of what they make and of where they lead.
#![tactic(auto)]

#[cfg(test)]
mod adding;
#[cfg(test)]
mod members;
#[cfg(test)]
mod productions;
#[cfg(test)]
mod reaching;
