//! Tests of the order and the shapes of commands.
#![tactic(auto)]

#[cfg(test)]
mod shapes;
