//! Tests of lists by size and of leaders, through two lenses.
#![tactic(auto)]

#[cfg(test)]
mod growing;
#[cfg(test)]
mod leaders;
#[cfg(test)]
mod lists;
#[cfg(test)]
mod parity;
#[cfg(test)]
mod whole;
