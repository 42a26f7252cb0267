//! Tests of outcomes, over small languages.
#![tactic(auto)]

#[cfg(test)]
mod choosing;
#[cfg(test)]
mod expecting;
#[cfg(test)]
mod looping;
#[cfg(test)]
mod tossing;
#[cfg(test)]
mod waiting;
