//! Tests of answers over a whole problem.
#![tactic(auto)]

#[cfg(test)]
mod checks;
#[cfg(test)]
mod reading;
#[cfg(test)]
mod texts;
