//! Tests of how whole files are judged: where and why each is refused, or how it is read. Why a text is refused, for other
//! crates of tests.
#![tactic(auto)]

#[cfg(test)]
mod checking;
#[cfg(test)]
mod examples;
#[cfg(test)]
mod flow;
#[cfg(test)]
mod frames;
#[cfg(test)]
mod function_shapes;
mod judging;
#[cfg(test)]
mod lexicon;
#[cfg(test)]
mod names;
#[cfg(test)]
mod order;
#[cfg(test)]
mod shapes;
#[cfg(test)]
mod sorts;

pub use judging::{Refusal, append_marked, refusal_of};
