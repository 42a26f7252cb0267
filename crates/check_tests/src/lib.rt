//! Tests of the check of answer files, and of canonical texts.
#![tactic(auto)]

#[cfg(test)]
mod faults;
#[cfg(test)]
mod lines;
#[cfg(test)]
mod long;
#[cfg(test)]
mod maximum;
#[cfg(test)]
mod shown;
#[cfg(test)]
mod solved;
#[cfg(test)]
mod texts;
