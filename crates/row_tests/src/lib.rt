//! Tests of the whole program over files in memory: words and files with the status and the output that are due.
#![tactic(auto)]

#[cfg(test)]
mod answers;
#[cfg(test)]
mod cuts;
#[cfg(test)]
mod failing;
#[cfg(test)]
mod files;
#[cfg(test)]
mod readings;
#[cfg(test)]
mod rows;
#[cfg(test)]
mod running;
#[cfg(test)]
mod small;
#[cfg(test)]
mod wording;
