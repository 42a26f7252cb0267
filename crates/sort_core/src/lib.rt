//! Commands with their names looked up, and the leftmost node of a wrong sort.
#![tactic(auto)]

mod atom_sorts;
mod branch;
mod branching;
mod cases;
mod error;
mod example_sorts;
mod functions;
mod grammar_sorts;
mod open;
mod opening;
mod sort_passes;
mod sorts;
mod variables;

pub use atom_sorts::atom_fault;
pub use branch::{OpenBranch, OpenBranches, OpenCase, OpenCases};
pub use cases::sort_named;
pub use error::ElabError;
pub use example_sorts::calls_fault;
pub use functions::{declarations_fault, open_functions, type_named};
pub use open::{OpenExp, OpenExps, OpenNode};
pub use opening::{opened, opened_all, relation_named};
pub use sort_passes::sort_fault;
pub use variables::Variables;
