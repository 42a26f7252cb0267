//! The limits and the names of commands: the leftmost node past a limit, the leftmost symbol that is wrongly a name.
#![tactic(auto)]

mod body_names;
mod command_faults;
mod copies;
mod example_names;
mod expression_names;
mod function_limits;
mod function_names;
mod grammar_names;
mod limits;
mod pairs;
mod type_names;

pub use command_faults::{Reading, limit_fault, name_fault, reading_of, shape_fault};
pub use copies::{copy_names, joined, put_names};
pub use example_names::{calls_limit, calls_name};
pub use expression_names::place_of;
pub use pairs::is_plain;
