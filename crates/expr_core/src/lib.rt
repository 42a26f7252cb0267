//! Open expressions over the slots of a rule: their sorts and their values.
//!
//! The operators are those of the theories Core and Ints of SMT-LIB 2.6, in this project's profile: a number has
//! 128 bits, an operator out of range has no value, and every operator but `ite` wants a value of each operand.
#![tactic(auto)]

mod env;
mod expr;
mod laws;
mod names;
mod numbers;
mod pairs;
mod partial;
mod seen;
mod sorts;
mod table;
#[cfg(test)]
mod tests;
mod value;

pub use env::Env;
pub use expr::{Expr, Kids, Op};
pub use laws::{
    division_exists, division_is_unique, nothing_by_zero, one_name, only_slots_count,
    reasons_are_of_nodes, slots_keep_values, sorted_has_no_bad_node, values_have_sorts,
};
pub use names::{name_of, operator_named};
pub use sorts::SortFault;
pub use table::takes;
