//! Values, names and signatures.
#![tactic(auto)]

mod ids;
mod names;
mod params;
mod signature;
#[cfg(test)]
mod tests;
mod text;
mod value;

pub use ids::{ConId, RelId, TypeId, TypeIds};
use items::Items;
pub use names::NameTable;
pub use params::{count_plain, inputs_of, outputs_of, params_of};
pub use signature::{Constructor, Kind, Param, Params, Relation, SigError, Signature};
pub use text::{
    bytes_of, is_reserved, is_simple_symbol, is_symbol_byte, is_word, put_symbol, put_value,
};
pub use value::{Sort, Value, Values, order};

/// A list of bytes.
pub type Bytes = Items<u8>;
