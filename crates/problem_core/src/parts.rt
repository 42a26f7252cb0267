use items::Items;
use sig_core::{Bytes, RelId, Values};

/// A `set-info` command: its keyword without the colon, and the canonical spelling of its value, empty where it has none.
#[derive(Debug, Drop)]
pub struct Info {
    pub key: Bytes,
    pub value: Bytes,
}

pub type Infos = Items<Info>;

/// An example that the wanted term is to meet: a relation, and a value for each parameter that isn't a term.
#[derive(Debug, Drop)]
pub struct Constraint {
    pub relation: RelId,
    pub args: Values,
}

pub type Constraints = Items<Constraint>;
