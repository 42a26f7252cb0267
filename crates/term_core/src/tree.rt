use items::Items;
use sig_core::ConId;

/// A term: a constructor over its children.
#[derive(Debug, Drop)]
pub struct Tree {
    pub con: ConId,
    pub kids: Trees,
}

pub type Trees = Items<Tree>;
