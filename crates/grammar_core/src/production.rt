use crate::ids::NtIds;
use items::Items;
use sig_core::{Bytes, ConId, TypeId};

/// A production: a constructor, and a nonterminal for each of its children.
#[derive(Debug, PartialEq, Eq, Drop)]
pub struct Production {
    pub con: ConId,
    pub args: NtIds,
}

/// A nonterminal: its name, the type of its terms, and its productions in order of adding.
#[derive(Debug, PartialEq, Eq, Drop)]
pub struct Nonterminal {
    pub name: Bytes,
    pub owner: TypeId,
    pub productions: Items<Production>,
}
