use items::Items;

/// The number of a nonterminal, from 0, in order of adding. Number 0 is the start.
#[derive(Clone, Copy, Debug, PartialEq, Eq, PartialOrd, Ord)]
pub struct NtId(pub u16);

pub type NtIds = Items<NtId>;
