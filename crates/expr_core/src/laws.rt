//! Laws of the definitions, for whoever builds on them. The functions do nothing.

ghost use Rattle.expr_core.specs.Names.{FoundByName, NameOfFound};
ghost use Rattle.expr_core.specs.Laws.{DivisionExists, DivisionIsUnique, NothingByZero, OnlySlotsCount, ReasonsAreOfNodes, SlotsKeepValues, SortedHasNoBadNode, ValuesHaveSorts};

/// By a number other than 0 there is a quotient with a remainder.
pub fn division_exists()
    ensures { DivisionExists }
{}

/// There is only one quotient, and it and its remainder are what `div` and `mod` give.
pub fn division_is_unique()
    ensures { DivisionIsUnique }
{}

/// By 0 there is neither.
pub fn nothing_by_zero()
    ensures { NothingByZero }
{}

/// A value depends only on the slots that stand in the expression.
pub fn only_slots_count()
    ensures { OnlySlotsCount }
{}

/// The value of an expression has the expression's sort.
pub fn values_have_sorts()
    ensures { ValuesHaveSorts }
{}

/// An expression has a sort exactly where no node is bad.
pub fn sorted_has_no_bad_node()
    ensures { SortedHasNoBadNode }
{}

/// Each node has one place in the list of reasons.
pub fn reasons_are_of_nodes()
    ensures { ReasonsAreOfNodes }
{}

/// A slot of an environment has what was put in it last.
pub fn slots_keep_values()
    ensures { SlotsKeepValues }
{}

/// An operator is found by its name and by no other.
pub fn one_name()
    ensures found { FoundByName }
    ensures name { NameOfFound }
{}
