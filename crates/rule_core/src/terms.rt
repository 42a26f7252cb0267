//! The terms that the calls of a rule are on.
ghost use Rattle.term_core.specs.Banks.{IsLive, tree_of};
ghost use Rattle.rule_core.specs.Instances.{term_at};
ghost use Rattle.rule_core.specs.Lookups.{IsTermAt};

use crate::rule::Who;
use term_core::{Bank, TermId};

/// The term itself, or its child with this number; none where there is no such child.
pub fn term_at(bank: &Bank, id: TermId, who: Who) -> Option<TermId>
    requires { IsLive bank.now id }
    ensures { IsTermAt bank.now (term_at (tree_of bank.now id) who) result }
{
    match who {
        Who::Own => Some(id),
        Who::Child(child) => match items::at(bank.kids(id), usize::from(child)) {
            Some(kid) => Some(*kid),
            None => None,
        },
    }
}
