ghost use Rattle.std.specs.Prelude.{◌≡◌, nat_eq, OnOk, OnErr};
ghost use Rattle.tables.specs.Tables.{Gains, Keeps};
ghost use Rattle.rule_core.specs.Numbers.{same_pair};

use indexmap::IndexMap;
use sig_core::{ConId, RelId};
use std::alloc::{AllocError, Global};
use tables::{Table, pop, push};

/// The numbers of rules by what the rules are of, each list in order of adding.
#[derive(Debug, Drop)]
pub(crate) struct Numbers {
    /// under a relation and a constructor, those of both
    pub pairs: Table<(u16, u16)>,
    /// under a relation, those of its rules for each constructor
    pub relations: Table<u16>,
    /// under a constructor, those of its rules in each relation
    pub constructors: Table<u16>,
}

impl Numbers {
    ghost use Rattle.rule_core.specs.Numbers.{IsWithout};

    pub(crate) fn new(alloc: Global) -> Numbers
        ensures { IsWithout result }
    {
        Numbers {
            pairs: IndexMap::new(alloc),
            relations: IndexMap::new(alloc),
            constructors: IndexMap::new(alloc),
        }
    }

    /// Puts the number of a rule last in each of its lists, or in none.
    pub(crate) fn add(
        &mut self,
        alloc: Global,
        relation: RelId,
        con: ConId,
        number: usize,
    ) -> Result<(), AllocError>
        ensures pairs { OnOk result (Gains same_pair self.old.pairs self.new.pairs (relation.0, con.0) number) }
        ensures relations { OnOk result (Gains nat_eq self.old.relations self.new.relations relation.0 number) }
        ensures constructors { OnOk result (Gains nat_eq self.old.constructors self.new.constructors con.0 number) }
        ensures same_pairs { OnErr result (Keeps same_pair self.old.pairs self.new.pairs) }
        ensures same_relations { OnErr result (Keeps nat_eq self.old.relations self.new.relations) }
        ensures same_constructors { OnErr result (Keeps nat_eq self.old.constructors self.new.constructors) }
    {
        let pair = (relation.0, con.0);
        push(alloc, &mut self.pairs, pair, number)?;
        if push(alloc, &mut self.relations, relation.0, number).is_err() {
            pop(&mut self.pairs, &pair);
            return Err(AllocError);
        }
        if push(alloc, &mut self.constructors, con.0, number).is_err() {
            pop(&mut self.relations, &relation.0);
            pop(&mut self.pairs, &pair);
            return Err(AllocError);
        }
        Ok(())
    }
}
