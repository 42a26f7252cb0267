ghost use Rattle.std.specs.Prelude.{◌≡◌, ◌↔◌, IsTrue};
ghost use Rattle.solve_core.specs.Works.{no_work};

use std::alloc::Global;
use std::marker::Model;
use term_core::Bank;

/// What a search leaves behind: the terms that it made, and the number of marks that it took.
#[derive(Debug, Drop)]
pub struct Work {
    pub(crate) bank: Bank,
    pub(crate) looks: u64,
}

impl Model for Work {
    ghost use Rattle.solve_core.specs.Works.{Working};
    ghost use Rattle.std.specs.Coded.{codes};
    ghost use Rattle.term_core.specs.contracts.tree.Tree as term;

    ghost Value = { Working };

    ghost coded = { Prim.hlevel (codes, term.the_row.coded) };

    ghost view = { λ w. record { bank = w.bank; looks = w.looks } };
}

impl Work {
    pub fn new(alloc: Global) -> Work
        ensures { result ≡ no_work }
    {
        Work {
            bank: Bank::new(alloc),
            looks: 0,
        }
    }

    /// Whether no search has used it yet.
    pub fn is_new(&self) -> bool
        ensures { IsTrue result ↔ (self.now ≡ no_work) }
    {
        self.bank.len() == 0 && self.looks == 0
    }

    /// The terms that were made, the one that was found among them.
    pub fn bank(&self) -> &Bank
        ensures { result.now ≡ self.now.bank }
    {
        &self.bank
    }

    /// How many marks were taken: one for each candidate up to the last size that was searched. The number stands still
    /// at 2^64 - 1.
    pub fn looks(&self) -> u64
        ensures { result ≡ self.now.looks }
    {
        self.looks
    }
}
