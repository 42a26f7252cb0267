ghost use Rattle.std.specs.Prelude.{◌≡◌};

use lens_core::Lens;
use sig_core::ConId;
use std::alloc::AllocError;
use std::marker::Model;
use term_core::{Bank, TermId};

/// A lens for every signature that sees of a term whether its size is even or odd. Every place is plain to it.
#[derive(Debug, Drop)]
pub struct Parity {
    looks: u64,
}

impl Model for Parity {
    ghost use Rattle.std.specs.Prelude.{ℕ};

    ghost Value = { ℕ };

    ghost view = { λ p. p.looks };
}

impl Parity {
    pub fn new() -> Parity
        ensures { result ≡ 0 }
    {
        Parity { looks: 0 }
    }
}

impl Lens for Parity {
    ghost use Rattle.std.specs.Prelude.{⊤, true};
    ghost use Rattle.class_tests.specs.Parities.{SameParity, parities_compare, parity, parity_congruent, parity_sameness};

    type Mark = u32;

    ghost has_mark = { λ _ t mark. mark ≡ parity t };

    ghost same_mark = { λ _. SameParity };

    ghost is_for = { λ _ _. ⊤ };

    ghost fits = { λ _ _. ⊤ };

    ghost is_plain = { λ _ _ _. true };

    ghost looked = { λ p. p };

    fn plain(&self, _con: ConId, _i: usize) -> bool {
        true
    }

    fn looks(&self) -> u64 {
        self.looks
    }

    fn mark(&mut self, bank: &Bank, id: TermId) -> Result<u32, AllocError> {
        if self.looks < u64::MAX {
            self.looks += 1;
        }
        Ok(bank.size(id) % 2)
    }

    ghost compares = { λ _ t u m n p q. parities_compare t u m n p q };

    ghost equals = { λ _ sig _. parity_sameness sig };

    ghost congruent = { λ _ sig _. parity_congruent sig };

    ghost fits_more = { λ _ _ _ _ h. h };
}
