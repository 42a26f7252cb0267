//! What a file has stated so far.
ghost use Rattle.std.specs.Prelude.{◌≡◌};
ghost use Rattle.state_core.specs.Commands.{may_come};
ghost use Rattle.name_core.specs.States.{start};

use grammar_core::Grammar;
use problem_core::{Constraints, Infos};
use rule_core::Rulebook;
use sig_core::{Bytes, Signature, TypeId};
use std::alloc::Global;
use std::marker::Model;
use syntax_core::Head;

/// The function that is wanted: its name, the type of its terms, and the grammar that they are of.
#[derive(Debug, Drop)]
pub struct WantedFunction {
    pub name: Bytes,
    pub owner: TypeId,
    pub grammar: Grammar,
}

impl Model for WantedFunction {
    ghost use Rattle.name_core.specs.States.{Wanted};

    ghost Value = { Wanted };

    ghost view = { λ w. record { name = w.name; type = w.owner; grammar = w.grammar } };
}

/// What the commands have stated.
#[derive(Debug, Drop)]
pub struct StatedParts {
    pub infos: Infos,
    pub signature: Signature,
    pub rulebook: Rulebook,
    pub wanted: Option<WantedFunction>,
    pub constraints: Constraints,
    /// whether a `check-synth` came
    pub is_over: bool,
}

impl Model for StatedParts {
    ghost use Rattle.name_core.specs.States.{State};
    ghost use Rattle.std.specs.Coded.{codes};
    ghost use Rattle.expr_core.specs.contracts.expr.Expr as expr;

    ghost Value = { State };

    ghost coded = { Prim.hlevel (codes, expr.the_row.coded) };

    ghost view = { λ s. record {
      infos = s.infos;
      signature = s.signature;
      rules = s.rulebook;
      wanted = s.wanted;
      constraints = s.constraints;
      is_over = s.is_over;
    } };
}

impl StatedParts {
    /// Nothing, as before the first command.
    pub fn new(alloc: Global) -> StatedParts
        ensures { result ≡ start }
    {
        StatedParts {
            infos: Infos::new(alloc),
            signature: Signature::new(alloc),
            rulebook: Rulebook::new(alloc),
            wanted: None,
            constraints: Constraints::new(alloc),
            is_over: false,
        }
    }

    /// Whether the command may come next.
    pub(crate) fn may_come(&self, head: Head) -> bool
        ensures { result ≡ may_come self.now head }
    {
        let has_wanted = self.wanted.is_some();
        match head {
            Head::SetInfo => !self.is_over,
            Head::DeclareTermTypes => !has_wanted,
            Head::DefineFunsRec => !has_wanted,
            Head::SynthFun => !has_wanted,
            Head::Constraint => has_wanted && !self.is_over,
            Head::CheckSynth => has_wanted && !self.is_over,
        }
    }
}
