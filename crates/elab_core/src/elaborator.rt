ghost use Rattle.std.specs.Prelude.{◌≡◌, IsTrue, Some, Err, OnOk, IfErr};
ghost use Rattle.sort_core.specs.declared.error.ElabError.TheVariants as Error;
ghost use Rattle.syntax_core.specs.declared.fault.Fault;
ghost use Rattle.elab_core.specs.Elaborating.{IsNotTaken, IsRefusedAfter, IsSoundStanding, answered, fault_in, is_standing, made, next, outcome_in, standing_after};
ghost use Rattle.state_core.specs.Commands.{refused, stands};
ghost use Rattle.elab_core.specs.Judging.{closed};
ghost use Rattle.making_core.specs.Soundness.{IsSoundState};
ghost use Rattle.name_core.specs.States.{start};
ghost use Rattle.sexpr_core.specs.Sizes.{IsSmall};

use problem_core::Problem;
use sexpr_core::Sexpr;
use sort_core::ElabError;
use state_core::{StatedParts, WantedFunction};
use std::alloc::Global;
use std::marker::Model;
use syntax_core::{Fault, refusal};

/// How far the commands have come.
#[derive(Debug, Drop)]
enum Standing {
    Stated(StatedParts),
    /// the first command that was refused
    Refused(Fault),
    /// memory was wanted
    Spent,
}

/// Judges the commands of a problem file one after the other, and makes their problem.
#[derive(Debug, Drop)]
pub struct Elaborator {
    alloc: Global,
    standing: Standing,
}

impl Model for Elaborator {
    ghost use Rattle.std.specs.Prelude.{Option};
    ghost use Rattle.std.specs.Coded.{codes};
    ghost use Rattle.expr_core.specs.contracts.expr.Expr as expr;
    ghost use Rattle.elab_core.specs.Elaborating.{IsSoundStanding, outcome_in};
    ghost use Rattle.state_core.specs.Commands.{Outcome};

    ghost Value = { Option Outcome };

    ghost coded = { Prim.hlevel (codes, expr.the_row.coded) };

    ghost view = { λ e. outcome_in e.standing };

    ghost invariant = { λ e. IsSoundStanding e.standing };
}

impl Elaborator {
    /// Before the first command.
    pub fn new(alloc: Global) -> Elaborator
        ensures { result ≡ Some (stands start) }
    {
        Elaborator {
            alloc,
            standing: Standing::Stated(StatedParts::new(alloc)),
        }
    }

    /// Takes the next form: Ok exactly where it is a command that isn't refused after the earlier ones, which is added.
    /// After a refusal every call answers it, and after want of memory `Memory`.
    pub fn command(&mut self, form: &Sexpr) -> Result<(), ElabError>
        requires { IsSmall form.now }
        ensures ok { OnOk result ((self.new ≡ next self.old form.now) × IsTrue (is_standing self.new)) }
        ensures err { IfErr result (IsNotTaken self.old form.now self.new) }
        ensures refused { (fault : Fault) → self.old ≡ Some (refused fault) → result ≡ Err (Error.Fault fault) }
    {
        match self.standing.take(self.alloc, form) {
            Ok(()) => Ok(()),
            Err(error) => {
                self.standing = standing_after(error);
                Err(error)
            }
        }
    }

    /// The first refusal, if there was one.
    pub(crate) fn fault(&self) -> Option<Fault>
        ensures { result ≡ fault_in self.now }
    {
        match &self.standing {
            Standing::Refused(fault) => Some(*fault),
            Standing::Stated(_) | Standing::Spent => None,
        }
    }

    /// The problem that the commands state, of a file that ends at this place: exactly where none was refused and a
    /// `check-synth` came. Else the first refusal, or reason 60 at the end, or `Memory` where memory was wanted before.
    pub fn finish(self, end: u32) -> Result<Problem, ElabError>
        ensures { result ≡ made end self }
    {
        match self.standing {
            Standing::Stated(stated) => problem_of(stated, end),
            Standing::Refused(fault) => Err(ElabError::Fault(fault)),
            Standing::Spent => Err(ElabError::Memory),
        }
    }
}

impl Standing {
    /// Takes the form, if nothing was refused before it.
    fn take(&mut self, alloc: Global, form: &Sexpr) -> Result<(), ElabError>
        requires sound { IsSoundStanding self.old }
        requires small { IsSmall form.now }
        ensures ok { OnOk result ((outcome_in self.new ≡ next (outcome_in self.old) form.now) × IsTrue (is_standing (outcome_in self.new))) }
        ensures sound { OnOk result (IsSoundStanding self.new) }
        ensures err { IfErr result (IsRefusedAfter (outcome_in self.old) form.now) }
        ensures refused { (fault : Fault) → outcome_in self.old ≡ Some (refused fault) → result ≡ Err (Error.Fault fault) }
    {
        match self {
            Standing::Stated(stated) => stated.take(alloc, form),
            Standing::Refused(fault) => Err(ElabError::Fault(*fault)),
            Standing::Spent => Err(ElabError::Memory),
        }
    }
}

/// What an elaborator stands for after this error.
fn standing_after(error: ElabError) -> Standing
    ensures { result ≡ standing_after error }
{
    match error {
        ElabError::Fault(fault) => Standing::Refused(fault),
        ElabError::Memory => Standing::Spent,
    }
}

/// The problem that has been stated, where a `check-synth` came before the end; else reason 60 there.
fn problem_of(stated: StatedParts, end: u32) -> Result<Problem, ElabError>
    requires { IsSoundState stated }
    ensures { result ≡ answered (closed end (stands stated)) }
{
    let StatedParts {
        infos,
        signature,
        rulebook,
        wanted,
        constraints,
        is_over,
    } = stated;
    let Some(wanted) = wanted else {
        return Err(ElabError::Fault(refusal(end, 60)));
    };
    if !is_over {
        return Err(ElabError::Fault(refusal(end, 60)));
    }
    let WantedFunction {
        name,
        owner: _,
        grammar,
    } = wanted;
    Ok(Problem::new(infos, signature, rulebook, grammar, name, constraints))
}
