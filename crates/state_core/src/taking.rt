//! The next command, judged and added.
ghost use Rattle.std.specs.Prelude.{◌≡◌, None, OnOk, IfErr};
ghost use Rattle.state_core.specs.Taking.{IsJudgedAs, IsRefusal, IsTaken};
ghost use Rattle.sort_core.specs.Errors.{IsDue};
ghost use Rattle.name_core.specs.Faults.{first, shapes};
ghost use Rattle.state_core.specs.Commands.{faults_in, stands, step};
ghost use Rattle.making_core.specs.Soundness.{IsSoundState};
ghost use Rattle.sexpr_core.specs.Sizes.{IsSmall};

use crate::stated::StatedParts;
use name_core::shape_fault;
use sexpr_core::Sexpr;
use sort_core::ElabError;
use std::alloc::Global;
use syntax_core::Head;

impl StatedParts {
    /// Takes a command that may come and is of right shape.
    fn take_shaped(&mut self, alloc: Global, head: Head, form: &Sexpr) -> Result<(), ElabError>
        requires judged { IsJudgedAs self.old head form.now }
        requires shape { first (shapes form.now) ≡ None }
        requires sound { IsSoundState self.old }
        requires small { IsSmall form.now }
        ensures ok { OnOk result (IsTaken self.old head form.now self.new) }
        ensures err { IfErr result (IsDue (first (faults_in self.old head form.now))) }
    {
        match head {
            Head::SetInfo => self.add_info(alloc, form)?,
            Head::DeclareTermTypes => self.take_terms(alloc, form)?,
            Head::DefineFunsRec => self.define_functions(alloc, form)?,
            Head::SynthFun => self.take_wanted(alloc, form)?,
            Head::Constraint => self.constrain(alloc, form)?,
            Head::CheckSynth => self.end(),
        }
        Ok(())
    }

    /// Takes the form that is judged as this command, unless a pass finds a fault.
    fn take_as(&mut self, alloc: Global, head: Head, form: &Sexpr) -> Result<(), ElabError>
        requires judged { IsJudgedAs self.old head form.now }
        requires sound { IsSoundState self.old }
        requires small { IsSmall form.now }
        ensures ok { OnOk result (step (stands self.old) form.now ≡ stands self.new) }
        ensures sound { OnOk result (IsSoundState self.new) }
        ensures err { IfErr result (IsRefusal (step (stands self.old) form.now)) }
    {
        match shape_fault(form) {
            Some(fault) => Err(ElabError::Fault(fault)),
            None => match self.take_shaped(alloc, head, form) {
                Ok(()) => Ok(()),
                Err(error) => Err(error),
            },
        }
    }

    /// Takes the next form: Ok exactly where it is a command that isn't refused after the earlier ones, which is added.
    /// Else `Fault` with the refusal that is due, or `Memory`; after an error the parts can only be dropped.
    pub fn take(&mut self, alloc: Global, form: &Sexpr) -> Result<(), ElabError>
        requires sound { IsSoundState self.old }
        requires small { IsSmall form.now }
        ensures ok { OnOk result (step (stands self.old) form.now ≡ stands self.new) }
        ensures sound { OnOk result (IsSoundState self.new) }
        ensures err { IfErr result (IsRefusal (step (stands self.old) form.now)) }
    {
        match self.head_of(form) {
            Ok(head) => self.take_as(alloc, head, form),
            Err(fault) => Err(ElabError::Fault(fault)),
        }
    }
}
