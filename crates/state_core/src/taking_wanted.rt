//! The pass over a `synth-fun`.
ghost use Rattle.std.specs.Prelude.{◌≡◌, None, true, IfOk, OnOk, IfErr};
ghost use Rattle.state_core.specs.Taking.{IsJudgedAs, IsTaken};
ghost use Rattle.state_core.specs.Commands.{faults_in, may_come};
ghost use Rattle.making_core.specs.Soundness.{IsSoundState};
ghost use Rattle.name_core.specs.Faults.{first, shapes};
ghost use Rattle.sort_core.specs.Errors.{IsDue};
ghost use Rattle.syntax_core.specs.declared.commands.Head.TheVariants as head;

use crate::stated::StatedParts;
use name_core::{Reading, limit_fault, name_fault};
use sexpr_core::Sexpr;
use sig_core::TypeId;
use sort_core::{ElabError, sort_fault};
use std::alloc::{AllocError, Global};
use syntax_core::{Fault, Head};

impl StatedParts {
    /// The fault of a `synth-fun`: of the leftmost node past a limit, else the leftmost wrong name, else the leftmost
    /// wrong sort.
    #[tactic(auto, using(name_core::proofs::Firsts::firsts))]
    fn wanted_fault(&self, alloc: Global, form: &Sexpr) -> Result<Option<Fault>, AllocError>
        requires come { may_come self.now head.SynthFun ≡ true }
        requires sound { IsSoundState self.now }
        ensures { IfOk result (λ fault. fault ≡ first (faults_in self.now head.SynthFun form.now)) }
    {
        let command = Head::SynthFun;
        let reading = Reading::Flat;
        let rules = self.rulebook.len() as usize;
        let constraints = self.constraints.len();
        let past = limit_fault(&self.signature, rules, constraints, command, form, &reading);
        if let Some(fault) = past {
            return Ok(Some(fault));
        }
        let wrong = name_fault(alloc, &self.signature, None, command, form, &reading)?;
        if let Some(fault) = wrong {
            return Ok(Some(fault));
        }
        // no function is wanted yet, so there is no type of one
        let no_owner = TypeId(0);
        Ok(sort_fault(alloc, &self.signature, None, no_owner, command, form, &[])?)
    }

    /// Keeps the function that a `synth-fun` of right shape wants, in which no pass finds a fault.
    fn keep_wanted(&mut self, alloc: Global, form: &Sexpr) -> Result<(), AllocError>
        requires judged { IsJudgedAs self.old head.SynthFun form.now }
        requires sound { IsSoundState self.old }
        requires shape { first (shapes form.now) ≡ None }
        requires fine { first (faults_in self.old head.SynthFun form.now) ≡ None }
        ensures { OnOk result (IsTaken self.old head.SynthFun form.now self.new) }
    {
        match self.put_wanted(alloc, form) {
            Ok(()) => Ok(()),
            Err(error) => Err(error),
        }
    }

    /// Takes a `synth-fun` of right shape.
    pub(crate) fn take_wanted(&mut self, alloc: Global, form: &Sexpr) -> Result<(), ElabError>
        requires judged { IsJudgedAs self.old head.SynthFun form.now }
        requires sound { IsSoundState self.old }
        requires shape { first (shapes form.now) ≡ None }
        ensures ok { OnOk result (IsTaken self.old head.SynthFun form.now self.new) }
        ensures err { IfErr result (IsDue (first (faults_in self.old head.SynthFun form.now))) }
    {
        match self.wanted_fault(alloc, form)? {
            Some(fault) => Err(ElabError::Fault(fault)),
            None => Ok(self.keep_wanted(alloc, form)?),
        }
    }
}
