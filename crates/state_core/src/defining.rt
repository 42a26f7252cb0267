//! The functions of a `define-funs-rec`.
ghost use Rattle.std.specs.Prelude.{◌≡◌, ◌≤◌, ◌++◌, None, true, length, List, IfErr, IfOk, OnOk};
ghost use Rattle.std.specs.List.{flat_map};
ghost use Rattle.sexpr_core.specs.Sizes.{IsSmall};
ghost use Rattle.sig_core.specs.WellFormed.{IsWellFormed};
ghost use Rattle.syntax_core.specs.declared.commands.Head.TheVariants as head;
ghost use Rattle.syntax_core.specs.declared.syntax.Function as function;
ghost use Rattle.syntax_core.specs.Syntax.{functions_of};
ghost use Rattle.name_core.specs.declared.command_faults.Reading.TheVariants as read;
ghost use Rattle.name_core.specs.Faults.{first, shapes};
ghost use Rattle.name_core.specs.Limits.{limits};
ghost use Rattle.name_core.specs.Names.{names};
ghost use Rattle.name_core.specs.Readings.{reading_of};
ghost use Rattle.sort_core.specs.Errors.{IsDue};
ghost use Rattle.sort_core.specs.Sorts.{declaration_faults};
ghost use Rattle.state_core.specs.Taking.{IsTaken};
ghost use Rattle.state_core.specs.Commands.{faults_in, may_come};
ghost use Rattle.making_core.specs.Making.{added};
ghost use Rattle.making_core.specs.Soundness.{IsSoundState};

use crate::stated::StatedParts;
use making_core::add_cases;
use name_core::{Reading, limit_fault, name_fault, reading_of};
use sexpr_core::Sexpr;
use sort_core::{ElabError, declarations_fault, open_functions};
use std::alloc::{AllocError, Global};
use syntax_core::{Fault, Functions, Head};

/// The functions that a command was read as, none if it is another one.
fn functions_in(alloc: Global, reading: Reading) -> Functions
    ensures { (functions : List function.Function) → reading ≡ read.Functions functions → result ≡ functions }
{
    match reading {
        Reading::Functions(functions) => functions,
        Reading::Flat | Reading::Calls(_) => Functions::new(alloc),
    }
}

impl StatedParts {
    /// The leftmost node of functions that passes a limit.
    fn functions_limit(&self, form: &Sexpr, reading: &Reading) -> Option<Fault>
        requires read { reading.now ≡ reading_of head.DefineFunsRec form.now }
        requires few { length self.now.constraints ≤ 1024 }
        ensures { result ≡ first (limits self.now head.DefineFunsRec form.now) }
    {
        limit_fault(
            &self.signature,
            self.rulebook.len() as usize,
            self.constraints.len(),
            Head::DefineFunsRec,
            form,
            reading,
        )
    }

    /// The leftmost wrong name of functions.
    fn functions_name(
        &self,
        alloc: Global,
        form: &Sexpr,
        reading: &Reading,
    ) -> Result<Option<Fault>, AllocError>
        requires { reading.now ≡ reading_of head.DefineFunsRec form.now }
        ensures { IfOk result (λ fault. fault ≡ first (names self.now head.DefineFunsRec form.now)) }
    {
        name_fault(
            alloc,
            &self.signature,
            None,
            Head::DefineFunsRec,
            form,
            reading,
        )
    }

    /// The functions of a command, if their limits and names are right, and their declarations.
    ///
    /// `Fault` is the first of these.
    #[tactic(auto, using(name_core::proofs::Firsts::firsts))]
    fn read_functions(&self, alloc: Global, form: &Sexpr) -> Result<Functions, ElabError>
        requires few { length self.now.constraints ≤ 1024 }
        ensures fault { IfErr result (IsDue (first (limits self.now head.DefineFunsRec form.now ++ names self.now head.DefineFunsRec form.now
            ++ flat_map declaration_faults (functions_of form.now)))) }
        ensures fine { OnOk result (first (limits self.now head.DefineFunsRec form.now ++ names self.now head.DefineFunsRec form.now
            ++ flat_map declaration_faults (functions_of form.now)) ≡ None) }
        ensures read { IfOk result (λ functions. functions ≡ functions_of form.now) }
    {
        let reading = reading_of(alloc, Head::DefineFunsRec, form)?;
        if let Some(fault) = self.functions_limit(form, &reading) {
            return Err(ElabError::Fault(fault));
        }
        if let Some(fault) = self.functions_name(alloc, form, &reading)? {
            return Err(ElabError::Fault(fault));
        }
        let functions = functions_in(alloc, reading);
        match declarations_fault(functions.as_slice()) {
            Some(fault) => Err(ElabError::Fault(fault)),
            None => Ok(functions),
        }
    }

    /// Adds the relations of functions, and then their rules, where no pass finds a fault.
    fn put_functions(&mut self, alloc: Global, form: &Sexpr) -> Result<(), ElabError>
        requires sound { IsSoundState self.old }
        requires small { IsSmall form.now }
        ensures fault { IfErr result (IsDue (first (faults_in self.old head.DefineFunsRec form.now))) }
        ensures fine { OnOk result (first (faults_in self.old head.DefineFunsRec form.now) ≡ None) }
        ensures added { OnOk result (self.new ≡ added self.old head.DefineFunsRec form.now) }
        ensures well_formed { OnOk result (IsWellFormed self.new.signature) }
    {
        let functions = self.read_functions(alloc, form)?;
        let number = self.signature.relations();
        self.declare_relations(alloc, functions.as_slice())?;
        let cases = match open_functions(alloc, &self.signature, number, functions.as_slice()) {
            Ok(cases) => cases,
            Err(error) => return Err(error),
        };
        match add_cases(alloc, &self.signature, &mut self.rulebook, cases.as_slice()) {
            Ok(()) => {}
            Err(error) => return Err(error),
        }
        let _relations = self.signature.relations();
        Ok(())
    }

    /// Takes a `define-funs-rec` of right shape.
    ///
    /// After a fault its relations may stand already.
    pub(crate) fn define_functions(&mut self, alloc: Global, form: &Sexpr) -> Result<(), ElabError>
        requires come { may_come self.old head.DefineFunsRec ≡ true }
        requires sound { IsSoundState self.old }
        requires shape { first (shapes form.now) ≡ None }
        requires small { IsSmall form.now }
        ensures ok { OnOk result (IsTaken self.old head.DefineFunsRec form.now self.new) }
        ensures err { IfErr result (IsDue (first (faults_in self.old head.DefineFunsRec form.now))) }
    {
        match self.put_functions(alloc, form) {
            Ok(()) => Ok(()),
            Err(error) => Err(error),
        }
    }
}
