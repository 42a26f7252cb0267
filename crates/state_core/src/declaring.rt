//! The types, constructors and relations that commands declare.
ghost use Rattle.std.specs.Prelude.{◌≡◌, ◌≤◌, None, true, length, OnOk};
ghost use Rattle.std.specs.List.{flat_map};
ghost use Rattle.sig_core.specs.WellFormed.{IsWellFormed};
ghost use Rattle.syntax_core.specs.declared.commands.Head.TheVariants as head;
ghost use Rattle.syntax_core.specs.Syntax.{items_at};
ghost use Rattle.name_core.specs.Faults.{first, found, found_from};
ghost use Rattle.name_core.specs.Limits.{declaration_limits};
ghost use Rattle.name_core.specs.Names.{declaration_names};
ghost use Rattle.sort_core.specs.Relations.{declared_with};
ghost use Rattle.sort_core.specs.Sorts.{declaration_faults};
ghost use Rattle.making_core.specs.Fitting.{TermsFit};
ghost use Rattle.making_core.specs.Making.{added};
ghost use Rattle.making_core.specs.Soundness.{IsSoundState};
ghost use Rattle.state_core.specs.Taking.{IsTaken};
ghost use Rattle.state_core.specs.Commands.{faults_in, may_come};

use crate::stated::StatedParts;
use making_core::{add_relations, add_terms};
use sexpr_core::Sexpr;
use std::alloc::{AllocError, Global};
use syntax_core::Function;

impl StatedParts {
    /// Adds the types and the constructors of a `declare-term-types`.
    fn put_terms(&mut self, alloc: Global, form: &Sexpr) -> Result<(), AllocError>
        requires { TermsFit self.old.signature form.now }
        ensures added { OnOk result (self.new ≡ added self.old head.DeclareTermTypes form.now) }
        ensures well_formed { OnOk result (IsWellFormed self.new.signature) }
    {
        add_terms(alloc, &mut self.signature, form)?;
        Ok(())
    }

    /// Adds the types and the constructors of a `declare-term-types` of right shape in which no pass finds a fault.
    pub(crate) fn declare_terms(&mut self, alloc: Global, form: &Sexpr) -> Result<(), AllocError>
        requires groups { length (items_at 2 form.now) ≤ length (items_at 1 form.now) }
        requires come { may_come self.old head.DeclareTermTypes ≡ true }
        requires sound { IsSoundState self.old }
        requires fine { first (faults_in self.old head.DeclareTermTypes form.now) ≡ None }
        ensures { OnOk result (IsTaken self.old head.DeclareTermTypes form.now self.new) }
    {
        match self.put_terms(alloc, form) {
            Ok(()) => Ok(()),
            Err(error) => Err(error),
        }
    }

    /// Adds the relations of functions in which no pass finds a fault.
    pub(crate) fn declare_relations(
        &mut self,
        alloc: Global,
        functions: &[Function],
    ) -> Result<(), AllocError>
        requires limits { first (found_from (λ n f. declaration_limits n f.declaration) (length self.old.signature.relations) functions.now) ≡ None }
        requires names { first (found (declaration_names self.old.signature) functions.now) ≡ None }
        requires sorts { first (flat_map declaration_faults functions.now) ≡ None }
        ensures { OnOk result (self.new ≡ record self.old { signature = declared_with self.old.signature functions.now }) }
    {
        add_relations(alloc, &mut self.signature, functions)?;
        Ok(())
    }
}
