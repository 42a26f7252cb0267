//! The function that a `synth-fun` wants.
ghost use Rattle.std.specs.Prelude.{◌≡◌, IfOk, OnOk};
ghost use Rattle.syntax_core.specs.declared.commands.Head.TheVariants as head;
ghost use Rattle.making_core.specs.Fitting.{WantedFits};
ghost use Rattle.making_core.specs.Making.{added, wanted_of};

use crate::stated::{StatedParts, WantedFunction};
use making_core::grammar_of;
use sexpr_core::{Sexpr, item_of};
use sig_core::Signature;
use sort_core::type_named;
use std::alloc::{AllocError, Global};
use syntax_core::atom_of;

/// The wanted function, with its grammar.
fn wanted_of(
    alloc: Global,
    signature: &Signature,
    form: &Sexpr,
) -> Result<WantedFunction, AllocError>
    requires { WantedFits signature.now form.now }
    ensures { IfOk result (λ wanted. wanted ≡ wanted_of signature.now form.now) }
{
    let name = atom_of(alloc, item_of(1, form))?;
    let found = atom_of(alloc, item_of(3, form))?;
    let owner = type_named(signature, found.bytes.as_slice());
    Ok(WantedFunction {
        name: name.bytes.copy(alloc)?,
        owner,
        grammar: grammar_of(alloc, signature, form, owner)?,
    })
}

impl StatedParts {
    /// Keeps the function that a `synth-fun` wants.
    pub(crate) fn put_wanted(&mut self, alloc: Global, form: &Sexpr) -> Result<(), AllocError>
        requires { WantedFits self.old.signature form.now }
        ensures { OnOk result (self.new ≡ added self.old head.SynthFun form.now) }
    {
        self.wanted = Some(wanted_of(alloc, &self.signature, form)?);
        Ok(())
    }
}
