//! The tests of shape, limits and names, of any command.
ghost use Rattle.std.specs.Prelude.{◌≡◌, ◌≤◌, length, option_map, IfOk};
ghost use Rattle.std.specs.Option.{option_copied};
ghost use Rattle.name_core.specs.Faults.{first, shapes};
ghost use Rattle.name_core.specs.Limits.{limits};
ghost use Rattle.name_core.specs.Names.{names};
ghost use Rattle.name_core.specs.Readings.{reading_of};
ghost use Rattle.name_core.specs.States.{State};

use crate::example_names::{calls_limit, calls_name};
use crate::function_limits::functions_limit;
use crate::function_names::functions_name;
use crate::grammar_names::wanted_name;
use crate::limits::{types_limit, wanted_limit};
use crate::type_names::types_name;
use sexpr_core::{Sexpr, item_of};
use sig_core::Signature;
use std::alloc::{AllocError, Global};
use syntax_core::{Applications, Fault, Functions, Head, calls_of, functions_of};

/// What a command is read as, where it is more than flat lists.
#[derive(Debug, Drop)]
pub enum Reading {
    /// the form itself is enough
    Flat,
    /// those of a `define-funs-rec`
    Functions(Functions),
    /// those of a `constraint`, each `and` taken apart
    Calls(Applications),
}

/// What a command of right shape is read as.
pub fn reading_of(alloc: Global, head: Head, form: &Sexpr) -> Result<Reading, AllocError>
    ensures { IfOk result (λ reading. reading ≡ reading_of head form.now) }
{
    match head {
        Head::DefineFunsRec => Ok(Reading::Functions(functions_of(alloc, form)?)),
        Head::Constraint => Ok(Reading::Calls(calls_of(alloc, item_of(1, form))?)),
        Head::SetInfo | Head::DeclareTermTypes | Head::SynthFun | Head::CheckSynth => {
            Ok(Reading::Flat)
        }
    }
}

/// The fault of the leftmost node that breaks the shape of a command: reason 10.
#[tactic(auto, using(crate::proofs::ShapeFaults::shape_faults))]
pub fn shape_fault(form: &Sexpr) -> Option<Fault>
    ensures { result ≡ first (shapes form.now) }
{
    syntax_core::shape_fault(form)
}

/// The leftmost node of a command that passes a limit, where so much has been stated.
pub fn limit_fault(
    signature: &Signature,
    rules: usize,
    constraints: usize,
    head: Head,
    form: &Sexpr,
    reading: &Reading,
) -> Option<Fault>
    requires read { reading.now ≡ reading_of head form.now }
    requires constraints { constraints ≤ 1024 }
    ensures { (s : State) → s.signature ≡ signature.now → length s.rules ≡ rules → length s.constraints ≡ constraints → result ≡ first (limits s head form.now) }
{
    match (head, reading) {
        (Head::DeclareTermTypes, _) => types_limit(
            usize::from(signature.types()),
            usize::from(signature.constructors()),
            form,
        ),
        (Head::SynthFun, _) => wanted_limit(form),
        (Head::DefineFunsRec, Reading::Functions(functions)) => functions_limit(
            usize::from(signature.relations()),
            rules,
            functions.as_slice(),
        ),
        (Head::Constraint, Reading::Calls(calls)) => calls_limit(constraints, calls.as_slice()),
        _ => None,
    }
}

/// The leftmost wrong name of a command, where the wanted function has this name.
pub fn name_fault(
    alloc: Global,
    signature: &Signature,
    wanted: Option<&[u8]>,
    head: Head,
    form: &Sexpr,
    reading: &Reading,
) -> Result<Option<Fault>, AllocError>
    requires { reading.now ≡ reading_of head form.now }
    ensures { (s : State) → s.signature ≡ signature.now → option_map (λ w. w.name) s.wanted ≡ option_copied wanted.entry → IfOk result (λ fault. fault ≡ first (names s head form.now)) }
{
    match (head, reading) {
        (Head::DeclareTermTypes, _) => Ok(types_name(alloc, signature, form)?),
        (Head::SynthFun, _) => Ok(wanted_name(alloc, signature, form)?),
        (Head::DefineFunsRec, Reading::Functions(functions)) => {
            Ok(functions_name(alloc, signature, functions.as_slice())?)
        }
        (Head::Constraint, Reading::Calls(calls)) => match wanted {
            Some(name) => Ok(calls_name(signature, name, calls.as_slice())),
            None => Ok(None),
        },
        _ => Ok(None),
    }
}
