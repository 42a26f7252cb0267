//! The test of sorts, of any command but a `define-funs-rec`.
ghost use Rattle.std.specs.Prelude.{◌≡◌, ◌≢◌, Some, option_map, IfOk};
ghost use Rattle.std.specs.Option.{option_copied};
ghost use Rattle.sexpr_core.specs.Access.{item_of};
ghost use Rattle.syntax_core.specs.declared.commands.Head.TheVariants as Head;
ghost use Rattle.syntax_core.specs.Syntax.{calls_of, deepest};
ghost use Rattle.name_core.specs.Faults.{first};
ghost use Rattle.sort_core.specs.Sorts.{sorts};
ghost use Rattle.name_core.specs.States.{State, Wanted};

use crate::example_sorts::calls_fault;
use crate::grammar_sorts::wanted_fault;
use sexpr_core::Sexpr;
use sig_core::{Signature, TypeId};
use std::alloc::{AllocError, Global};
use syntax_core::{Application, Fault, Head};

/// The leftmost node of a wrong sort (reason 30) or number out of range (reason 31) of a command other than a
/// `define-funs-rec`, whose functions `open_functions` tests.
///
/// The wanted function has this name and is of this type. The calls are those of a `constraint`.
pub fn sort_fault(
    alloc: Global,
    signature: &Signature,
    wanted: Option<&[u8]>,
    owner: TypeId,
    head: Head,
    form: &Sexpr,
    calls: &[Application],
) -> Result<Option<Fault>, AllocError>
    requires other { head ≢ Head.DefineFunsRec }
    requires calls { head ≡ Head.Constraint → calls.now ≡ calls_of deepest (item_of 1 form.now) }
    ensures { (s : State) → s.signature ≡ signature.now → option_map (λ w. w.name) s.wanted ≡ option_copied wanted.entry
        → ((w : Wanted) → s.wanted ≡ Some w → w.type ≡ owner) → IfOk result (λ fault. fault ≡ first (sorts s head form.now)) }
{
    match (head, wanted) {
        (Head::SynthFun, _) => Ok(wanted_fault(alloc, signature, form)?),
        (Head::Constraint, Some(name)) => Ok(calls_fault(signature, name, owner, calls)),
        _ => Ok(None),
    }
}
