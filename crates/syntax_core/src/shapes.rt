//! The shape of a command: tests of single commands before their names and sorts.
ghost use Rattle.std.specs.Prelude.{◌≡◌, List, option_map, IfOk, IfErr, MatchOption};
ghost use Rattle.std.specs.Option.{option_copied};
ghost use Rattle.syntax_core.specs.declared.commands.Head.{Head};
ghost use Rattle.syntax_core.specs.Misfits.{leftmost, misfits};
ghost use Rattle.syntax_core.specs.Orders.{StandsFor};
ghost use Rattle.syntax_core.specs.Shapes.{HasShape, IsCommand, IsMisfit, IsNoCommand, first_item, refusal};

use crate::commands::{Head, Order, head_named};
use crate::dues::due_in;
use crate::fault::Fault;
use crate::fits::fits;
use crate::roles::{Due, Role};
use sexpr_core::{Sexpr, parts_of};

/// The place of the leftmost node of the form that doesn't fit what is due where it stands. A node is left of its
/// items.
pub fn misfit(due: Due, form: &Sexpr) -> Option<u32>
    ensures shape { MatchOption result (HasShape due form.now) (IsMisfit due form.now) }
    ensures first { result ≡ leftmost (misfits due form.now) }
{
    if !fits(due, form) {
        return Some(form.place());
    }
    let items = parts_of(form);
    for k in 0..items.len() {
        if let Some(place) = misfit(due_in(due, items, k), &items[k]) {
            return Some(place);
        }
    }
    None
}

/// The fault of the leftmost node that breaks the shape of a command: reason 10.
pub fn shape_fault(form: &Sexpr) -> Option<Fault>
    ensures { result ≡ option_map (λ place. refusal place 10) (leftmost (misfits (Due.One Role.Command) form.now)) }
{
    match misfit(Due::One(Role::Command), form) {
        Some(place) => Some(refusal(place, 10)),
        None => None,
    }
}

/// The command that the form is after these earlier ones: known, in its order and of its shape. Else the first of these
/// that fails: reason 10 for a form that is no list with a symbol first, 11 at an unknown word, 12 for a command out of
/// order, 10 at the leftmost node that breaks the shape.
pub fn command_head(order: Order, form: &Sexpr) -> Result<Head, Fault>
    ensures command { (earlier : List Head) → StandsFor order earlier → IfOk result (IsCommand earlier form.now) }
    ensures fault { (earlier : List Head) → StandsFor order earlier → IfErr result (IsNoCommand earlier form.now) }
{
    let Some(first) = first_item(form) else {
        return Err(refusal(form.place(), 10));
    };
    let Some(name) = first.symbol() else {
        return Err(refusal(form.place(), 10));
    };
    let Some(command) = head_named(name) else {
        return Err(refusal(first.place(), 11));
    };
    if !order.takes(command) {
        return Err(refusal(form.place(), 12));
    }
    match misfit(Due::One(Role::Command), form) {
        Some(place) => Err(refusal(place, 10)),
        None => Ok(command),
    }
}

pub fn refusal(place: u32, reason: u8) -> Fault
    ensures { result ≡ refusal place reason }
{
    Fault {
        place,
        reason,
        limit: 0,
    }
}

/// The first form of a list.
pub fn first_item(form: &Sexpr) -> Option<&Sexpr>
    ensures { option_copied result ≡ first_item form.now }
{
    match form.items() {
        Some([first, ..]) => Some(first),
        _ => None,
    }
}
