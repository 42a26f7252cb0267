//! The forms of an answer, and in which order they come.
ghost use Rattle.std.specs.Prelude.{◌≡◌, length};
ghost use Rattle.answer_core.specs.Shapes.{due_after, has_items, kind_due, kind_named, may_come, role_in};

use crate::forms::{head_of, text_of};
use sexpr_core::{Sexpr, parts_of};
use sig_core::is_word;

/// What a form of an answer tells.
#[derive(Clone, Copy, Debug, PartialEq, Eq)]
pub enum Kind {
    /// the version of the text
    Answer,
    Term,
    Size,
    Node,
    Step,
    /// the step of a constraint
    Derived,
}

/// What may come next: one form, or those of a part of the text and of the parts after it.
#[derive(Clone, Copy, Debug, PartialEq, Eq)]
pub enum Due {
    Answer,
    Term,
    Size,
    Nodes,
    Steps,
    Derived,
}

/// What is due in a place of a form.
#[derive(Clone, Copy, Debug, PartialEq, Eq)]
pub enum Role {
    Version,
    Number,
    Symbol,
    Term,
    Values,
    Numbers,
}

#[tactic(auto, unfolding(crate::specs::Shapes::kind_named))]
fn kind_named(name: &[u8]) -> Option<Kind>
    ensures { result ≡ kind_named name.now }
{
    if is_word(name, b"answer") {
        Some(Kind::Answer)
    } else if is_word(name, b"term") {
        Some(Kind::Term)
    } else if is_word(name, b"size") {
        Some(Kind::Size)
    } else if is_word(name, b"node") {
        Some(Kind::Node)
    } else if is_word(name, b"step") {
        Some(Kind::Step)
    } else if is_word(name, b"derived") {
        Some(Kind::Derived)
    } else {
        None
    }
}

/// Whether a form of the kind has so many items, its name included.
fn has_items(kind: Kind, count: usize) -> bool
    ensures { result ≡ has_items kind count }
{
    match kind {
        Kind::Answer | Kind::Term | Kind::Size => count == 2,
        Kind::Node => count >= 3,
        Kind::Step => count == 7,
        Kind::Derived => count == 3,
    }
}

/// Whether a form of the kind may come, where there is room for one more `derived` or not.
fn may_come(due: Due, room: bool, kind: Kind) -> bool
    ensures { result ≡ may_come due room kind }
{
    match due {
        Due::Answer => matches!(kind, Kind::Answer),
        Due::Term => matches!(kind, Kind::Term),
        Due::Size => matches!(kind, Kind::Size),
        Due::Nodes => {
            matches!(kind, Kind::Node | Kind::Step) || room && matches!(kind, Kind::Derived)
        }
        Due::Steps => matches!(kind, Kind::Step) || room && matches!(kind, Kind::Derived),
        Due::Derived => room && matches!(kind, Kind::Derived),
    }
}

/// What may come after a form of the kind.
pub(crate) fn due_after(kind: Kind) -> Due
    ensures { result ≡ due_after kind }
{
    match kind {
        Kind::Answer => Due::Term,
        Kind::Term => Due::Size,
        Kind::Size | Kind::Node => Due::Nodes,
        Kind::Step => Due::Steps,
        Kind::Derived => Due::Derived,
    }
}

/// The kind of the form, if it may come.
pub(crate) fn kind_due(due: Due, room: bool, form: &Sexpr) -> Option<Kind>
    ensures { result ≡ kind_due due room form.now }
{
    let kind = kind_named(text_of(head_of(form)))?;
    if may_come(due, room, kind) && has_items(kind, parts_of(form).len()) {
        Some(kind)
    } else {
        None
    }
}

/// What is due in a place of a form of the kind. Its name stands in place 0.
pub(crate) fn role_in(kind: Kind, place: usize) -> Role
    ensures { result ≡ role_in kind place }
{
    match kind {
        Kind::Answer => Role::Version,
        Kind::Term => Role::Term,
        Kind::Node | Kind::Step if place == 2 => Role::Symbol,
        Kind::Step if place == 5 => Role::Values,
        Kind::Step if place == 6 => Role::Numbers,
        Kind::Size | Kind::Node | Kind::Step | Kind::Derived => Role::Number,
    }
}
