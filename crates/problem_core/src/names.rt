//! The names that stand in the text of a problem.
ghost use Rattle.std.specs.Prelude.{◌≡◌, [], slice_get};
ghost use Rattle.std.specs.Option.{unwrap_or};
ghost use Rattle.problem_core.specs.Modes.{is_of};
ghost use Rattle.problem_core.specs.Texts.{constructor_name, is_term, kind_name, name_of_constructor, name_of_relation, params_of, relation_name, slot_name, slot_names, sort_name, term_name, type_name, who_name};

use items::at;
use rule_core::{Rule, Var, Who};
use sig_core::{Bytes, ConId, Kind, Param, RelId, Signature, Sort, TypeId};

/// What a parameter that isn't a term is for.
#[derive(Clone, Copy, Debug)]
pub(crate) enum Mode {
    Input,
    Output,
}

pub(crate) fn is_of(mode: Mode, kind: Kind) -> bool
    ensures { result ≡ is_of mode kind }
{
    match (mode, kind) {
        (Mode::Input, Kind::Input(_)) | (Mode::Output, Kind::Output(_)) => true,
        _ => false,
    }
}

fn is_term(kind: Kind) -> bool
    ensures { result ≡ is_term kind }
{
    matches!(kind, Kind::Term(_))
}

pub(crate) fn sort_name(sort: Sort) -> &'static [u8]
    ensures { result.now ≡ sort_name sort }
{
    match sort {
        Sort::Int => b"Int",
        Sort::Bool => b"Bool",
    }
}

/// The name in this place; empty where there is none.
fn name_at(names: &[Bytes], place: usize) -> &[u8]
    ensures { result.now ≡ unwrap_or (slice_get names.now place) [] }
{
    match at(names, place) {
        Some(name) => name.as_slice(),
        None => &[],
    }
}

pub(crate) fn type_name(signature: &Signature, id: TypeId) -> &[u8]
    ensures { result.now ≡ type_name signature.now id }
{
    if id.0 < signature.types() {
        signature.type_name(id).as_slice()
    } else {
        &[]
    }
}

pub(crate) fn constructor_name(signature: &Signature, con: ConId) -> &[u8]
    ensures { result.now ≡ constructor_name signature.now con }
{
    if con.0 < signature.constructors() {
        signature.constructor(con).name.as_slice()
    } else {
        &[]
    }
}

pub(crate) fn relation_name(signature: &Signature, relation: RelId) -> &[u8]
    ensures { result.now ≡ relation_name signature.now relation }
{
    if relation.0 < signature.relations() {
        signature.relation(relation).name.as_slice()
    } else {
        &[]
    }
}

pub(crate) fn params_of(signature: &Signature, relation: RelId) -> &[Param]
    ensures { result.now ≡ params_of signature.now relation }
{
    if relation.0 < signature.relations() {
        signature.relation(relation).params.as_slice()
    } else {
        &[]
    }
}

/// The name of the sort or of the type.
pub(crate) fn kind_name(signature: &Signature, kind: Kind) -> &[u8]
    ensures { result.now ≡ kind_name signature.now kind }
{
    match kind {
        Kind::Term(id) => type_name(signature, id),
        Kind::Input(sort) | Kind::Output(sort) => sort_name(sort),
    }
}

/// The name of the parameter that is a term.
pub(crate) fn term_name(params: &[Param]) -> &[u8]
    ensures { result.now ≡ term_name params.now }
{
    for param in params {
        if is_term(param.kind) {
            return param.name.as_slice();
        }
    }
    &[]
}

/// The name of the term that a call is on.
pub(crate) fn who_name<'a>(signature: &'a Signature, rule: &'a Rule, who: Who) -> &'a [u8]
    ensures { result.now ≡ who_name signature.now rule.now who }
{
    match who {
        Who::Own => term_name(params_of(signature, rule.relation)),
        Who::Child(place) => name_at(rule.kid_names.as_slice(), usize::from(place)),
    }
}

/// The name of a slot of the rule.
pub(crate) fn slot_name<'a>(signature: &'a Signature, rule: &'a Rule, slot: u8) -> &'a [u8]
    ensures { result.now ≡ slot_name signature.now rule.now slot }
{
    name_of_slot(
        params_of(signature, rule.relation),
        rule.more.as_slice(),
        usize::from(slot),
    )
}

/// The name in this place among the parameters that aren't terms and the existentials.
fn name_of_slot<'a>(params: &'a [Param], more: &'a [Var], slot: usize) -> &'a [u8]
    ensures { result.now ≡ unwrap_or (slice_get (slot_names params.now more.now) slot) [] }
{
    let [first, rest @ ..] = params else {
        return var_name(more, slot);
    };
    if is_term(first.kind) {
        return name_of_slot(rest, more, slot);
    }
    if slot == 0 {
        return first.name.as_slice();
    }
    name_of_slot(rest, more, slot - 1)
}

/// The name of the existential in this place.
fn var_name(more: &[Var], place: usize) -> &[u8]
    ensures { result.now ≡ unwrap_or (slice_get (slot_names [] more.now) place) [] }
{
    match at(more, place) {
        Some(var) => var.name.as_slice(),
        None => &[],
    }
}
