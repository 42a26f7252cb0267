//! The names in expressions.
ghost use Rattle.std.specs.Prelude.{◌≡◌, map, ◌<◌, length, IfSome};
ghost use Rattle.std.specs.List.{flat_map};
ghost use Rattle.name_core.specs.Faults.{first};
ghost use Rattle.name_core.specs.Names.{application_names, expression_names, has, taken_name, unfit_name, unknown_name};
ghost use Rattle.sig_core.specs.Names.{place_of};

use sexpr_core::Atom;
use sig_core::{Bytes, is_reserved};
use syntax_core::{Application, Exp, Fault, literal_named, operator_named, refusal};

pub(crate) fn has(names: &[Bytes], name: &[u8]) -> bool
    ensures { result ≡ has names.now name.now }
{
    place_of(names, name).is_some()
}

/// The fault of a symbol that is none of these names.
pub(crate) fn unknown_name(names: &[Bytes], name: &Atom) -> Option<Fault>
    ensures { result ≡ first (unknown_name names.now name.now) }
{
    if has(names, name.bytes.as_slice()) {
        None
    } else {
        Some(refusal(name.place, 20))
    }
}

/// The fault of a symbol that is one of these names.
pub(crate) fn taken_name(names: &[Bytes], name: &Atom) -> Option<Fault>
    ensures { result ≡ first (taken_name names.now name.now) }
{
    if has(names, name.bytes.as_slice()) {
        Some(refusal(name.place, 21))
    } else {
        None
    }
}

/// The fault of a symbol that is one of these names, or a reserved word.
pub(crate) fn unfit_name(names: &[Bytes], name: &Atom) -> Option<Fault>
    ensures { result ≡ first (unfit_name names.now name.now) }
{
    if has(names, name.bytes.as_slice()) || is_reserved(name.bytes.as_slice()) {
        Some(refusal(name.place, 21))
    } else {
        None
    }
}

/// The leftmost wrong name of an expression, where these are the relations and the variables.
#[cycle(names)]
pub(crate) fn expression_name(relations: &[Bytes], scope: &[Bytes], e: &Exp) -> Option<Fault>
    ensures { result ≡ first (expression_names relations.now scope.now e.now) }
{
    match e {
        Exp::Symbol(atom) => {
            let name = atom.bytes.as_slice();
            if has(scope, name) || literal_named(name).is_some() {
                None
            } else {
                Some(refusal(atom.place, 20))
            }
        }
        Exp::Numeral(_) | Exp::Negative(_) => None,
        Exp::Apply(application) => application_name(relations, scope, application),
    }
}

#[cycle(names)]
#[tactic(auto, using(crate::proofs::Firsts::firsts))]
fn application_name(
    relations: &[Bytes],
    scope: &[Bytes],
    application: &Application,
) -> Option<Fault>
    ensures { result ≡ first (application_names relations.now
        (record { place = application.now.place; head = application.now.head; args = map (expression_names relations.now scope.now) application.now.args })) }
{
    let head = application.head.bytes.as_slice();
    if operator_named(head).is_none() && !has(relations, head) {
        return Some(refusal(application.head.place, 20));
    }
    expressions_name(relations, scope, application.args.as_slice())
}

/// The leftmost wrong name of expressions.
#[cycle(names)]
#[tactic(auto, using(crate::proofs::Firsts::firsts))]
pub(crate) fn expressions_name(relations: &[Bytes], scope: &[Bytes], es: &[Exp]) -> Option<Fault>
    ensures { result ≡ first (flat_map (λ faults. faults) (map (expression_names relations.now scope.now) es.now)) }
{
    for e in es {
        if let Some(fault) = expression_name(relations, scope, e) {
            return Some(fault);
        }
    }
    None
}

/// The first place of a name.
pub fn place_of(names: &[Bytes], name: &[u8]) -> Option<usize>
    ensures value { result ≡ place_of names.now name.now }
    ensures within { IfSome result (λ place. place < length names.now) }
{
    names.iter().position(|found| name == found.as_slice())
}
