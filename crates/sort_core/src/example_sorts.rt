//! The sorts of the calls of examples.
ghost use Rattle.std.specs.Prelude.{◌≡◌, Some, None, map};
ghost use Rattle.std.specs.List.{flat_map};
ghost use Rattle.name_core.specs.Faults.{first, found_from};
ghost use Rattle.sort_core.specs.Sorts.{are_of_type, example_argument, example_argument_at, example_faults, example_faults_of, is_literal_of, is_wanted_name, range_faults};
ghost use Rattle.sig_core.specs.declared.signature.Kind.TheVariants as Kind;

use crate::opening::relation_named;
use sig_core::{Kind, Param, Signature, Sort, TypeId, params_of};
use syntax_core::{
    Application, Exp, Fault, digits_place, is_out_of_range, literal_of, place_of_exp, refusal,
    sort_of_literal,
};

/// The fault of a number that is out of range.
fn range_fault(e: &Exp) -> Option<Fault>
    ensures { result ≡ first (range_faults e.now) }
{
    match literal_of(e) {
        Some(literal) if is_out_of_range(literal) => Some(refusal(digits_place(e), 31)),
        _ => None,
    }
}

fn is_literal_of(sort: Sort, e: &Exp) -> bool
    ensures { result ≡ is_literal_of sort e.now }
{
    match literal_of(e) {
        Some(literal) => sort == sort_of_literal(literal),
        None => false,
    }
}

fn is_wanted_name(wanted: &[u8], e: &Exp) -> bool
    ensures { result ≡ is_wanted_name wanted.now e.now }
{
    match e {
        Exp::Symbol(atom) => wanted == atom.bytes.as_slice(),
        Exp::Numeral(_) | Exp::Negative(_) | Exp::Apply(_) => false,
    }
}

/// The leftmost fault of an argument where a term is wanted.
fn term_fault(wanted: &[u8], owner: TypeId, e: &Exp) -> Option<Fault>
    ensures { result ≡ first (example_argument wanted.now (Some (Kind.Term owner)) e.now) }
{
    if is_wanted_name(wanted, e) {
        None
    } else {
        Some(refusal(place_of_exp(e), 30))
    }
}

/// The leftmost fault of an argument where a literal of this sort is wanted.
#[tactic(auto, using(name_core::proofs::Firsts::firsts))]
fn literal_fault(wanted: &[u8], sort: Sort, e: &Exp) -> Option<Fault>
    ensures { result ≡ first (example_argument wanted.now (Some (Kind.Input sort)) e.now) }
{
    if !is_literal_of(sort, e) {
        return Some(refusal(place_of_exp(e), 30));
    }
    range_fault(e)
}

/// The leftmost fault of an argument for a parameter of this kind.
fn kind_fault(wanted: &[u8], kind: Kind, e: &Exp) -> Option<Fault>
    ensures { result ≡ first (example_argument wanted.now (Some kind) e.now) }
{
    match kind {
        Kind::Term(owner) => term_fault(wanted, owner, e),
        Kind::Input(sort) => literal_fault(wanted, sort, e),
        Kind::Output(sort) => literal_fault(wanted, sort, e),
    }
}

/// The leftmost fault of argument k.
#[tactic(auto, unfolding(crate::specs::Sorts::example_argument_at))]
fn argument_fault(wanted: &[u8], params: &[Param], k: usize, e: &Exp) -> Option<Fault>
    ensures { result ≡ first (example_argument_at wanted.now (map (λ p. p.kind) params.now) k e.now) }
{
    if k < params.len() {
        kind_fault(wanted, params[k].kind, e)
    } else {
        range_fault(e)
    }
}

#[tactic(auto, using(name_core::proofs::Firsts::firsts))]
fn arguments_fault(wanted: &[u8], params: &[Param], args: &[Exp]) -> Option<Fault>
    ensures { result ≡ first (found_from (example_argument_at wanted.now (map (λ p. p.kind) params.now)) 0 args.now) }
{
    for (k, e) in args.iter().enumerate() {
        if let Some(fault) = argument_fault(wanted, params, k, e) {
            return Some(fault);
        }
    }
    None
}

/// Whether the terms among the parameters are of this type.
fn are_of_type(owner: TypeId, params: &[Param]) -> bool
    ensures { result ≡ are_of_type owner (map (λ p. p.kind) params.now) }
{
    for param in params {
        match param.kind {
            Kind::Term(found) => {
                if found.0 != owner.0 {
                    return false;
                }
            }
            Kind::Input(_) => {}
            Kind::Output(_) => {}
        }
    }
    true
}

/// The leftmost fault of a call of a relation with these parameters.
#[tactic(auto, using(name_core::proofs::Firsts::firsts))]
fn example_fault(
    wanted: &[u8],
    owner: TypeId,
    params: &[Param],
    call: &Application,
) -> Option<Fault>
    ensures { result ≡ first (example_faults wanted.now owner (map (λ p. p.kind) params.now) call.now) }
{
    let args = call.args.as_slice();
    if !(are_of_type(owner, params) && args.len() == params.len()) {
        return Some(refusal(call.place, 30));
    }
    arguments_fault(wanted, params, args)
}

/// The leftmost fault of a call.
fn call_fault(
    signature: &Signature,
    wanted: &[u8],
    owner: TypeId,
    call: &Application,
) -> Option<Fault>
    ensures { result ≡ first (example_faults_of signature.now wanted.now owner call.now) }
{
    let relation = relation_named(signature, call.head.bytes.as_slice());
    example_fault(wanted, owner, params_of(signature, relation), call)
}

/// The leftmost fault of calls, where the wanted function has this name and type.
#[tactic(auto, using(name_core::proofs::Firsts::firsts))]
pub fn calls_fault(
    signature: &Signature,
    wanted: &[u8],
    owner: TypeId,
    calls: &[Application],
) -> Option<Fault>
    ensures { result ≡ first (flat_map (example_faults_of signature.now wanted.now owner) calls.now) }
{
    for call in calls {
        if let Some(fault) = call_fault(signature, wanted, owner, call) {
            return Some(fault);
        }
    }
    None
}
