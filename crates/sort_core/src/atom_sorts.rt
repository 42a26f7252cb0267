//! The sorts of atoms.
ghost use Rattle.std.specs.Prelude.{◌≡◌, Some, map};
ghost use Rattle.std.specs.List.{flat_map};
ghost use Rattle.sig_core.specs.declared.signature.Kind.TheVariants as Kind;
ghost use Rattle.rule_core.specs.Flow.{type_at};
ghost use Rattle.name_core.specs.Faults.{first, found_from};
ghost use Rattle.sort_core.specs.Sorts.{argument_faults, argument_faults_at, atom_faults, call_faults, is_term_of};

use crate::open::{OpenExp, OpenNode};
use crate::sorts::{fault_as, inner_fault};
use items::at;
use rule_core::Who;
use sig_core::{Constructor, Kind, Param, Signature, Sort, TypeId, params_of};
use syntax_core::{Fault, refusal};

/// The type of the term of this constructor, or of one of its children.
fn type_at(con: &Constructor, who: Who) -> Option<TypeId>
    ensures { result ≡ type_at (Some con.now) who }
{
    match who {
        Who::Own => Some(con.owner),
        Who::Child(child) => at(con.args.as_slice(), usize::from(child)).copied(),
    }
}

/// Whether the expression is the term of this constructor or one of its children, of this type.
fn is_term_of(con: &Constructor, owner: TypeId, e: &OpenExp) -> bool
    ensures { result ≡ is_term_of (Some con.now) owner e.now }
{
    match &e.node {
        OpenNode::Term(who) => match type_at(con, *who) {
            Some(found) => found.0 == owner.0,
            None => false,
        },
        _ => false,
    }
}

/// The leftmost fault of an argument for a term of this type.
#[tactic(auto, using(name_core::proofs::Firsts::firsts))]
fn term_fault(con: &Constructor, slots: &[Sort], owner: TypeId, e: &OpenExp) -> Option<Fault>
    ensures { result ≡ first (argument_faults (Some con.now) slots.now (Some (Kind.Term owner)) e.now) }
{
    if !is_term_of(con, owner, e) {
        return Some(refusal(e.place, 30));
    }
    inner_fault(slots, e)
}

/// The leftmost fault of an argument for a parameter of this kind.
fn argument_fault(con: &Constructor, slots: &[Sort], kind: Kind, e: &OpenExp) -> Option<Fault>
    ensures { result ≡ first (argument_faults (Some con.now) slots.now (Some kind) e.now) }
{
    match kind {
        Kind::Term(owner) => term_fault(con, slots, owner, e),
        Kind::Input(sort) => fault_as(Some(sort), slots, e),
        Kind::Output(sort) => fault_as(Some(sort), slots, e),
    }
}

/// The leftmost fault of argument k of a call.
#[tactic(auto, unfolding(crate::specs::Sorts::argument_faults_at))]
fn argument_fault_at(
    con: &Constructor,
    slots: &[Sort],
    params: &[Param],
    k: usize,
    e: &OpenExp,
) -> Option<Fault>
    ensures { result ≡ first (argument_faults_at (Some con.now) slots.now (map (λ p. p.kind) params.now) k e.now) }
{
    if k < params.len() {
        argument_fault(con, slots, params[k].kind, e)
    } else {
        inner_fault(slots, e)
    }
}

#[tactic(auto, using(name_core::proofs::Firsts::firsts))]
fn arguments_fault(
    con: &Constructor,
    slots: &[Sort],
    params: &[Param],
    args: &[OpenExp],
) -> Option<Fault>
    ensures { result ≡ first (found_from (argument_faults_at (Some con.now) slots.now (map (λ p. p.kind) params.now)) 0 args.now) }
{
    for (k, e) in args.iter().enumerate() {
        if let Some(fault) = argument_fault_at(con, slots, params, k, e) {
            return Some(fault);
        }
    }
    None
}

/// The leftmost fault of a call of a relation with these parameters.
#[tactic(auto, using(name_core::proofs::Firsts::firsts))]
fn call_fault(
    con: &Constructor,
    slots: &[Sort],
    params: &[Param],
    place: u32,
    args: &[OpenExp],
) -> Option<Fault>
    ensures { result ≡ first (call_faults (Some con.now) slots.now (map (λ p. p.kind) params.now) place args.now) }
{
    if args.len() != params.len() {
        return Some(refusal(place, 30));
    }
    arguments_fault(con, slots, params, args)
}

/// The leftmost fault of an atom, which is a call or an expression that states Bool: reason 30 at a wrong sort, 31 at a
/// number out of range.
///
/// It stands in a rule of this constructor, over slots of these sorts.
pub fn atom_fault(
    signature: &Signature,
    con: &Constructor,
    slots: &[Sort],
    e: &OpenExp,
) -> Option<Fault>
    ensures { result ≡ first (atom_faults signature.now (Some con.now) slots.now e.now) }
{
    match &e.node {
        OpenNode::Call(relation, args) => {
            let params = params_of(signature, *relation);
            call_fault(con, slots, params, e.place, args.as_slice())
        }
        OpenNode::Slot(_) | OpenNode::Term(_) | OpenNode::Literal(_, _) | OpenNode::Apply(_, _) =>
            fault_as(Some(Sort::Bool), slots, e),
    }
}

/// The leftmost fault of atoms.
#[tactic(auto, using(name_core::proofs::Firsts::firsts))]
pub(crate) fn atoms_fault(
    signature: &Signature,
    con: &Constructor,
    slots: &[Sort],
    atoms: &[OpenExp],
) -> Option<Fault>
    ensures { result ≡ first (flat_map (atom_faults signature.now (Some con.now) slots.now) atoms.now) }
{
    for atom in atoms {
        if let Some(fault) = atom_fault(signature, con, slots, atom) {
            return Some(fault);
        }
    }
    None
}
