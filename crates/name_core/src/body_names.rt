//! The names in bodies.
ghost use Rattle.std.specs.Prelude.{◌≡◌, ◌++◌, IfOk};
ghost use Rattle.std.specs.List.{flat_map};
ghost use Rattle.name_core.specs.Bodies.{bound, bound_after, leaf, nodes_within};
ghost use Rattle.name_core.specs.Faults.{first};
ghost use Rattle.name_core.specs.Names.{expression_names, names_in, node_names, sort_names, unknown_name};

use crate::copies::{copy_names, copy_pair, joined, put_names};
use crate::expression_names::{expression_name, unfit_name};
use crate::pairs::is_sort;
use rule_core::Names;
use sexpr_core::Atom;
use sig_core::Bytes;
use std::alloc::{AllocError, Global};
use syntax_core::{Body, Exp, Fault, Leaf, Pair, refusal};

/// The names and those of pairs after them.
fn with_names(alloc: Global, names: &[Bytes], pairs: &[Pair]) -> Result<Names, AllocError>
    ensures { IfOk result (λ all. all ≡ names.now ++ names_in pairs.now) }
{
    let mut all = copy_names(alloc, names)?;
    put_names(alloc, pairs, &mut all)?;
    Ok(all)
}

/// The fault of a sort's name that is neither `Int` nor `Bool`.
fn unknown_sort(name: &Atom) -> Option<Fault>
    ensures { result ≡ first (unknown_name sort_names name.now) }
{
    if is_sort(name.bytes.as_slice()) {
        None
    } else {
        Some(refusal(name.place, 20))
    }
}

/// The leftmost wrong name of an existential, where these are around it.
#[tactic(auto, using(crate::proofs::Firsts::firsts))]
fn existential_name(
    alloc: Global,
    relations: &[Bytes],
    scope: &[Bytes],
    around: &[Pair],
    pair: &Pair,
) -> Result<Option<Fault>, AllocError>
    ensures { IfOk result (λ fault. fault ≡ first (node_names relations.now scope.now (bound around.now pair.now))) }
{
    let names = with_names(alloc, scope, around)?;
    if let Some(fault) = unfit_name(names.as_slice(), &pair.name) {
        return Ok(Some(fault));
    }
    Ok(unknown_sort(&pair.sort))
}

/// The leftmost wrong name of existentials, where these are around the first.
#[tactic(auto, using(crate::proofs::Firsts::firsts))]
fn existentials_name(
    alloc: Global,
    relations: &[Bytes],
    scope: &[Bytes],
    around: &[Pair],
    pairs: &[Pair],
) -> Result<Option<Fault>, AllocError>
    ensures { IfOk result (λ fault. fault ≡ first (flat_map (node_names relations.now scope.now) (bound_after around.now pairs.now))) }
{
    let mut inside = joined(alloc, around, &[])?;
    for pair in pairs {
        if let Some(fault) = existential_name(alloc, relations, scope, inside.as_slice(), pair)? {
            return Ok(Some(fault));
        }
        inside.push(copy_pair(alloc, pair)?)?;
    }
    Ok(None)
}

/// The leftmost wrong name of atoms.
#[tactic(auto, using(crate::proofs::Firsts::firsts))]
fn atoms_name(relations: &[Bytes], scope: &[Bytes], atoms: &[Exp]) -> Option<Fault>
    ensures { result ≡ first (flat_map (expression_names relations.now scope.now) atoms.now) }
{
    for atom in atoms {
        if let Some(fault) = expression_name(relations, scope, atom) {
            return Some(fault);
        }
    }
    None
}

/// The leftmost wrong name of a leaf, where these existentials are around it.
fn leaf_name(
    alloc: Global,
    relations: &[Bytes],
    scope: &[Bytes],
    around: &[Pair],
    atoms: &Leaf,
) -> Result<Option<Fault>, AllocError>
    ensures { IfOk result (λ fault. fault ≡ first (node_names relations.now scope.now (leaf around.now atoms.now))) }
{
    let names = with_names(alloc, scope, around)?;
    Ok(atoms_name(relations, names.as_slice(), atoms.atoms.as_slice()))
}

/// The leftmost wrong name of a body, where these existentials are around it.
#[cycle(body_names)]
#[tactic(auto, using(crate::proofs::Noding::nodings))]
pub(crate) fn body_name(
    alloc: Global,
    relations: &[Bytes],
    scope: &[Bytes],
    around: &[Pair],
    body: &Body,
) -> Result<Option<Fault>, AllocError>
    ensures { IfOk result (λ fault. fault ≡ first (flat_map (node_names relations.now scope.now) (nodes_within body.now around.now))) }
{
    match body {
        Body::Fork(fork) => {
            let pairs = fork.pairs.as_slice();
            match existentials_name(alloc, relations, scope, around, pairs)? {
                Some(fault) => Ok(Some(fault)),
                None => {
                    let inside = joined(alloc, around, pairs)?;
                    let bodies = fork.bodies.as_slice();
                    Ok(bodies_name(alloc, relations, scope, inside.as_slice(), bodies)?)
                }
            }
        }
        Body::Leaf(atoms) => Ok(leaf_name(alloc, relations, scope, around, atoms)?),
    }
}

/// The leftmost wrong name of bodies, where these existentials are around them.
#[cycle(body_names)]
#[tactic(auto, using(crate::proofs::Firsts::firsts))]
fn bodies_name(
    alloc: Global,
    relations: &[Bytes],
    scope: &[Bytes],
    around: &[Pair],
    bodies: &[Body],
) -> Result<Option<Fault>, AllocError>
    ensures { IfOk result (λ fault. fault ≡ first (flat_map (λ body. flat_map (node_names relations.now scope.now) (nodes_within body around.now)) bodies.now)) }
{
    for body in bodies {
        if let Some(fault) = body_name(alloc, relations, scope, around, body)? {
            return Ok(Some(fault));
        }
    }
    Ok(None)
}
