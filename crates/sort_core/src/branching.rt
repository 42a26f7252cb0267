//! The branches of bodies, with their names looked up.
ghost use Rattle.std.specs.Prelude.{◌≡◌, ◌≤◌, ◌+◌, ◌++◌, [], map, length, IfOk, OnOk};
ghost use Rattle.std.specs.List.{flat_map};
ghost use Rattle.sig_core.specs.Lists.{greatest};
ghost use Rattle.name_core.specs.Bodies.{branches_within, width};
ghost use Rattle.sort_core.specs.Branches.{open_branch};
ghost use Rattle.sort_core.specs.Opens.{within};

use crate::branch::{OpenBranch, OpenBranches};
use crate::opening::opened_all;
use crate::variables::Variables;
use name_core::{copy_names, joined, put_names};
use sig_core::Signature;
use std::alloc::{AllocError, Global};
use syntax_core::{Body, Leaf, Pair};

/// The variables and these existentials.
fn within(alloc: Global, variables: &Variables, around: &[Pair]) -> Result<Variables, AllocError>
    ensures { IfOk result (λ more. more ≡ within variables.now around.now) }
{
    let mut slots = copy_names(alloc, variables.slots.as_slice())?;
    put_names(alloc, around, &mut slots)?;
    Ok(Variables {
        slots,
        own: copy_names(alloc, variables.own.as_slice())?,
        children: copy_names(alloc, variables.children.as_slice())?,
    })
}

/// A leaf within these existentials.
fn open_leaf(
    alloc: Global,
    signature: &Signature,
    variables: &Variables,
    around: &[Pair],
    leaf: &Leaf,
) -> Result<OpenBranch, AllocError>
    requires slots { length variables.now.slots + length around.now ≤ 256 }
    requires children { length variables.now.children ≤ 256 }
    ensures { IfOk result (λ branch. branch ≡ open_branch signature.now variables.now (record { around = around.now; leaf = leaf.now })) }
{
    let inside = within(alloc, variables, around)?;
    Ok(OpenBranch {
        around: joined(alloc, around, &[])?,
        place: leaf.place,
        atoms: opened_all(alloc, signature, &inside, leaf.atoms.as_slice())?,
    })
}

/// Puts the branches of a body last, which is within these existentials.
#[cycle(branching)]
#[tactic(auto, using(name_core::proofs::Branchings::branchings))]
pub(crate) fn put_branches(
    alloc: Global,
    signature: &Signature,
    variables: &Variables,
    around: &[Pair],
    body: &Body,
    out: &mut OpenBranches,
) -> Result<(), AllocError>
    requires slots { length variables.now.slots + (length around.now + width body.now) ≤ 256 }
    requires children { length variables.now.children ≤ 256 }
    ensures { OnOk result (out.new ≡ out.old ++ map (open_branch signature.now variables.now) (branches_within body.now around.now)) }
{
    match body {
        Body::Fork(scope) => {
            let inside = joined(alloc, around, scope.pairs.as_slice())?;
            put_all_branches(
                alloc,
                signature,
                variables,
                inside.as_slice(),
                scope.bodies.as_slice(),
                out,
            )?;
        }
        Body::Leaf(leaf) => out.push(open_leaf(alloc, signature, variables, around, leaf)?)?,
    }
    Ok(())
}

/// Puts the branches of bodies last, which are within these existentials.
#[cycle(branching)]
fn put_all_branches(
    alloc: Global,
    signature: &Signature,
    variables: &Variables,
    around: &[Pair],
    bodies: &[Body],
    out: &mut OpenBranches,
) -> Result<(), AllocError>
    requires slots { length variables.now.slots + (length around.now + greatest (map width bodies.now)) ≤ 256 }
    requires children { length variables.now.children ≤ 256 }
    ensures { OnOk result (out.new ≡ out.old ++ map (open_branch signature.now variables.now) (flat_map (λ body. branches_within body around.now) bodies.now)) }
{
    for body in bodies {
        put_branches(alloc, signature, variables, around, body, out)?;
    }
    Ok(())
}
