ghost use Rattle.std.specs.Prelude.{◌≡◌, IfOk};
ghost use Rattle.sig_core.specs.WellFormed.{IsWellFormed};
ghost use Rattle.eval_core.specs.ShiftExample.{shifts};
ghost use Rattle.example_shifts.specs.Stages.{constants, constructed, gives_relation};

use example_relations::unary_params;
use sig_core::{ConId, RelId, Relation, SigError, Signature, TypeId, bytes_of};
use std::alloc::{AllocError, Global};

/// The one type.
pub const TERM: TypeId = TypeId(0);

/// The constants `0` and `x`, and `shift`, which takes one child.
pub const ZERO: ConId = ConId(0);

pub const X: ConId = ConId(1);

pub const SHIFT: ConId = ConId(2);

/// Of a term, an input and an output.
pub const GIVES: RelId = RelId(0);

fn gives(alloc: Global) -> Result<Relation, AllocError>
    ensures { IfOk result (λ relation. relation ≡ gives_relation) }
{
    Ok(Relation {
        name: bytes_of(alloc, b"gives")?,
        params: unary_params(alloc, TERM)?,
    })
}

fn constants(alloc: Global) -> Result<Signature, SigError>
    ensures { IfOk result (λ signature. signature ≡ constants) }
{
    let mut signature = Signature::new(alloc);
    signature.add_type(b"E")?;
    signature.add_constructor(b"0", TERM, &[])?;
    signature.add_constructor(b"x", TERM, &[])?;
    Ok(signature)
}

fn constructed(alloc: Global) -> Result<Signature, SigError>
    ensures { IfOk result (λ signature. signature ≡ constructed) }
{
    let mut signature = constants(alloc)?;
    signature.add_constructor(b"shift", TERM, &[TERM])?;
    Ok(signature)
}

pub fn shifts(alloc: Global) -> Result<Signature, SigError>
    ensures value { IfOk result (λ signature. signature ≡ shifts) }
    ensures well_formed { IfOk result IsWellFormed }
{
    let mut signature = constructed(alloc)?;
    signature.add_relation(gives(alloc)?)?;
    let _count = signature.types();
    Ok(signature)
}
