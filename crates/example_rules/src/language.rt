ghost use Rattle.std.specs.Prelude.{◌≡◌, IfOk};
ghost use Rattle.example_rules.specs.Examples.{the_type, gives, maps, two_types, two_constructors, example};

use example_relations::{constant_params, unary_params};
use sig_core::{Relation, SigError, Signature, TypeId, bytes_of};
use std::alloc::{AllocError, Global};

/// The type of terms.
pub const TERM: TypeId = TypeId(0);

/// The type of conditions.
const CONDITION: TypeId = TypeId(1);

fn gives(alloc: Global) -> Result<Relation, AllocError>
    ensures { IfOk result (λ relation. relation ≡ gives) }
{
    Ok(Relation {
        name: bytes_of(alloc, b"U")?,
        params: constant_params(alloc, TERM)?,
    })
}

fn maps(alloc: Global) -> Result<Relation, AllocError>
    ensures { IfOk result (λ relation. relation ≡ maps) }
{
    Ok(Relation {
        name: bytes_of(alloc, b"S")?,
        params: unary_params(alloc, TERM)?,
    })
}

fn two_types(alloc: Global) -> Result<Signature, SigError>
    ensures { IfOk result (λ signature. signature ≡ two_types) }
{
    let mut signature = Signature::new(alloc);
    signature.add_type(b"E")?;
    signature.add_type(b"B")?;
    Ok(signature)
}

pub fn two_constructors(alloc: Global) -> Result<Signature, SigError>
    ensures { IfOk result (λ signature. signature ≡ two_constructors) }
{
    let mut signature = two_types(alloc)?;
    signature.add_constructor(b"$+", TERM, &[TERM, TERM])?;
    signature.add_constructor(b"$if", TERM, &[CONDITION, TERM, TERM])?;
    Ok(signature)
}

/// A signature with two types, two constructors and two relations.
pub fn example(alloc: Global) -> Result<Signature, SigError>
    ensures { IfOk result (λ signature. signature ≡ example) }
{
    let mut signature = two_constructors(alloc)?;
    signature.add_relation(gives(alloc)?)?;
    signature.add_relation(maps(alloc)?)?;
    Ok(signature)
}
