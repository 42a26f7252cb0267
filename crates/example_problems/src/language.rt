ghost use Rattle.std.specs.Prelude.{◌≡◌, IfOk};
ghost use Rattle.example_problems.specs.Examples.{constants, example, gives, with_pairs};

use example_relations::constant_params;
use sig_core::{Relation, SigError, Signature, TypeId, bytes_of};
use std::alloc::{AllocError, Global};

/// The type of all terms.
pub(crate) const TERM: TypeId = TypeId(0);

fn gives(alloc: Global) -> Result<Relation, AllocError>
    ensures { IfOk result (λ relation. relation ≡ gives) }
{
    Ok(Relation {
        name: bytes_of(alloc, b"S")?,
        params: constant_params(alloc, TERM)?,
    })
}

fn constants(alloc: Global) -> Result<Signature, SigError>
    ensures { IfOk result (λ signature. signature ≡ constants) }
{
    let mut signature = Signature::new(alloc);
    signature.add_type(b"E")?;
    signature.add_constructor(b"$a", TERM, &[])?;
    signature.add_constructor(b"$c", TERM, &[])?;
    Ok(signature)
}

fn with_pairs(alloc: Global) -> Result<Signature, SigError>
    ensures { IfOk result (λ signature. signature ≡ with_pairs) }
{
    let mut signature = constants(alloc)?;
    signature.add_constructor(b"$p", TERM, &[TERM, TERM])?;
    Ok(signature)
}

/// Two constants, pairs, and a relation that gives a number.
pub(crate) fn example(alloc: Global) -> Result<Signature, SigError>
    ensures { IfOk result (λ signature. signature ≡ example) }
{
    let mut signature = with_pairs(alloc)?;
    signature.add_relation(gives(alloc)?)?;
    Ok(signature)
}
