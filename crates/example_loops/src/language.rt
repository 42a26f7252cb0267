ghost use Rattle.std.specs.Prelude.{◌≡◌, IfOk};
ghost use Rattle.example_loops.specs.Loops.{gives, loops, one_constructor};

use example_relations::unary_params;
use sig_core::{ConId, RelId, Relation, SigError, Signature, TypeId, bytes_of};
use std::alloc::{AllocError, Global};

/// The type of terms.
const TERM: TypeId = TypeId(0);

/// Its one constructor.
pub const LOOP: ConId = ConId(0);

/// The relation of a term, its input in slot 0, and its output in slot 1.
pub const S: RelId = RelId(0);

fn gives(alloc: Global) -> Result<Relation, AllocError>
    ensures { IfOk result (λ relation. relation ≡ gives) }
{
    Ok(Relation {
        name: bytes_of(alloc, b"S")?,
        params: unary_params(alloc, TERM)?,
    })
}

fn one_constructor(alloc: Global) -> Result<Signature, SigError>
    ensures { IfOk result (λ signature. signature ≡ one_constructor) }
{
    let mut signature = Signature::new(alloc);
    signature.add_type(b"E")?;
    signature.add_constructor(b"$loop", TERM, &[])?;
    Ok(signature)
}

/// A signature with one type, one constructor and one relation.
pub fn loops(alloc: Global) -> Result<Signature, SigError>
    ensures { IfOk result (λ signature. signature ≡ loops) }
{
    let mut signature = one_constructor(alloc)?;
    signature.add_relation(gives(alloc)?)?;
    Ok(signature)
}
