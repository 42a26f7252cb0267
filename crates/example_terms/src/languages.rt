ghost use Rattle.std.specs.Prelude.{◌≤◌, length, All, IsTrue};
ghost use Rattle.sig_core.specs.WellFormed.{IsDeclared};

use sig_core::{ConId, SigError, Signature, TypeId};
use std::alloc::Global;

/// Its name, its type and the types of its children.
pub type Constructor = (&'static [u8], TypeId, &'static [TypeId]);

/// The types and the constructors of terms.
#[derive(Clone, Copy)]
pub struct Language {
    pub types: &'static [&'static [u8]],
    pub constructors: &'static [Constructor],
}

/// The first type, of numbers.
pub const E: TypeId = TypeId(0);

/// The second type, of conditions.
pub const B: TypeId = TypeId(1);

/// One constant.
pub const TINY: Language = Language {
    types: &[b"E"],
    constructors: &[(b"$a", E, &[])],
};

/// Two leaves, and what shifts a number.
pub const SHIFT: Language = Language {
    types: &[b"E"],
    constructors: &[(b"$0", E, &[]), (b"$x", E, &[]), (b"$shift", E, &[E])],
};

/// Sums, choices and comparisons of two numbers.
pub const SUMS: Language = Language {
    types: &[b"E", b"B"],
    constructors: &[
        (b"$x", E, &[]),
        (b"$y", E, &[]),
        (b"$0", E, &[]),
        (b"$1", E, &[]),
        (b"$+", E, &[E, E]),
        (b"$ite", E, &[B, E, E]),
        (b"$t", B, &[]),
        (b"$f", B, &[]),
        (b"$not", B, &[B]),
        (b"$and", B, &[B, B]),
        (b"$or", B, &[B, B]),
        (b"$<", B, &[E, E]),
    ],
};

/// Whether each of the types is declared.
fn all_declared(signature: &Signature, types: &[TypeId]) -> bool
    ensures { IsTrue result → All (IsDeclared (length signature.now.types)) types.now }
{
    for ty in types {
        if ty.0 >= signature.types() {
            return false;
        }
    }
    true
}

/// Whether no constructor stands under a later type.
fn none_later(signature: &Signature, owner: TypeId) -> bool
    ensures { IsTrue result → All (λ c. c.owner.0 ≤ owner.0) signature.now.constructors }
{
    for k in 0..signature.constructors() {
        let earlier = signature.constructor(ConId(k));
        if earlier.owner.0 > owner.0 {
            return false;
        }
    }
    true
}

/// Adds a constructor where its types are declared and its own type isn't an earlier one than the last constructor's.
fn construct(
    signature: &mut Signature,
    name: &[u8],
    owner: TypeId,
    args: &[TypeId],
) -> Result<(), SigError> {
    let is_declared = owner.0 < signature.types() && all_declared(signature, args);
    if is_declared && none_later(signature, owner) {
        signature.add_constructor(name, owner, args)?;
    }
    Ok(())
}

fn add_types(signature: &mut Signature, names: &[&[u8]]) -> Result<(), SigError> {
    for name in names {
        signature.add_type(*name)?;
    }
    Ok(())
}

/// The signature of a language, without relations. A constructor that can't stand there is left out.
pub fn signature_of(alloc: Global, language: &Language) -> Result<Signature, SigError> {
    let mut signature = Signature::new(alloc);
    add_types(&mut signature, language.types)?;
    for (name, owner, args) in language.constructors {
        construct(&mut signature, *name, *owner, *args)?;
    }
    Ok(signature)
}
