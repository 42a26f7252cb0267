use example_relations::{binary_params, constant_params, unary_params};
use sig_core::{RelId, Relation, SigError, Signature, Sort, TypeId, bytes_of};
use std::alloc::Global;

/// Adds a relation of a term and an output. Of a type that the signature hasn't, none is added, as if memory were refused.
pub fn add_constant(
    alloc: Global,
    signature: &mut Signature,
    name: &[u8],
    ty: TypeId,
) -> Result<RelId, SigError> {
    if ty.0 >= signature.types() {
        return Err(SigError::Memory);
    }
    let params = constant_params(alloc, ty)?;
    let name = bytes_of(alloc, name)?;
    signature.add_relation(Relation { name, params })
}

/// The same of a relation of a term, an input and an output.
pub fn add_unary(
    alloc: Global,
    signature: &mut Signature,
    name: &[u8],
    ty: TypeId,
) -> Result<RelId, SigError> {
    if ty.0 >= signature.types() {
        return Err(SigError::Memory);
    }
    let params = unary_params(alloc, ty)?;
    let name = bytes_of(alloc, name)?;
    signature.add_relation(Relation { name, params })
}

/// The same of a relation of a term, two inputs and an output of this sort.
pub fn add_binary(
    alloc: Global,
    signature: &mut Signature,
    name: &[u8],
    ty: TypeId,
    output: Sort,
) -> Result<RelId, SigError> {
    if ty.0 >= signature.types() {
        return Err(SigError::Memory);
    }
    let params = binary_params(alloc, ty, output)?;
    let name = bytes_of(alloc, name)?;
    signature.add_relation(Relation { name, params })
}
