ghost use Rattle.std.specs.Prelude.{◌≡◌, IfOk};
ghost use Rattle.example_relations.specs.Relations.{binary_params, constant_params, unary_params};

use sig_core::{Kind, Param, Params, Sort, TypeId, bytes_of};
use std::alloc::{AllocError, Global};

/// A parameter of this name.
pub fn param(alloc: Global, name: &[u8], kind: Kind) -> Result<Param, AllocError>
    ensures { IfOk result (λ param. param ≡ record { name = name.now; kind = kind }) }
{
    Ok(Param {
        name: bytes_of(alloc, name)?,
        kind,
    })
}

/// Of a relation of a term and an output.
pub fn constant_params(alloc: Global, ty: TypeId) -> Result<Params, AllocError>
    ensures { IfOk result (λ params. params ≡ constant_params ty) }
{
    let mut params = Params::new(alloc);
    params.push(param(alloc, b"t", Kind::Term(ty))?)?;
    params.push(param(alloc, b"r", Kind::Output(Sort::Int))?)?;
    Ok(params)
}

/// Of a relation of a term, an input and an output.
pub fn unary_params(alloc: Global, ty: TypeId) -> Result<Params, AllocError>
    ensures { IfOk result (λ params. params ≡ unary_params ty) }
{
    let mut params = Params::new(alloc);
    params.push(param(alloc, b"t", Kind::Term(ty))?)?;
    params.push(param(alloc, b"x", Kind::Input(Sort::Int))?)?;
    params.push(param(alloc, b"r", Kind::Output(Sort::Int))?)?;
    Ok(params)
}

/// Of a relation of a term, two inputs and an output of this sort.
pub fn binary_params(alloc: Global, ty: TypeId, output: Sort) -> Result<Params, AllocError>
    ensures { IfOk result (λ params. params ≡ binary_params ty output) }
{
    let mut params = Params::new(alloc);
    params.push(param(alloc, b"t", Kind::Term(ty))?)?;
    params.push(param(alloc, b"x", Kind::Input(Sort::Int))?)?;
    params.push(param(alloc, b"y", Kind::Input(Sort::Int))?)?;
    params.push(param(alloc, b"r", Kind::Output(output))?)?;
    Ok(params)
}
