//! The relations of a `define-funs-rec`.
ghost use Rattle.std.specs.Prelude.{◌≡◌, map, IfOk, OnOk};
ghost use Rattle.std.specs.List.{list_any};
ghost use Rattle.sig_core.specs.Names.{same_name};
ghost use Rattle.sig_core.specs.Refusals.{with_relation};
ghost use Rattle.making_core.specs.Fitting.{RelationFits, RelationsFit};
ghost use Rattle.sort_core.specs.Relations.{declared_with, kind_of, param_of, relation_of};

use crate::types::want_of_memory;
use name_core::is_plain;
use sexpr_core::Atom;
use sig_core::{Kind, Param, Params, Relation, Signature};
use sort_core::{sort_named, type_named};
use std::alloc::{AllocError, Global};
use syntax_core::{Function, Pair};

/// Whether one of the symbols has this name.
fn is_among(symbols: &[Atom], name: &[u8]) -> bool
    ensures { result ≡ list_any (λ symbol. same_name name.now symbol.bytes) symbols.now }
{
    symbols.iter().any(|symbol| name == symbol.bytes.as_slice())
}

/// What a parameter is: a term, or an input where `:input` has its name, or else an output.
#[tactic(auto, using(crate::proofs::Fits::text_stands))]
fn kind_of(signature: &Signature, inputs: &[Atom], pair: &Pair) -> Kind
    ensures { result ≡ kind_of signature.now inputs.now pair.now }
{
    let sort = pair.sort.bytes.as_slice();
    if !is_plain(pair) {
        Kind::Term(type_named(signature, sort))
    } else if is_among(inputs, pair.name.bytes.as_slice()) {
        Kind::Input(sort_named(sort))
    } else {
        Kind::Output(sort_named(sort))
    }
}

fn param_of(
    alloc: Global,
    signature: &Signature,
    inputs: &[Atom],
    pair: &Pair,
) -> Result<Param, AllocError>
    ensures { IfOk result (λ param. param ≡ param_of signature.now inputs.now pair.now) }
{
    Ok(Param {
        name: pair.name.bytes.copy(alloc)?,
        kind: kind_of(signature, inputs, pair),
    })
}

fn params_of(
    alloc: Global,
    signature: &Signature,
    inputs: &[Atom],
    pairs: &[Pair],
) -> Result<Params, AllocError>
    ensures { IfOk result (λ params. params ≡ map (param_of signature.now inputs.now) pairs.now) }
{
    let mut params = Params::new(alloc);
    for pair in pairs {
        params.push(param_of(alloc, signature, inputs, pair)?)?;
    }
    Ok(params)
}

/// The relation that a function declares.
fn relation_of(
    alloc: Global,
    signature: &Signature,
    function: &Function,
) -> Result<Relation, AllocError>
    ensures { IfOk result (λ relation. relation ≡ relation_of signature.now function.now) }
{
    let inputs = function.definition.inputs.as_slice();
    let pairs = function.declaration.params.as_slice();
    Ok(Relation {
        name: function.declaration.name.bytes.copy(alloc)?,
        params: params_of(alloc, signature, inputs, pairs)?,
    })
}

/// Adds the relation that a function declares.
fn add_relation(
    alloc: Global,
    signature: &mut Signature,
    function: &Function,
) -> Result<(), AllocError>
    requires { RelationFits signature.old (relation_of signature.old function.now) }
    ensures { OnOk result (signature.new ≡ with_relation signature.old (relation_of signature.old function.now)) }
{
    let relation = relation_of(alloc, signature, function)?;
    match signature.add_relation(relation) {
        Ok(_) => Ok(()),
        Err(error) => Err(want_of_memory(error)),
    }
}

/// Adds the relations of functions.
pub fn add_relations(
    alloc: Global,
    signature: &mut Signature,
    functions: &[Function],
) -> Result<(), AllocError>
    requires { RelationsFit signature.old (map (relation_of signature.old) functions.now) }
    ensures { OnOk result (signature.new ≡ declared_with signature.old functions.now) }
{
    for function in functions {
        add_relation(alloc, signature, function)?;
    }
    Ok(())
}
