//! The parameters of relations, and the values in their places.
ghost use Rattle.std.specs.Prelude.{◌≡◌, IfOk, map, length};
ghost use Rattle.sig_core.specs.Signatures.{inputs_of, outputs_of, kinds_of, plain_sorts};

use crate::ids::RelId;
use crate::signature::{Kind, Param, Signature};
use crate::value::{Value, Values};
use std::alloc::{AllocError, Global};

/// The parameters of a relation; none of one that the signature doesn't know.
pub fn params_of<'s>(signature: &'s Signature, relation: RelId) -> &'s [Param]
    ensures { map (λ p. p.kind) result.now ≡ kinds_of signature.now relation }
{
    if relation.0 < signature.relations() {
        signature.relation(relation).params.as_slice()
    } else {
        &[]
    }
}

/// The number of parameters that aren't terms.
pub fn count_plain(params: &[Param]) -> usize
    ensures { result ≡ length (plain_sorts (map (λ p. p.kind) params.now)) }
{
    let mut count = 0;
    for param in params {
        match param.kind {
            Kind::Term(_) => {}
            Kind::Input(_) | Kind::Output(_) => count += 1,
        }
    }
    count
}

/// Of the values of all parameters that aren't terms, those of the inputs.
pub fn inputs_of(alloc: Global, params: &[Param], args: &[Value]) -> Result<Values, AllocError>
    ensures { IfOk result (λ inputs. inputs ≡ inputs_of (map (λ p. p.kind) params.now) args.now) }
{
    let mut inputs = Values::new(alloc);
    let mut rest = args;
    for param in params {
        if let Kind::Term(_) = param.kind {
            continue;
        }
        let Some((value, others)) = rest.split_first() else {
            return Ok(inputs);
        };
        if let Kind::Input(_) = param.kind {
            inputs.push(*value)?;
        }
        rest = others;
    }
    Ok(inputs)
}

/// Of the values of all parameters that aren't terms, those of the outputs.
pub fn outputs_of(alloc: Global, params: &[Param], args: &[Value]) -> Result<Values, AllocError>
    ensures { IfOk result (λ outputs. outputs ≡ outputs_of (map (λ p. p.kind) params.now) args.now) }
{
    let mut outputs = Values::new(alloc);
    let mut rest = args;
    for param in params {
        if let Kind::Term(_) = param.kind {
            continue;
        }
        let Some((value, others)) = rest.split_first() else {
            return Ok(outputs);
        };
        if let Kind::Output(_) = param.kind {
            outputs.push(*value)?;
        }
        rest = others;
    }
    Ok(outputs)
}
