//! The calls of examples: their limits, names and sorts, and the constraints that they make.
ghost use Rattle.std.specs.Prelude.{◌≡◌, Some, None, map, IfOk};
ghost use Rattle.making_core.specs.Making.{constraint_of, value_of_argument};
ghost use Rattle.making_core.specs.Rules.{plain_args};
ghost use Rattle.sig_core.specs.declared.signature.Kind.TheVariants as Kind;

use crate::making::value_of_literal;
use problem_core::Constraint;
use sig_core::{Kind, Param, Signature, Value, Values, params_of};
use sort_core::relation_named;
use std::alloc::{AllocError, Global};
use syntax_core::{Application, Exp, Literal, literal_of};

fn value_of_argument(e: &Exp) -> Value
    ensures { result ≡ value_of_argument e.now }
{
    match literal_of(e) {
        Some(literal) => value_of_literal(literal),
        None => value_of_literal(Literal::Truth(true)),
    }
}

/// The values of the arguments that aren't terms.
fn values_of(alloc: Global, params: &[Param], args: &[Exp]) -> Result<Values, AllocError>
    ensures { IfOk result (λ values. values ≡ map value_of_argument (plain_args (map (λ p. p.kind) params.now) args.now)) }
{
    let mut values = Values::new(alloc);
    for (k, param) in params.iter().enumerate() {
        if k >= args.len() {
            return Ok(values);
        }
        let value = value_of_argument(&args[k]);
        match param.kind {
            Kind::Term(_) => {}
            Kind::Input(_) => values.push(value)?,
            Kind::Output(_) => values.push(value)?,
        }
    }
    Ok(values)
}

/// The constraint that a call makes.
pub fn constraint_of(
    alloc: Global,
    signature: &Signature,
    call: &Application,
) -> Result<Constraint, AllocError>
    ensures { IfOk result (λ constraint. constraint ≡ constraint_of signature.now call.now) }
{
    let relation = relation_named(signature, call.head.bytes.as_slice());
    Ok(Constraint {
        relation,
        args: values_of(alloc, params_of(signature, relation), call.args.as_slice())?,
    })
}
