//! The inputs of a problem's examples.
ghost use Rattle.std.specs.Prelude.{◌≡◌, map, IfOk};
ghost use Rattle.sig_core.specs.Signatures.{inputs_of};
ghost use Rattle.eval_core.specs.Alikeness.{example_of};
ghost use Rattle.sig_core.specs.Values.{same_sort, sort_of};
ghost use Rattle.marks_core.specs.Tables.{has_inputs};

use items::Items;
use problem_core::Problem;
use sig_core::{Kind, Param, Sort, Value, Values, inputs_of, params_of};
use std::alloc::{AllocError, Global};

/// The inputs of each example, in order.
pub(crate) fn examples_of(alloc: Global, problem: &Problem) -> Result<Items<Values>, AllocError>
    ensures { IfOk result (λ examples. examples ≡ map (example_of problem.now.signature) problem.now.constraints) }
{
    let signature = problem.signature();
    let constraints = problem.constraints();
    let mut examples = Items::new(alloc);
    for constraint in constraints {
        let params = params_of(signature, constraint.relation);
        let inputs = inputs_of(alloc, params, constraint.args.as_slice())?;
        examples.push(inputs)?;
    }
    Ok(examples)
}

/// Whether there is one value of the right sort for each input among the parameters.
pub(crate) fn has_inputs(params: &[Param], inputs: &[Value]) -> bool
    ensures { result ≡ has_inputs (map (λ p. p.kind) params.now) inputs.now }
{
    let mut rest = inputs;
    for param in params {
        let Kind::Input(sort) = param.kind else {
            continue;
        };
        let Some((value, others)) = rest.split_first() else {
            return false;
        };
        if !is_of(*value, sort) {
            return false;
        }
        rest = others;
    }
    rest.is_empty()
}

/// Whether the value is of the sort.
fn is_of(value: Value, sort: Sort) -> bool
    ensures { result ≡ same_sort (sort_of value) sort }
{
    match value {
        Value::Int(_) => sort == Sort::Int,
        Value::Bool(_) => sort == Sort::Bool,
    }
}
