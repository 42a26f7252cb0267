//! Facts of steps and of calls.
ghost use Rattle.std.specs.Prelude.{◌≡◌, ◌++◌, ◌↔◌, Some, None, if◌then◌else◌, IsTrue, IfOk, map, take, length, option_map};
ghost use Rattle.sig_core.specs.Lists.{all_some};
ghost use Rattle.sig_core.specs.Signatures.{inputs_of, outputs_of, kinds_of, plain_sorts, woven};
ghost use Rattle.expr_core.specs.Expressions.{value_of};
ghost use Rattle.term_core.specs.Banks.{IsLive, tree_of};
ghost use Rattle.rule_core.specs.Instances.{call_fact, term_at};
ghost use Rattle.extract_core.specs.Lookups.{IsCallFact};

use deriv_core::Fact;
use expr_core::Expr;
use rule_core::{Call, term_at};
use sig_core::{Kind, Param, RelId, Signature, Value, Values, params_of};
use std::alloc::{AllocError, Global};
use term_core::{Bank, TermId};

/// Whether the first `count` of the values, or all where they are fewer, are these.
pub(crate) fn begins_with(values: &[Value], count: usize, args: &[Value]) -> bool
    ensures { IsTrue result ↔ (take count values.now ≡ args.now) }
{
    are_same(&values[..count.min(values.len())], args)
}

pub(crate) fn are_same(left: &[Value], right: &[Value]) -> bool
    ensures { IsTrue result ↔ (left.now ≡ right.now) }
{
    left == right
}

/// The fact of a call in a rule for the term of this id, where each argument has a value.
pub(crate) fn call_fact(
    alloc: Global,
    signature: &Signature,
    bank: &Bank,
    id: TermId,
    slots: &[Value],
    call: &Call,
) -> Result<Option<Fact>, AllocError>
    requires { IsLive bank.now id }
    ensures { IfOk result (IsCallFact bank.now (call_fact signature.now (tree_of bank.now id) slots.now call.now)) }
{
    let Some(node) = term_at(bank, id, call.who) else {
        return Ok(None);
    };
    let mut args = Values::new(alloc);
    let params = params_of(signature, call.relation);
    let inputs = call.inputs.as_slice();
    let outputs = call.outputs.as_slice();
    if !put_values(params, inputs, outputs, slots, &mut args)? {
        return Ok(None);
    }
    Ok(Some(Fact {
        relation: call.relation,
        node,
        args,
    }))
}

/// Puts the values of the arguments, in order of these parameters, last; false as soon as one has none.
fn put_values(
    params: &[Param],
    inputs: &[Expr],
    outputs: &[Expr],
    slots: &[Value],
    args: &mut Values,
) -> Result<bool, AllocError>
    ensures { IfOk result (λ passes. (if passes then Some args.new else None)
        ≡ option_map (λ vs. args.old ++ vs) (all_some (map (value_of slots.now) (woven (map (λ p. p.kind) params.now) inputs.now outputs.now)))) }
{
    let [param, params @ ..] = params else {
        return Ok(true);
    };
    match param.kind {
        Kind::Term(_) => put_values(params, inputs, outputs, slots, args),
        Kind::Input(_) => {
            let [expr, inputs @ ..] = inputs else {
                return Ok(true);
            };
            let Some(value) = expr.value_in(slots) else {
                return Ok(false);
            };
            args.push(value)?;
            put_values(params, inputs, outputs, slots, args)
        }
        Kind::Output(_) => {
            let [expr, outputs @ ..] = outputs else {
                return Ok(true);
            };
            let Some(value) = expr.value_in(slots) else {
                return Ok(false);
            };
            args.push(value)?;
            put_values(params, inputs, outputs, slots, args)
        }
    }
}
