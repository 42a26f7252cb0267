//! Conditions of calls, looked at when a test runs.
ghost use Rattle.std.specs.Prelude.{◌≡◌, Some, map, IsTrue};
ghost use Rattle.sig_core.specs.Signatures.{inputs_of, plain_sorts, term_type};
ghost use Rattle.sig_core.specs.Values.{sort_of};
ghost use Rattle.rule_core.specs.Rulebooks.{IsRuleOf};
ghost use Rattle.eval_core.specs.Outcomes.{AreInputs};
ghost use Rattle.example_atoms.specs.Rules.{IsShort};

use rule_core::Rule;
use sig_core::{Kind, Param, RelId, Signature, Sort, TypeId, Value, count_plain};

/// Whether the first term among the parameters is of this type.
fn is_on(params: &[Param], owner: TypeId) -> bool
    ensures { IsTrue result → term_type (map (λ p. p.kind) params.now) ≡ Some owner }
{
    let [param, params @ ..] = params else {
        return false;
    };
    match param.kind {
        Kind::Term(ty) => ty.0 == owner.0,
        Kind::Input(_) | Kind::Output(_) => is_on(params, owner),
    }
}

fn has_sort(value: Value, sort: Sort) -> bool
    ensures { IsTrue result → sort_of value ≡ sort }
{
    match (value, sort) {
        (Value::Int(_), Sort::Int) | (Value::Bool(_), Sort::Bool) => true,
        (Value::Int(_), Sort::Bool) | (Value::Bool(_), Sort::Int) => false,
    }
}

/// Whether the values are as many as the inputs, and of their sorts.
fn are_inputs(params: &[Param], inputs: &[Value]) -> bool
    ensures { IsTrue result → map sort_of inputs.now ≡ inputs_of (map (λ p. p.kind) params.now) (plain_sorts (map (λ p. p.kind) params.now)) }
{
    let [param, params @ ..] = params else {
        return inputs.is_empty();
    };
    match param.kind {
        Kind::Term(_) | Kind::Output(_) => are_inputs(params, inputs),
        Kind::Input(sort) => {
            let [input, inputs @ ..] = inputs else {
                return false;
            };
            has_sort(*input, sort) && are_inputs(params, inputs)
        }
    }
}

/// Whether the rule is one of the signature's.
pub fn is_rule(signature: &Signature, rule: &Rule) -> bool
    requires { IsShort rule.now }
    ensures { IsTrue result → IsRuleOf signature.now rule.now }
{
    if rule.relation.0 >= signature.relations() {
        return false;
    }
    if rule.con.0 >= signature.constructors() {
        return false;
    }
    let params = signature.relation(rule.relation).params.as_slice();
    let owner = signature.constructor(rule.con).owner;
    rule.more.len() <= 32 && count_plain(params) <= 32 && is_on(params, owner)
}

/// Whether the values are inputs of the relation.
pub fn are_inputs_of(signature: &Signature, relation: RelId, inputs: &[Value]) -> bool
    ensures { IsTrue result → AreInputs signature.now relation inputs.now }
{
    if relation.0 >= signature.relations() {
        return false;
    }
    are_inputs(signature.relation(relation).params.as_slice(), inputs)
}
