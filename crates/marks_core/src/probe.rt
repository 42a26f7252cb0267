//! The probes of a problem's types.
ghost use Rattle.std.specs.Prelude.{◌≡◌, ◌++◌, Some, map, IfOk, OnOk};
ghost use Rattle.sig_core.specs.Signatures.{term_type};
ghost use Rattle.rule_core.specs.Flow.{same_type};
ghost use Rattle.marks_core.specs.Tables.{probe_with, probes_at, probes_by_type, probes_with};

use crate::examples::{examples_of, has_inputs};
use items::Items;
use problem_core::Problem;
use sig_core::{Kind, Param, RelId, Signature, TypeId, Value, Values, params_of};
use std::alloc::{AllocError, Global};
use std::marker::Model;

/// A relation, and inputs at which terms of its type are compared.
#[derive(Debug, Drop)]
pub(crate) struct Probe {
    relation: RelId,
    inputs: Values,
}

pub(crate) type Probes = Items<Probe>;

impl Model for Probe {
    ghost use Rattle.eval_core.specs.Marks.{Probe as RelationAndInputs};

    ghost Value = { RelationAndInputs };

    ghost view = { λ p. record { relation = p.relation; inputs = p.inputs } };
}

impl Probe {
    fn new(relation: RelId, inputs: Values) -> Probe
        ensures { result ≡ probe_with relation inputs }
    {
        Probe { relation, inputs }
    }

    pub fn relation(&self) -> RelId
        ensures { result ≡ self.now.relation }
    {
        self.relation
    }

    pub fn inputs(&self) -> &[Value]
        ensures { result.now ≡ self.now.inputs }
    {
        self.inputs.as_slice()
    }
}

/// The probes of each type, in order of the types.
pub(crate) fn probes_by_type(alloc: Global, problem: &Problem) -> Result<Items<Probes>, AllocError>
    ensures { IfOk result (λ lists. lists ≡ probes_by_type problem.now) }
{
    let signature = problem.signature();
    let examples = examples_of(alloc, problem)?;
    let count = signature.types();
    let mut lists = Items::new(alloc);
    for number in 0..count {
        let probes = probes_of(alloc, signature, TypeId(number), examples.as_slice())?;
        lists.push(probes)?;
    }
    Ok(lists)
}

/// The probes of the type, relation by relation.
fn probes_of(
    alloc: Global,
    signature: &Signature,
    owner: TypeId,
    examples: &[Values],
) -> Result<Probes, AllocError>
    ensures { IfOk result (λ probes. probes ≡ probes_at signature.now owner examples.now) }
{
    let count = signature.relations();
    let mut probes = Probes::new(alloc);
    for number in 0..count {
        put_probes(
            alloc,
            signature,
            owner,
            RelId(number),
            examples,
            &mut probes,
        )?;
    }
    Ok(probes)
}

/// Puts the relation's probes last, if it is on terms of the type: one for each example that has its input sorts.
fn put_probes(
    alloc: Global,
    signature: &Signature,
    owner: TypeId,
    relation: RelId,
    examples: &[Values],
    probes: &mut Probes,
) -> Result<(), AllocError>
    ensures { OnOk result (probes.new ≡ probes.old ++ probes_with signature.now owner relation examples.now) }
{
    let params = params_of(signature, relation);
    if !are_on(params, owner) {
        return Ok(());
    }
    for inputs in examples {
        if has_inputs(params, inputs.as_slice()) {
            probes.push(Probe::new(relation, inputs.copy(alloc)?))?;
        }
    }
    Ok(())
}

/// Whether the parameters are of a relation on terms of the type.
fn are_on(params: &[Param], owner: TypeId) -> bool
    ensures { result ≡ same_type (term_type (map (λ p. p.kind) params.now)) (Some owner) }
{
    for param in params {
        if let Kind::Term(found) = param.kind {
            return found.0 == owner.0;
        }
    }
    false
}
