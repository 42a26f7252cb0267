//! The numbers of the steps that have facts.
ghost use Rattle.std.specs.Prelude.{◌≡◌, IfOk, OnOk};
ghost use Rattle.extract_core.specs.Places.{ArePlaces, IsPut, fact_of, number_in};

use deriv_core::{Fact, Step, Steps};
use indexmap::IndexMap;
use sig_core::{Signature, Values, count_plain, params_of};
use std::alloc::{AllocError, Global};

/// The number of a step under its fact.
pub(crate) type Places = IndexMap<Fact, usize>;

/// The numbers of these steps.
pub(crate) fn places_of(
    alloc: Global,
    signature: &Signature,
    steps: &Steps,
) -> Result<Places, AllocError>
    ensures { IfOk result (λ places. ArePlaces signature.now steps.now (number_in places)) }
{
    let mut places = Places::new(alloc);
    for number in 0..steps.len() {
        let Some(step) = steps.get(number) else {
            unreachable!();
        };
        put(alloc, &mut places, signature, step, number)?;
    }
    Ok(places)
}

/// Puts the number of the step under its fact.
pub(crate) fn put(
    alloc: Global,
    places: &mut Places,
    signature: &Signature,
    step: &Step,
    number: usize,
) -> Result<(), AllocError>
    ensures { OnOk result (IsPut (number_in places.old) (fact_of signature.now step.now) number (number_in places.new)) }
{
    let fact = fact_of(alloc, signature, step)?;
    places.insert(fact, number)?;
    Ok(())
}

/// The number that stands under the fact.
pub(crate) fn number_of(places: &Places, fact: &Fact) -> Option<usize>
    ensures { result ≡ number_in places.now fact.now }
{
    places.get(fact).copied()
}

/// The fact of a step.
fn fact_of(alloc: Global, signature: &Signature, step: &Step) -> Result<Fact, AllocError>
    ensures { IfOk result (λ fact. fact ≡ fact_of signature.now step.now) }
{
    let values = step.values.as_slice();
    let count = count_plain(params_of(signature, step.relation)).min(values.len());
    let mut args = Values::new(alloc);
    args.append(&values[..count])?;
    Ok(Fact {
        relation: step.relation,
        node: step.node,
        args,
    })
}
