ghost use Rattle.std.specs.Prelude.{All, IfOk, OnOk};
ghost use Rattle.term_core.specs.Banks.{IsLive};

use deriv_core::{Step, StepId, StepIds, Steps};
use example_loops::S;
use sig_core::{Value, Values};
use std::alloc::{AllocError, Global};
use term_core::{Bank, TermId};

/// The number of a rule, the values of its slots, and the numbers of the premises.
pub type Row = (u64, &'static [i128], &'static [usize]);

fn values(alloc: Global, numbers: &[i128]) -> Result<Values, AllocError> {
    let mut values = Values::new(alloc);
    for number in numbers {
        values.push(Value::Int(*number))?;
    }
    Ok(values)
}

fn premises(alloc: Global, numbers: &[usize]) -> Result<StepIds, AllocError> {
    let mut premises = StepIds::new(alloc);
    for number in numbers {
        premises.push(StepId(*number))?;
    }
    Ok(premises)
}

fn push(
    alloc: Global,
    steps: &mut Steps,
    node: TermId,
    bank: &Bank,
    row: Row,
) -> Result<(), AllocError>
    requires node { IsLive bank.now node }
    requires live { All (λ s. IsLive bank.now s.node) steps.old }
    ensures live { OnOk result (All (λ s. IsLive bank.now s.node) steps.new) }
{
    let (rule, numbers, earlier) = row;
    let values = values(alloc, numbers)?;
    let premises = premises(alloc, earlier)?;
    steps.push(Step {
        relation: S,
        node,
        rule,
        values,
        premises,
    })?;
    Ok(())
}

/// The steps of these rows, all on one term.
pub fn steps_of(alloc: Global, node: TermId, bank: &Bank, rows: &[Row]) -> Result<Steps, AllocError>
    requires { IsLive bank.now node }
    ensures { IfOk result (All (λ s. IsLive bank.now s.node)) }
{
    let mut steps = Steps::new(alloc);
    for row in rows {
        push(alloc, &mut steps, node, bank, *row)?;
    }
    Ok(steps)
}
