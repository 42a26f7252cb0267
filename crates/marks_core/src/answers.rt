ghost use Rattle.std.specs.Prelude.{◌≡◌, ◌≤◌, All, IfOk};
ghost use Rattle.term_core.specs.Banks.{IsLive, tree_of};
ghost use Rattle.eval_core.specs.Evaluations.{StandsFor};
ghost use Rattle.eval_core.specs.Outcomes.{AreInputs};
ghost use Rattle.marks_core.specs.Marking.{AreAnswers};

use crate::probe::Probe;
use eval_core::{Evaluator, Outcomes};
use items::Items;
use std::alloc::{AllocError, Global};
use term_core::{Bank, TermId};

/// The outcomes of the term at each probe.
pub(crate) fn answers(
    alloc: Global,
    evaluator: &mut Evaluator<'_>,
    bank: &Bank,
    id: TermId,
    probes: &[Probe],
    height: u32,
) -> Result<Items<Outcomes>, AllocError>
    requires stands { StandsFor evaluator.old bank.now }
    requires live { IsLive bank.now id }
    requires inputs { All (λ probe. AreInputs evaluator.old.signature probe.relation probe.inputs) probes.now }
    requires positive { 1 ≤ height }
    requires low { height ≤ 1000 }
    ensures answers { IfOk result (AreAnswers evaluator.old.signature evaluator.old.rules height (tree_of bank.now id) probes.now) }
    ensures signature { evaluator.new.signature ≡ evaluator.old.signature }
    ensures rules { evaluator.new.rules ≡ evaluator.old.rules }
    ensures stands { StandsFor evaluator.new bank.now }
{
    let mut answers = Items::new(alloc);
    for probe in probes {
        let outcomes = evaluator.fresh_outcomes(
            bank,
            probe.relation(),
            id,
            probe.inputs(),
            height,
        )?;
        answers.push(outcomes)?;
    }
    Ok(answers)
}
