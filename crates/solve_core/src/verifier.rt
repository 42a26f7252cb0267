ghost use Rattle.std.specs.Prelude.{◌≡◌, ◌≤◌, List, All, IfOk, OnOk, MatchBool};
ghost use Rattle.term_core.specs.declared.tree.Tree.{Tree};
ghost use Rattle.term_core.specs.Banks.{IsLive, tree_of};
ghost use Rattle.problem_core.specs.Problems.{Solves};
ghost use Rattle.problem_core.specs.Soundness.{IsSound};
ghost use Rattle.eval_core.specs.Evaluations.{StandsFor};
ghost use Rattle.solve_core.specs.Verifying.{IsFirstOf, VerifiesIn};

use crate::example::{Examples, all_hold, examples_of};
use eval_core::Evaluator;
use problem_core::Problem;
use std::alloc::{AllocError, Global};
use std::marker::Model;
use term_core::{Bank, TermId};

/// Tells which terms of one bank solve a problem within a height. The bank may grow between its calls.
#[derive(Debug, Drop)]
pub(crate) struct Verifier<'a> {
    problem: &'a Problem,
    height: u32,
    evaluator: Evaluator<'a>,
    examples: Examples,
}

impl<'a> Model for Verifier<'a> {
    ghost use Rattle.solve_core.specs.Verifying.{HasExamples, Verification};
    ghost use Rattle.std.specs.Coded.{codes};
    ghost use Rattle.expr_core.specs.contracts.expr.Expr as expr;

    ghost Value = { Verification };

    ghost coded = { Prim.hlevel (codes, expr.the_row.coded) };

    ghost view = { λ v. record { problem = v.problem.now; height = v.height; evaluation = v.evaluator } };

    ghost invariant = { λ v. HasExamples v.problem.now v.height v.evaluator v.examples };
}

impl<'a> Verifier<'a> {
    /// A verifier that can be asked of the terms of any bank.
    pub fn new(alloc: Global, problem: &'a Problem, height: u32) -> Result<Verifier<'a>, AllocError>
        requires positive { 1 ≤ height }
        requires low { height ≤ 1000 }
        ensures verifies { IfOk result (λ verifier. (bank : List Tree) → VerifiesIn verifier problem.now height bank) }
        ensures sound { IfOk result (λ _. IsSound problem.now) }
    {
        let evaluator = Evaluator::new(alloc, problem.signature(), problem.rulebook());
        let examples = examples_of(alloc, problem)?;
        Ok(Verifier {
            problem,
            height,
            evaluator,
            examples,
        })
    }

    /// Whether the term solves.
    fn solves(&mut self, bank: &Bank, id: TermId) -> Result<bool, AllocError>
        requires stands { StandsFor self.old.evaluation bank.now }
        requires live { IsLive bank.now id }
        ensures solves { IfOk result (λ solves. MatchBool solves
            (Solves self.old.problem self.old.height (tree_of bank.now id))
            (¬ Solves self.old.problem self.old.height (tree_of bank.now id))) }
        ensures verifies { VerifiesIn self.new self.old.problem self.old.height bank.now }
    {
        let examples = self.examples.as_slice();
        let solves = all_hold(&mut self.evaluator, bank, id, examples, self.height)?;
        Ok(solves)
    }

    /// The first of the ids whose term solves. Those after it aren't asked.
    pub fn first_of(&mut self, bank: &Bank, ids: &[TermId]) -> Result<Option<TermId>, AllocError>
        requires stands { StandsFor self.old.evaluation bank.now }
        requires live { All (IsLive bank.now) ids.now }
        ensures first { IfOk result (IsFirstOf self.old.problem self.old.height bank.now ids.now) }
        ensures verifies { VerifiesIn self.new self.old.problem self.old.height bank.now }
    {
        for id in ids {
            if self.solves(bank, *id)? {
                return Ok(Some(*id));
            }
        }
        Ok(None)
    }
}
