ghost use Rattle.std.specs.Prelude.{◌≡◌, ◌↔◌, ◌<◌, ◌≤◌, List, length, IfOk, OnOk, OnErr};
ghost use Rattle.sig_core.specs.Signatures.{Declarations};
ghost use Rattle.term_core.specs.declared.tree.Tree.{Tree};
ghost use Rattle.term_core.specs.Banks.{IsLive, tree_of};
ghost use Rattle.term_core.specs.Typings.{IsTermOf};
ghost use Rattle.eval_core.specs.Evaluations.{StandsFor};
ghost use Rattle.eval_core.specs.Marks.{IsMarkOf};
ghost use Rattle.marks_core.specs.Marking.{IsLensFor, unused};

use crate::answers::answers;
use crate::places::{Places, all_places};
use crate::probe::{Probes, probes_by_type};
use eval_core::{Evaluator, Mark};
use items::Items;
use lens_core::Lens;
use problem_core::Problem;
use sig_core::ConId;
use std::alloc::{AllocError, Global};
use std::marker::Model;
use term_core::{Bank, TermId};

/// The lens of a problem at a height. The mark of a term is its type and, for each relation of the type and each example
/// of the relation's input sorts, the list of its outcomes within the height; so marks are equal exactly for alike
/// terms. The places where a constructor hands on are plain. The lens is for the problem's signature alone.
#[derive(Debug, Drop)]
pub struct HornMarks<'a> {
    alloc: Global,
    problem: &'a Problem,
    height: u32,
    evaluator: Evaluator<'a>,
    /// for each constructor, whether it hands on at each of its places
    places: Items<Places>,
    /// for each type, the probes that its terms are compared at
    probes: Items<Probes>,
    looks: u64,
}

impl<'a> Model for HornMarks<'a> {
    ghost use Rattle.marks_core.specs.Marking.{Marking, HasTables};
    ghost use Rattle.std.specs.Coded.{codes};
    ghost use Rattle.expr_core.specs.contracts.expr.Expr as expr;

    ghost Value = { Marking };

    ghost coded = { Prim.hlevel (codes, expr.the_row.coded) };

    ghost view = { λ h. record { problem = h.problem.now; height = h.height; evaluation = h.evaluator; looks = h.looks } };

    ghost invariant = { λ h. HasTables h.problem.now h.height h.evaluator h.places h.probes };
}

impl<'a> HornMarks<'a> {
    /// A lens that has taken no mark yet. It fits every bank.
    pub fn new(
        alloc: Global,
        problem: &'a Problem,
        height: u32,
    ) -> Result<HornMarks<'a>, AllocError>
        requires positive { 1 ≤ height }
        requires low { height ≤ 1000 }
        ensures value { IfOk result (λ marks. marks ≡ unused problem.now height) }
        ensures signature { IfOk result (λ marks. (sig : Declarations) → IsLensFor marks sig ↔ (sig ≡ problem.now.signature)) }
        ensures banks { IfOk result (λ marks. (bank : List Tree) → StandsFor marks.evaluation bank) }
    {
        let evaluator = Evaluator::new(alloc, problem.signature(), problem.rulebook());
        let places = all_places(alloc, problem)?;
        let probes = probes_by_type(alloc, problem)?;
        Ok(HornMarks {
            alloc,
            problem,
            height,
            evaluator,
            places,
            probes,
            looks: 0,
        })
    }

    /// The mark of the term. It isn't counted.
    fn mark_of(&mut self, bank: &Bank, id: TermId) -> Result<Mark, AllocError>
        requires live { IsLive bank.now id }
        requires term { (sig : Declarations) × IsLensFor self.old sig × IsTermOf sig (tree_of bank.now id) }
        requires fits { StandsFor self.old.evaluation bank.now }
        ensures mark { IfOk result (IsMarkOf self.old.problem self.old.height (tree_of bank.now id)) }
        ensures problem { self.new.problem ≡ self.old.problem }
        ensures height { self.new.height ≡ self.old.height }
        ensures looks { self.new.looks ≡ self.old.looks }
        ensures fits { StandsFor self.new.evaluation bank.now }
    {
        let owner = self.problem.signature().constructor(bank.con(id)).owner;
        let probes = self.probes.as_slice()[usize::from(owner.0)].as_slice();
        let outcomes = answers(
            self.alloc,
            &mut self.evaluator,
            bank,
            id,
            probes,
            self.height,
        )?;
        Ok(Mark { owner, outcomes })
    }
}

impl<'a> Lens for HornMarks<'a> {
    ghost use Rattle.eval_core.specs.Alikeness.{AreAlike};
    ghost use Rattle.eval_core.specs.Evaluations.{StandsFor};
    ghost use Rattle.eval_core.specs.Lenses.{hands_on};
    ghost use Rattle.eval_core.specs.Marks.{IsMarkOf};
    ghost use Rattle.eval_core.proofs.OutcomeLaws.{stands_for_grown};
    ghost use Rattle.eval_core.proofs.Telling.{marks_compare};
    ghost use Rattle.marks_core.specs.LensLaws.{marks_congruent, marks_sameness};
    ghost use Rattle.marks_core.specs.Marking.{IsLensFor};

    type Mark = Mark;

    ghost has_mark = { λ l t mark. IsMarkOf l.problem l.height t mark };

    ghost same_mark = { λ l t u. AreAlike l.problem l.height t u };

    ghost is_for = { λ l sig. IsLensFor l sig };

    ghost fits = { λ l bank. StandsFor l.evaluation bank };

    ghost is_plain = { λ l con i. hands_on l.problem con i };

    ghost looked = { λ l. l.looks };

    fn plain(&self, con: ConId, i: usize) -> bool {
        self.places.as_slice()[usize::from(con.0)].as_slice()[i]
    }

    fn looks(&self) -> u64 {
        self.looks
    }

    fn mark(&mut self, bank: &Bank, id: TermId) -> Result<Mark, AllocError> {
        if self.looks < u64::MAX {
            self.looks += 1;
        }
        self.mark_of(bank, id)
    }

    ghost compares = { λ l t u m n p q. marks_compare l.problem l.height t u m n p q };

    ghost equals = { λ l sig is. marks_sameness l sig is };

    ghost congruent = { λ l sig is. marks_congruent l sig is };

    ghost fits_more = { λ l old new keeps stands. stands_for_grown l.evaluation old new keeps stands };
}
