ghost use Rattle.std.specs.Prelude.{◌≡◌, ◌≤◌, [], IfOk, OnOk, List, All};
ghost use Rattle.term_core.specs.declared.tree.Tree.{Tree};
ghost use Rattle.term_core.specs.Banks.{IsLive, tree_of};
ghost use Rattle.eval_core.specs.Evaluations.{IsAccepted, StandsFor};
ghost use Rattle.eval_core.specs.Outcomes.{AreInputs, AreOutcomes};
ghost use Rattle.eval_core.specs.RuleInstances.{AreInstances};
ghost use Rattle.eval_core.specs.Tables.{IsKept};

use crate::outcome::Outcomes;
use crate::run::RuleInstances;
use crate::search::Search;
use crate::table::Table;
use rule_core::{Rule, Rulebook};
use sig_core::{RelId, Signature, Value};
use std::alloc::{AllocError, Global};
use std::marker::Model;
use term_core::{Bank, TermId};

/// Finds what relations give on terms, by the rules of one book under one signature. Its calls are all on one bank,
/// which may grow between them: it stands for this bank, and a new one stands for every bank.
#[derive(Debug, Drop)]
pub struct Evaluator<'a> {
    alloc: Global,
    signature: &'a Signature,
    rulebook: &'a Rulebook,
    table: Table,
}

impl<'a> Model for Evaluator<'a> {
    ghost use Rattle.std.specs.Prelude.{[], All};
    ghost use Rattle.eval_core.specs.Evaluations.{Evaluation, IsAccepted};
    ghost use Rattle.std.specs.Coded.{codes};
    ghost use Rattle.expr_core.specs.contracts.expr.Expr as expr;

    ghost Value = { Evaluation };

    ghost coded = { Prim.hlevel (codes, expr.the_row.coded) };

    ghost view = { λ e. record { signature = e.signature.now; rules = e.rulebook.now; kept = e.table } };

    ghost invariant = { λ e. All (IsAccepted e.signature.now) e.rulebook.now };
}

impl<'a> Evaluator<'a> {
    pub fn new(alloc: Global, signature: &'a Signature, rulebook: &'a Rulebook) -> Evaluator<'a>
        requires { All (IsAccepted signature.now) rulebook.now }
        ensures value { result ≡ record { signature = signature.now; rules = rulebook.now; kept = [] } }
        ensures banks { (bank : List Tree) → StandsFor result bank }
    {
        Evaluator {
            alloc,
            signature,
            rulebook,
            table: Table::new(alloc),
        }
    }

    /// The signature that it was made of.
    pub fn signature(&self) -> &'a Signature
        ensures { result.now ≡ self.now.signature }
    {
        self.signature
    }

    /// The rules that it was made of.
    pub fn rulebook(&self) -> &'a Rulebook
        ensures rules { result.now ≡ self.now.rules }
        ensures accepted { All (IsAccepted self.now.signature) self.now.rules }
    {
        self.rulebook
    }

    /// Exactly the outputs that the relation gives on the term at the inputs by a derivation of height at most
    /// `height`, sorted, each once with its least height. They are kept, so that another call for them, or for those
    /// within a lower height, runs no rule.
    pub fn outcomes(
        &mut self,
        bank: &Bank,
        relation: RelId,
        id: TermId,
        inputs: &[Value],
        height: u32,
    ) -> Result<Outcomes, AllocError>
        requires bank { StandsFor self.old bank.now }
        requires live { IsLive bank.now id }
        requires inputs { AreInputs self.old.signature relation inputs.now }
        requires positive { 1 ≤ height }
        requires low { height ≤ 1000 }
        ensures outcomes { IfOk result (AreOutcomes self.old.signature self.old.rules height relation (tree_of bank.now id) inputs.now) }
        ensures kept { OnOk result (IsKept self.new.kept relation id inputs.now height) }
        ensures signature { self.new.signature ≡ self.old.signature }
        ensures rules { self.new.rules ≡ self.old.rules }
        ensures stands { StandsFor self.new bank.now }
    {
        let search = Search {
            alloc: self.alloc,
            signature: self.signature,
            rulebook: self.rulebook,
            bank,
        };
        search.outcomes(&mut self.table, relation, id, inputs, height)
    }

    /// The same outcomes, which aren't kept; what the rules ask of other facts is. This is for who asks about many terms,
    /// each of them once.
    pub fn fresh_outcomes(
        &mut self,
        bank: &Bank,
        relation: RelId,
        id: TermId,
        inputs: &[Value],
        height: u32,
    ) -> Result<Outcomes, AllocError>
        requires bank { StandsFor self.old bank.now }
        requires live { IsLive bank.now id }
        requires inputs { AreInputs self.old.signature relation inputs.now }
        requires positive { 1 ≤ height }
        requires low { height ≤ 1000 }
        ensures outcomes { IfOk result (AreOutcomes self.old.signature self.old.rules height relation (tree_of bank.now id) inputs.now) }
        ensures signature { self.new.signature ≡ self.old.signature }
        ensures rules { self.new.rules ≡ self.old.rules }
        ensures stands { StandsFor self.new bank.now }
    {
        let search = Search {
            alloc: self.alloc,
            signature: self.signature,
            rulebook: self.rulebook,
            bank,
        };
        search.find(&mut self.table, relation, id, inputs, height)
    }

    /// Exactly the values of all slots in the instances of the rule on the term at the inputs, whose calls have facts
    /// with derivations of height at most `height`; at height 0 there are none, so the rule has no calls then. They
    /// stand in no order, and one may stand more than once.
    pub fn instances(
        &mut self,
        bank: &Bank,
        rule: &Rule,
        id: TermId,
        inputs: &[Value],
        height: u32,
    ) -> Result<RuleInstances, AllocError>
        requires bank { StandsFor self.old bank.now }
        requires live { IsLive bank.now id }
        requires rule { IsAccepted self.old.signature rule.now }
        requires inputs { AreInputs self.old.signature rule.now.relation inputs.now }
        requires low { height ≤ 1000 }
        ensures instances { IfOk result (AreInstances self.old.signature self.old.rules height rule.now (tree_of bank.now id) inputs.now) }
        ensures signature { self.new.signature ≡ self.old.signature }
        ensures rules { self.new.rules ≡ self.old.rules }
        ensures stands { StandsFor self.new bank.now }
    {
        let search = Search {
            alloc: self.alloc,
            signature: self.signature,
            rulebook: self.rulebook,
            bank,
        };
        search.instances(&mut self.table, rule, id, inputs, height)
    }
}
