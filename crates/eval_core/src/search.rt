ghost use Rattle.std.specs.Prelude.{◌≡◌, ◌+◌, ◌-◌, ◌<◌, ◌≤◌, ◌^◌, ◌++◌, IfOk, OnOk, All, length};
ghost use Rattle.std.specs.Option.{option_copied};
ghost use Rattle.std.specs.List.{flat_map};
ghost use Rattle.term_core.specs.Banks.{IsLive, tree_of};
ghost use Rattle.rule_core.specs.Instances.{term_at};
ghost use Rattle.eval_core.specs.Evaluations.{AreTrueOf, IsAccepted};
ghost use Rattle.eval_core.specs.Outcomes.{AreInputs};
ghost use Rattle.eval_core.specs.RuleInstances.{instances_of};
ghost use Rattle.eval_core.specs.Runs.{after_atom, after_atoms, after_call, after_call_on, first_run, outcomes_at, outcomes_of_rule};
ghost use Rattle.eval_core.specs.Searches.{IsReady, IsReadyFor};
ghost use Rattle.eval_core.specs.Tables.{IsKept};

use crate::merge::merge;
use crate::outcome::{Outcomes, copy_of};
use crate::run::{
    RuleInstances, Run, Runs, after_fills, after_tests, put_calls, put_instances, put_outcomes,
};
use crate::table::{Kept, Key, Table};
use rule_core::{Atom, Call, Rule, Rulebook, term_at};
use sig_core::{RelId, Signature, Value};
use std::alloc::{AllocError, Global};
use term_core::{Bank, TermId};

/// What a search for outcomes reads.
#[derive(Clone, Copy)]
pub(crate) struct Search<'a> {
    pub alloc: Global,
    pub signature: &'a Signature,
    pub rulebook: &'a Rulebook,
    pub bank: &'a Bank,
}

impl Search<'_> {
    /// The outcomes of the relation on the term at the inputs that have derivations within the height. They are looked
    /// for in the table first, and kept there.
    #[cycle(outcomes)]
    pub fn outcomes(
        &self,
        table: &mut Table,
        relation: RelId,
        id: TermId,
        inputs: &[Value],
        height: u32,
    ) -> Result<Outcomes, AllocError>
        requires accepted { All (IsAccepted self.now.signature.now) self.now.rulebook.now }
        requires live { IsLive self.now.bank.now id }
        requires table { AreTrueOf self.now.signature.now self.now.rulebook.now self.now.bank.now table.old }
        requires inputs { AreInputs self.now.signature.now relation inputs.now }
        ensures outcomes { IfOk result (λ outcomes. outcomes ≡ outcomes_at self.now.signature.now self.now.rulebook.now height relation (tree_of self.now.bank.now id) inputs.now) }
        ensures table { AreTrueOf self.now.signature.now self.now.rulebook.now self.now.bank.now table.new }
        ensures kept { OnOk result (1 ≤ height → IsKept table.new relation id inputs.now height) }
    {
        if height == 0 {
            return Ok(Outcomes::new(self.alloc));
        }
        let key = Key::new(self.alloc, relation, id, inputs)?;
        if let Some(kept) = table.find(&key, height) {
            return kept.cut(self.alloc, height);
        }
        let outcomes = self.find(table, relation, id, inputs, height)?;
        let kept = Kept {
            height,
            outcomes: copy_of(self.alloc, outcomes.as_slice())?,
        };
        table.put(key, kept)?;
        Ok(outcomes)
    }

    /// The same outcomes, found by running the rules.
    #[cycle(outcomes)]
    pub fn find(
        &self,
        table: &mut Table,
        relation: RelId,
        id: TermId,
        inputs: &[Value],
        height: u32,
    ) -> Result<Outcomes, AllocError>
        requires accepted { All (IsAccepted self.now.signature.now) self.now.rulebook.now }
        requires live { IsLive self.now.bank.now id }
        requires table { AreTrueOf self.now.signature.now self.now.rulebook.now self.now.bank.now table.old }
        requires inputs { AreInputs self.now.signature.now relation inputs.now }
        requires positive { 1 ≤ height }
        ensures outcomes { IfOk result (λ outcomes. outcomes ≡ outcomes_at self.now.signature.now self.now.rulebook.now height relation (tree_of self.now.bank.now id) inputs.now) }
        ensures table { AreTrueOf self.now.signature.now self.now.rulebook.now self.now.bank.now table.new }
    {
        let mut found = Outcomes::new(self.alloc);
        let con = self.bank.con(id);
        for k in 0..self.rulebook.count(relation, con) {
            let Some(rule) = self.rulebook.rule(relation, con, k) else {
                unreachable!();
            };
            self.put_rule(table, rule, id, inputs, height - 1, &mut found)?;
        }
        merge(self.alloc, found)
    }

    /// Puts the outcomes of a rule last, from calls with derivations within the height `below`.
    #[cycle(outcomes)]
    fn put_rule(
        &self,
        table: &mut Table,
        rule: &Rule,
        id: TermId,
        inputs: &[Value],
        below: u32,
        found: &mut Outcomes,
    ) -> Result<(), AllocError>
        requires accepted { All (IsAccepted self.now.signature.now) self.now.rulebook.now }
        requires live { IsLive self.now.bank.now id }
        requires table { AreTrueOf self.now.signature.now self.now.rulebook.now self.now.bank.now table.old }
        requires rule { IsAccepted self.now.signature.now rule.now }
        requires inputs { AreInputs self.now.signature.now rule.now.relation inputs.now }
        requires below { below < 2 ^ 32 - 1 }
        ensures outcomes { OnOk result (found.new ≡ found.old ++ outcomes_of_rule self.now.signature.now (outcomes_at self.now.signature.now self.now.rulebook.now below) (tree_of self.now.bank.now id) inputs.now rule.now) }
        ensures table { AreTrueOf self.now.signature.now self.now.rulebook.now self.now.bank.now table.new }
    {
        let runs = self.runs(table, rule, id, inputs, below)?;
        let params = self.signature.relation(rule.relation).params.as_slice();
        put_outcomes(self.alloc, params, runs.as_slice(), found)
    }

    /// The values of all slots in the instances of a rule, from calls with derivations within the height `below`.
    pub fn instances(
        &self,
        table: &mut Table,
        rule: &Rule,
        id: TermId,
        inputs: &[Value],
        below: u32,
    ) -> Result<RuleInstances, AllocError>
        requires accepted { All (IsAccepted self.now.signature.now) self.now.rulebook.now }
        requires live { IsLive self.now.bank.now id }
        requires table { AreTrueOf self.now.signature.now self.now.rulebook.now self.now.bank.now table.old }
        requires rule { IsAccepted self.now.signature.now rule.now }
        requires inputs { AreInputs self.now.signature.now rule.now.relation inputs.now }
        ensures instances { IfOk result (λ found. found ≡ instances_of self.now.signature.now (outcomes_at self.now.signature.now self.now.rulebook.now below) (tree_of self.now.bank.now id) inputs.now rule.now) }
        ensures table { AreTrueOf self.now.signature.now self.now.rulebook.now self.now.bank.now table.new }
    {
        let runs = self.runs(table, rule, id, inputs, below)?;
        let mut found = RuleInstances::new(self.alloc);
        put_instances(self.alloc, runs.as_slice(), &mut found)?;
        Ok(found)
    }

    /// The runs of all atoms of the rule.
    #[cycle(outcomes)]
    fn runs(
        &self,
        table: &mut Table,
        rule: &Rule,
        id: TermId,
        inputs: &[Value],
        below: u32,
    ) -> Result<Runs, AllocError>
        requires accepted { All (IsAccepted self.now.signature.now) self.now.rulebook.now }
        requires live { IsLive self.now.bank.now id }
        requires table { AreTrueOf self.now.signature.now self.now.rulebook.now self.now.bank.now table.old }
        requires rule { IsAccepted self.now.signature.now rule.now }
        requires inputs { AreInputs self.now.signature.now rule.now.relation inputs.now }
        ensures runs { IfOk result (λ runs. runs ≡ after_atoms (outcomes_at self.now.signature.now self.now.rulebook.now below) (tree_of self.now.bank.now id) rule.now.atoms (first_run self.now.signature.now rule.now inputs.now)) }
        ensures table { AreTrueOf self.now.signature.now self.now.rulebook.now self.now.bank.now table.new }
    {
        let mut runs = Runs::new(self.alloc);
        runs.push(Run::first(self.alloc, self.signature, rule, inputs)?)?;
        for atom in rule.atoms.as_slice() {
            runs = self.after_atom(table, atom, id, runs, below)?;
        }
        Ok(runs)
    }

    /// The runs after an atom.
    #[cycle(outcomes)]
    fn after_atom(
        &self,
        table: &mut Table,
        atom: &Atom,
        id: TermId,
        runs: Runs,
        below: u32,
    ) -> Result<Runs, AllocError>
        requires accepted { All (IsAccepted self.now.signature.now) self.now.rulebook.now }
        requires live { IsLive self.now.bank.now id }
        requires table { AreTrueOf self.now.signature.now self.now.rulebook.now self.now.bank.now table.old }
        requires ready { All (IsReady self.now.signature.now atom.now) runs }
        ensures runs { IfOk result (λ next. next ≡ flat_map (after_atom (outcomes_at self.now.signature.now self.now.rulebook.now below) (tree_of self.now.bank.now id) atom.now) runs) }
        ensures table { AreTrueOf self.now.signature.now self.now.rulebook.now self.now.bank.now table.new }
    {
        match atom {
            Atom::Call(call) => self.after_call(table, call, id, runs, below),
            Atom::Fill(slot, expr) => after_fills(self.alloc, runs, *slot, expr),
            Atom::Test(expr) => after_tests(self.alloc, runs, expr),
        }
    }

    /// The runs after a call.
    #[cycle(outcomes)]
    fn after_call(
        &self,
        table: &mut Table,
        call: &Call,
        id: TermId,
        runs: Runs,
        below: u32,
    ) -> Result<Runs, AllocError>
        requires accepted { All (IsAccepted self.now.signature.now) self.now.rulebook.now }
        requires live { IsLive self.now.bank.now id }
        requires table { AreTrueOf self.now.signature.now self.now.rulebook.now self.now.bank.now table.old }
        requires ready { All (IsReadyFor self.now.signature.now call.now) runs }
        ensures runs { IfOk result (λ next. next ≡ flat_map (after_call_on (outcomes_at self.now.signature.now self.now.rulebook.now below) (term_at (tree_of self.now.bank.now id) call.now.who) call.now) runs) }
        ensures table { AreTrueOf self.now.signature.now self.now.rulebook.now self.now.bank.now table.new }
    {
        let mut next = Runs::new(self.alloc);
        let Some(callee) = term_at(self.bank, id, call.who) else {
            return Ok(next);
        };
        for run in runs.as_slice() {
            self.put_call(table, call, callee, run, below, &mut next)?;
        }
        Ok(next)
    }

    /// Puts the runs after a call on the term `callee` last.
    #[cycle(outcomes)]
    fn put_call(
        &self,
        table: &mut Table,
        call: &Call,
        callee: TermId,
        run: &Run,
        below: u32,
        next: &mut Runs,
    ) -> Result<(), AllocError>
        requires accepted { All (IsAccepted self.now.signature.now) self.now.rulebook.now }
        requires live { IsLive self.now.bank.now callee }
        requires table { AreTrueOf self.now.signature.now self.now.rulebook.now self.now.bank.now table.old }
        requires ready { IsReadyFor self.now.signature.now call.now run.now }
        ensures runs { OnOk result (next.new ≡ next.old ++ after_call (outcomes_at self.now.signature.now self.now.rulebook.now below) (tree_of self.now.bank.now callee) call.now run.now) }
        ensures table { AreTrueOf self.now.signature.now self.now.rulebook.now self.now.bank.now table.new }
    {
        let Some(inputs) = run.slots.values(self.alloc, call.inputs.as_slice())? else {
            return Ok(());
        };
        let outcomes = self.outcomes(table, call.relation, callee, inputs.as_slice(), below)?;
        put_calls(
            self.alloc,
            run,
            call.outputs.as_slice(),
            outcomes.as_slice(),
            next,
        )
    }
}
