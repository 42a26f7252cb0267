ghost use Rattle.std.specs.Prelude.{◌≡◌, ◌<◌, ◌≤◌, ◌++◌, [], ◌∷◌, ◌↔◌, IsTrue, None, length, slice_get, IfErr, OnOk, OnErr};
ghost use Rattle.std.specs.Option.{option_copied, option_and_then};
ghost use Rattle.rule_core.specs.Flow.{flow_fault, IsDetermined, HandsOn, HandsOnAt};
ghost use Rattle.rule_core.specs.Rulebooks.{rules_for, rules_of, IsRuleOf, IsDue};

use crate::flow::{AddError, flow_fault};
use crate::handing::rule_hands_on;
use crate::numbers::Numbers;
use crate::rule::Rule;
use items::Items;
use sig_core::{ConId, RelId, Signature};
use std::alloc::Global;
use std::marker::Model;
use tables::list_at;

/// The rules of a file in order of adding. Each has passed data flow.
#[derive(Debug, Drop)]
pub struct Rulebook {
    alloc: Global,
    rules: Items<Rule>,
    numbers: Numbers,
}

impl Model for Rulebook {
    ghost use Rattle.std.specs.Prelude.{List, length, ◌≤◌};
    ghost use Rattle.rule_core.specs.declared.rule.Rule.{Rule};
    ghost use Rattle.std.specs.Coded.{codes};
    ghost use Rattle.expr_core.specs.contracts.expr.Expr as expr;
    ghost use Rattle.rule_core.specs.Numbers.{HaveNumbers};

    ghost Value = { List Rule };

    ghost coded = { Prim.hlevel (codes, expr.the_row.coded) };

    ghost view = { λ b. b.rules };

    ghost invariant = { λ b. (length b.rules ≤ 16384) × HaveNumbers b.numbers b.rules };
}

impl Rulebook {
    pub fn new(alloc: Global) -> Rulebook
        ensures { result ≡ [] }
    {
        Rulebook {
            alloc,
            rules: Items::new(alloc),
            numbers: Numbers::new(alloc),
        }
    }

    /// How many rules stand, at most 16,384.
    pub fn len(&self) -> u32
        ensures value { result ≡ length self.now }
        ensures few { length self.now ≤ 16384 }
    {
        self.rules.len() as u32
    }

    /// Puts a rule last. `Flow` exactly where data flow fails, with the first fault.
    pub fn add(&mut self, signature: &Signature, rule: Rule) -> Result<(), AddError>
        requires room { length self.old < 16384 }
        requires rule { IsRuleOf signature.now rule }
        ensures flows { OnOk result (flow_fault signature.now rule ≡ None) }
        ensures fault { IfErr result (IsDue (flow_fault signature.now rule)) }
        ensures added { OnOk result (self.new ≡ self.old ++ rule ∷ []) }
        ensures unchanged { OnErr result (self.new ≡ self.old) }
        ensures determined { OnOk result (IsDetermined signature.now rule) }
    {
        if let Some(fault) = flow_fault(self.alloc, signature, &rule)? {
            return Err(AddError::Flow(fault));
        }
        let (relation, con) = (rule.relation, rule.con);
        let number = self.rules.len();
        self.rules.push(rule)?;
        let added = self.numbers.add(self.alloc, relation, con, number);
        if added.is_err() {
            self.rules.pop();
            return Err(AddError::Memory);
        }
        Ok(())
    }

    /// How many rules the relation has for the constructor.
    pub fn count(&self, relation: RelId, con: ConId) -> u32
        ensures { result ≡ length (rules_for self.now relation con) }
    {
        list_at(&self.numbers.pairs, &(relation.0, con.0)).len() as u32
    }

    /// The rule with this number among those that the relation has for the constructor, from 0.
    pub fn rule(&self, relation: RelId, con: ConId, k: u32) -> Option<&Rule>
        ensures { option_copied result ≡ slice_get (rules_for self.now relation con) k }
    {
        self.numbered(list_at(&self.numbers.pairs, &(relation.0, con.0)), k)
    }

    /// The rule with this number among all rules of the relation, from 0.
    pub fn of_relation(&self, relation: RelId, k: u32) -> Option<&Rule>
        ensures { option_copied result ≡ slice_get (rules_of self.now relation) k }
    {
        self.numbered(list_at(&self.numbers.relations, &relation.0), k)
    }

    /// The rule whose number stands at this place of the list.
    fn numbered(&self, numbers: &[usize], at: u32) -> Option<&Rule>
        ensures { option_copied result ≡ option_and_then (slice_get self.now) (slice_get numbers.now at) }
    {
        let number = *items::at(numbers, at as usize)?;
        items::at(self.rules.as_slice(), number)
    }

    /// Whether the constructor hands on at the child: in each of its rules, each call on the child and each call on
    /// the term itself takes exactly the inputs of the rule's relation, in order. A constructor without rules does.
    pub fn hands_on(&self, signature: &Signature, con: ConId, i: usize) -> bool
        ensures { IsTrue result ↔ HandsOn signature.now self.now con i }
    {
        for number in list_at(&self.numbers.constructors, &con.0) {
            if !self.hands_on_by(signature, *number, i) {
                return false;
            }
        }
        true
    }

    /// Whether the rule with this number, if there is one, hands on at the child.
    fn hands_on_by(&self, signature: &Signature, number: usize, child: usize) -> bool
        ensures { IsTrue result ↔ HandsOnAt signature.now self.now child number }
    {
        match items::at(self.rules.as_slice(), number) {
            Some(rule) => rule_hands_on(signature, rule, child),
            None => true,
        }
    }
}
