ghost use Rattle.std.specs.Prelude.{◌≡◌, ◌-◌, ◌<◌, false, length, slice_index_or, All, Contains, IfOk, OnOk, OnErr};
ghost use Rattle.grammar_core.specs.Grammars.{IsKnown, Leads};
ghost use Rattle.grammar_core.specs.Marks.{AreMarks, Grows, HasChild, IsClosed, IsClosedBefore, IsClosedBut, IsMarked, KeepsMarks, MarksReached, none, start_and, with_place};
ghost use Rattle.grammar_core.specs.WellFormed.{AllKnown};

use crate::ids::{NtId, NtIds};
use crate::production::{Nonterminal, Production};
use items::Items;
use std::alloc::{AllocError, Global};

const START: NtId = NtId(0);

/// Marks on the nonterminals that the start leads to.
#[derive(Debug, Drop)]
pub(crate) struct Marks {
    /// For each nonterminal, whether it is marked.
    flags: Items<bool>,
    /// The marked nonterminals in order of marking, and then a place for each of the others.
    queue: NtIds,
    /// How many are marked.
    count: usize,
}

impl Marks {
    /// The marks of no nonterminal.
    pub(crate) fn new(alloc: Global) -> Marks
        ensures { result ≡ none }
    {
        Marks {
            flags: Items::new(alloc),
            queue: NtIds::new(alloc),
            count: 0,
        }
    }

    /// Marks for this many nonterminals, of which the start alone is marked.
    pub(crate) fn of_start(alloc: Global, count: usize) -> Result<Marks, AllocError>
        requires { 0 < count }
        ensures { IfOk result (λ marks. marks ≡ start_and (count - 1)) }
    {
        let mut marks = Marks::new(alloc);
        marks.add(true)?;
        for _place in 1..count {
            marks.add(false)?;
        }
        Ok(marks)
    }

    /// Adds a place for a nonterminal, which is marked where it is the start: all of it or nothing.
    pub(crate) fn add(&mut self, is_start: bool) -> Result<(), AllocError>
        ensures ok { OnOk result (self.new ≡ with_place self.old is_start) }
        ensures err { OnErr result (self.new ≡ self.old) }
    {
        self.flags.push(is_start)?;
        if let Err(error) = self.queue.push(START) {
            self.flags.pop();
            return Err(error);
        }
        if is_start {
            self.count = 1;
        }
        Ok(())
    }

    /// Whether the nonterminal is marked.
    pub(crate) fn has(&self, n: NtId) -> bool
        requires { n.0 < length self.now.flags }
        ensures { result ≡ slice_index_or self.now.flags n.0 false }
    {
        self.flags.as_slice()[usize::from(n.0)]
    }

    /// Marks the nonterminal.
    fn mark(&mut self, n: NtId)
        requires fine { AreMarks self.old }
        requires known { n.0 < length self.old.flags }
        ensures fine { AreMarks self.new }
        ensures size { length self.new.flags ≡ length self.old.flags }
        ensures marked { IsMarked self.new.flags n }
        ensures grows { Grows (λ k. k ≡ n) self.old self.new }
    {
        let place = usize::from(n.0);
        if self.flags.as_slice()[place] {
            return;
        }
        self.flags.set(place, true);
        self.queue.set(self.count, n);
        self.count += 1;
    }

    /// Marks each of the nonterminals.
    fn mark_all(&mut self, args: &[NtId])
        requires fine { AreMarks self.old }
        requires known { All (λ n. n.0 < length self.old.flags) args.now }
        ensures fine { AreMarks self.new }
        ensures size { length self.new.flags ≡ length self.old.flags }
        ensures marked { All (IsMarked self.new.flags) args.now }
        ensures grows { Grows (Contains args.now) self.old self.new }
    {
        for arg in args {
            self.mark(*arg);
        }
    }

    /// Marks each child of the productions.
    fn mark_children(&mut self, productions: &[Production])
        requires fine { AreMarks self.old }
        requires known { All (λ p. All (λ n. n.0 < length self.old.flags) p.args) productions.now }
        ensures fine { AreMarks self.new }
        ensures size { length self.new.flags ≡ length self.old.flags }
        ensures marked { All (λ p. All (IsMarked self.new.flags) p.args) productions.now }
        ensures grows { Grows (HasChild productions.now) self.old self.new }
    {
        for production in productions {
            self.mark_all(production.args.as_slice());
        }
    }

    /// Marks whatever the nonterminals lead to that stand in the queue from this place on.
    pub(crate) fn spread(&mut self, grammar: &[Nonterminal], from: usize)
        requires fine { AreMarks self.old }
        requires known { AllKnown grammar.now grammar.now }
        requires size { length self.old.flags ≡ length grammar.now }
        requires closed { IsClosedBefore grammar.now self.old from }
        ensures fine { AreMarks self.new }
        ensures size { length self.new.flags ≡ length self.old.flags }
        ensures kept { KeepsMarks self.old.flags self.new.flags }
        ensures reached { MarksReached grammar.now self.old.flags → MarksReached grammar.now self.new.flags }
        ensures closed { IsClosed grammar.now self.new.flags }
    {
        let mut place = from;
        while place < self.count {
            let n = self.queue.as_slice()[place];
            self.mark_children(grammar[usize::from(n.0)].productions.as_slice());
            place += 1;
        }
    }

    /// Marks what a production of the nonterminal newly leads to, whose children are these.
    pub(crate) fn follow(&mut self, grammar: &[Nonterminal], n: NtId, args: &[NtId])
        requires fine { AreMarks self.old }
        requires known { AllKnown grammar.now grammar.now }
        requires size { length self.old.flags ≡ length grammar.now }
        requires nonterminal { IsKnown grammar.now n }
        requires args { All (IsKnown grammar.now) args.now }
        requires leads { All (Leads grammar.now n) args.now }
        requires closed { IsClosedBut grammar.now self.old.flags n args.now }
        ensures fine { AreMarks self.new }
        ensures size { length self.new.flags ≡ length self.old.flags }
        ensures kept { KeepsMarks self.old.flags self.new.flags }
        ensures reached { MarksReached grammar.now self.old.flags → MarksReached grammar.now self.new.flags }
        ensures closed { IsClosed grammar.now self.new.flags }
    {
        if !self.has(n) {
            return;
        }
        let from = self.count;
        self.mark_all(args);
        self.spread(grammar, from);
    }
}
