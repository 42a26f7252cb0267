ghost use Rattle.std.specs.Prelude.{◌≡◌, ◌+◌, ◌≤◌, List, [], length, take, IfOk, OnOk};
ghost use Rattle.size_core.specs.Lists.{IsLevel, IsListOfSize, StandFor, list_at};
ghost use Rattle.grammar_core.specs.Grammars.{Reaches, start};
ghost use Rattle.grammar_core.specs.declared.production.Nonterminal.{Nonterminal};
ghost use Rattle.term_core.specs.Banks.{Keeps};
ghost use Rattle.term_core.specs.declared.tree.Tree.{Tree};

use crate::producing::terms_of;
use crate::sources::{Level, ids_at};
use grammar_core::{Grammar, NtId};
use items::Items;
use sig_core::Signature;
use std::alloc::{AllocError, Global};
use std::marker::Model;
use term_core::{Bank, Ids, TermId};

/// All terms of each nonterminal that the start leads to, by size, as far as they were grown. They stand for the
/// grammar and the bank that they were grown with, and new ones for any.
#[derive(Debug, Drop)]
pub struct SizeLists {
    alloc: Global,
    levels: Items<Level>,
}

impl Model for SizeLists {
    ghost use Rattle.std.specs.Prelude.{List};
    ghost use Rattle.term_core.specs.declared.ids.TermId.{TermId};

    ghost Value = { List (List (List TermId)) };

    ghost use Rattle.std.specs.Prelude.{length, ◌≤◌};

    ghost view = { λ l. l.levels };

    ghost invariant = { λ l. length l.levels ≤ 40 };
}

impl SizeLists {
    pub fn new(alloc: Global) -> SizeLists
        ensures empty { result ≡ [] }
        ensures stands { (grammar : List Nonterminal) (bank : List Tree) → StandFor grammar bank result }
    {
        SizeLists {
            alloc,
            levels: Items::new(alloc),
        }
    }

    /// The greatest size whose terms are listed, 0 at first.
    pub fn grown(&self) -> u32
        ensures value { result ≡ length self.now }
        ensures small { result ≤ 40 }
    {
        self.levels.len() as u32
    }

    /// Lists the terms of the next size.
    pub fn grow(
        &mut self,
        signature: &Signature,
        grammar: &Grammar,
        bank: &mut Bank,
        size: u32,
    ) -> Result<(), AllocError>
        requires next { size ≡ length self.old + 1 }
        requires small { size ≤ 40 }
        requires stands { StandFor grammar.now bank.old self.old }
        ensures kept { Keeps bank.old bank.new }
        ensures grown { OnOk result (length self.new ≡ size) }
        ensures stands { OnOk result (StandFor grammar.now bank.new self.new) }
        ensures older { OnOk result (take (length self.old) self.new ≡ self.old) }
    {
        let level = level_of(
            self.alloc,
            signature,
            grammar,
            bank,
            self.levels.as_slice(),
            size,
        )?;
        self.levels.push(level)?;
        Ok(())
    }

    /// The lists by size, from 1, and nonterminal.
    pub fn levels(&self) -> &[Level]
        ensures { result.now ≡ self.now }
    {
        self.levels.as_slice()
    }

    /// The terms of the nonterminal of this size, in the order of terms. None stand where the size isn't listed yet.
    pub fn list(&self, nt: NtId, size: u32) -> &[TermId]
        requires { 1 ≤ size }
        ensures value { result.now ≡ list_at self.now nt size }
        ensures exact { (grammar : List Nonterminal) (bank : List Tree) → StandFor grammar bank self.now
            → Reaches grammar start nt → size ≤ length self.now → IsListOfSize grammar bank nt size result.now }
    {
        ids_at(self.levels.as_slice(), nt, size)
    }
}

/// The terms of this size, where the levels have all smaller ones.
fn level_of(
    alloc: Global,
    signature: &Signature,
    grammar: &Grammar,
    bank: &mut Bank,
    levels: &[Level],
    size: u32,
) -> Result<Level, AllocError>
    requires next { size ≡ length levels.now + 1 }
    requires small { size ≤ 40 }
    requires stands { StandFor grammar.now bank.old levels.now }
    ensures kept { Keeps bank.old bank.new }
    ensures level { IfOk result (IsLevel grammar.now bank.new size) }
{
    let mut level = Level::new(alloc);
    for n in 0..grammar.len() {
        let mut ids = Ids::new(alloc);
        if grammar.reachable(NtId(n)) {
            ids = terms_of(alloc, signature, grammar, bank, levels, NtId(n), size)?;
        }
        level.push(ids)?;
    }
    Ok(level)
}
