ghost use Rattle.std.specs.Prelude.{◌≡◌, ◌<◌, ◌↔◌, [], Err, length, IsTrue, All, IfSome, IfNone, IfOk, OnOk, OnErr, IsOkUnless};
ghost use Rattle.grammar_core.specs.Grammars.{IsKnown, Reaches, is_member, nonterminal_at, productions_of, start};
ghost use Rattle.grammar_core.specs.Languages.{IsGrammarOf};
ghost use Rattle.grammar_core.specs.Limits.{KeepsLimits};
ghost use Rattle.grammar_core.specs.Refusals.{nonterminal_refusal, production_refusal, with_nonterminal, with_production};
ghost use Rattle.grammar_core.specs.WellFormed.{IsGrammar};
ghost use Rattle.grammar_core.specs.Whole.{whole};
ghost use Rattle.grammar_core.specs.declared.grammar.GrammarError.TheVariants.{Memory};
ghost use Rattle.sig_core.specs.Signatures.{Declarations};
ghost use Rattle.term_core.specs.Banks.{IsLive, tree_of};

use crate::ids::NtId;
use crate::marks::Marks;
use crate::members;
use crate::parts::{has_name, makes, nonterminal_of, production_of, push_both};
use crate::production::{Nonterminal, Production};
use crate::whole::{bare, fill};
use sig_core::{Bytes, ConId, Signature, TypeId};
use std::alloc::{AllocError, Global};
use std::marker::Model;
use term_core::{Bank, TermId};
use thiserror::Error;

/// Why an item was not added to a grammar.
#[derive(Clone, Copy, Debug, PartialEq, Eq, Drop, Error)]
pub enum GrammarError {
    #[error("the name stands already")]
    Twice,
    #[error("the constructor or its children are not of the types wanted")]
    WrongType,
    /// The number of the limit that adding would pass: 12 is 256 nonterminals, 13 is 4,096 productions in all.
    #[error("a limit is passed")]
    Limit(u8),
    #[error("out of memory")]
    Memory,
}

impl From<AllocError> for GrammarError {
    ghost use Rattle.std.specs.Prelude.{◌≡◌};
    ghost use Rattle.grammar_core.specs.declared.grammar.GrammarError.TheVariants.{Memory};

    ghost from_gives = { λ _ e. e ≡ Memory };

    fn from(_error: AllocError) -> GrammarError {
        GrammarError::Memory
    }
}

/// Nonterminals and their productions, in order of adding. The first nonterminal is the start. The calls that add keep to
/// limits; a grammar as such has none.
#[derive(Debug, Drop)]
pub struct Grammar {
    alloc: Global,
    nonterminals: Vec<Nonterminal>,
    /// How many productions stand in all.
    count: usize,
    /// On each nonterminal that the start leads to.
    marks: Marks,
}

impl Model for Grammar {
    ghost use Rattle.std.specs.Prelude.{List};
    ghost use Rattle.grammar_core.specs.Grammars.{Nonterminal};

    ghost Value = { List Nonterminal };

    ghost use Rattle.grammar_core.specs.Kept.{IsKept};

    ghost view = { λ g. g.nonterminals.items };

    ghost invariant = { λ g. IsKept g.nonterminals.items g.count g.marks };
}

impl Grammar {
    pub fn new(alloc: Global) -> Grammar
        ensures empty { result ≡ [] }
        ensures limits { KeepsLimits result }
    {
        Grammar {
            alloc,
            nonterminals: Vec::new(alloc),
            count: 0,
            marks: Marks::new(alloc),
        }
    }

    /// The grammar of all terms: a nonterminal for each type, named as the type, that of `first` first and the others'
    /// in order of the types, each with a production for every constructor of its type, in order.
    pub fn all(alloc: Global, signature: &Signature, first: TypeId) -> Result<Grammar, AllocError>
        requires { first.0 < length signature.now.types }
        ensures whole { IfOk result (λ grammar. grammar ≡ whole signature.now first) }
        ensures of_signature { IfOk result (IsGrammarOf signature.now) }
        ensures limits { IfOk result KeepsLimits }
    {
        let count = usize::from(signature.constructors());
        let mut nonterminals = bare(alloc, signature, first)?;
        fill(alloc, signature, first, &mut nonterminals)?;
        let mut marks = Marks::of_start(alloc, nonterminals.len())?;
        marks.spread(nonterminals.as_slice(), 0);
        Ok(Grammar {
            alloc,
            nonterminals,
            count,
            marks,
        })
    }

    /// Adds a nonterminal without productions. `Twice` where one has that name, else `Limit(12)` where 256 or more stand.
    pub fn add_nonterminal(&mut self, name: &[u8], owner: TypeId) -> Result<NtId, GrammarError>
        ensures refused { IfSome (nonterminal_refusal self.old name.now) (λ refusal. result ≡ Err refusal) }
        ensures accepted { IfNone (nonterminal_refusal self.old name.now) (IsOkUnless result Memory) }
        ensures added { IfOk result
            (λ id. (id ≡ record { 0 = length self.old }) × (self.new ≡ with_nonterminal self.old name.now owner)) }
        ensures unchanged { OnErr result (self.new ≡ self.old) }
        ensures of_signature { (sig : Declarations) → IsGrammarOf sig self.old → IsGrammarOf sig self.new }
        ensures limits { KeepsLimits self.old → KeepsLimits self.new }
    {
        if has_name(self.nonterminals.as_slice(), name) {
            return Err(GrammarError::Twice);
        }
        if self.nonterminals.len() >= 256 {
            return Err(GrammarError::Limit(12));
        }
        let id = NtId(self.nonterminals.len() as u16);
        let made = nonterminal_of(self.alloc, name, owner)?;
        push_both(&mut self.nonterminals, &mut self.marks, made, id.0 == 0)?;
        Ok(id)
    }

    /// Adds a production. `WrongType` where the constructor's type is not the nonterminal's, or the number or the types
    /// of `args` are not the constructor's, else `Limit(13)` where 4,096 productions or more stand in all.
    pub fn add_production(
        &mut self,
        signature: &Signature,
        nt: NtId,
        con: ConId,
        args: &[NtId],
    ) -> Result<(), GrammarError>
        requires nonterminal { IsKnown self.old nt }
        requires constructor { con.0 < length signature.now.constructors }
        requires args { All (IsKnown self.old) args.now }
        ensures refused { IfSome (production_refusal self.old signature.now nt con args.now) (λ refusal. result ≡ Err refusal) }
        ensures accepted { IfNone (production_refusal self.old signature.now nt con args.now) (IsOkUnless result Memory) }
        ensures added { OnOk result (self.new ≡ with_production self.old nt (record { con = con; args = args.now })) }
        ensures unchanged { OnErr result (self.new ≡ self.old) }
        ensures of_signature { IsGrammarOf signature.now self.old → IsGrammarOf signature.now self.new }
        ensures limits { KeepsLimits self.old → KeepsLimits self.new }
    {
        if !makes(self.nonterminals.as_slice(), signature, nt, con, args) {
            return Err(GrammarError::WrongType);
        }
        if self.count >= 4096 {
            return Err(GrammarError::Limit(13));
        }
        let made = production_of(self.alloc, con, args)?;
        let place = usize::from(nt.0);
        let nonterminal = &mut self.nonterminals[place];
        nonterminal.productions.push(made)?;
        self.count += 1;
        self.marks.follow(self.nonterminals.as_slice(), nt, args);
        Ok(())
    }

    /// Whether the term is of the language of the nonterminal. It takes no memory.
    pub fn member(&self, nt: NtId, bank: &Bank, id: TermId) -> bool
        requires nonterminal { IsKnown self.now nt }
        requires live { IsLive bank.now id }
        ensures { result ≡ is_member self.now (tree_of bank.now id) nt }
    {
        members::is_member(self.nonterminals.as_slice(), nt, bank, id)
    }

    /// Whether the start leads to the nonterminal by productions, in any number of steps. It takes no memory.
    pub fn reachable(&self, nt: NtId) -> bool
        requires { IsKnown self.now nt }
        ensures { IsTrue result ↔ Reaches self.now start nt }
    {
        self.marks.has(nt)
    }

    /// How many nonterminals stand.
    pub fn len(&self) -> u16
        ensures value { result ≡ length self.now }
        ensures well_formed { IsGrammar self.now }
    {
        self.nonterminals.len() as u16
    }

    pub fn name(&self, nt: NtId) -> &Bytes
        requires { IsKnown self.now nt }
        ensures { result.now ≡ (nonterminal_at self.now nt).name }
    {
        &self.nonterminals[usize::from(nt.0)].name
    }

    pub fn owner(&self, nt: NtId) -> TypeId
        requires { IsKnown self.now nt }
        ensures { result ≡ (nonterminal_at self.now nt).owner }
    {
        self.nonterminals[usize::from(nt.0)].owner
    }

    pub fn productions(&self, nt: NtId) -> &[Production]
        requires { IsKnown self.now nt }
        ensures { result.now ≡ productions_of self.now nt }
    {
        self.nonterminals[usize::from(nt.0)].productions.as_slice()
    }
}
