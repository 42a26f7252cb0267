ghost use Rattle.std.specs.Prelude.{◌≡◌, ◌+◌, ◌<◌, ◌^◌, [], ◌∷◌, ◌++◌, ◌↔◌, map, length, All, Contains, IfOk, OnOk, OnErr};
ghost use Rattle.term_core.specs.Banks.{EachOnce, IsLive, Keeps, Lists, tree_of};
ghost use Rattle.term_core.specs.Terms.{con_of, node, size, term_cmp};
ghost use Rattle.term_core.specs.Typings.{IsBankOf, IsTermOf};
ghost use Rattle.sig_core.specs.Signatures.{Declarations};

use crate::ids::{Ids, TermId};
use crate::node::{self, Node};
use crate::tree::Tree;
use indexmap::IndexMap;
use items::Items;
use sig_core::{ConId, Signature};
use std::alloc::{AllocError, Global};
use std::cmp::Ordering;
use std::marker::Model;
use tables::{Table, list_at, push};

/// Terms over shared nodes: equal terms have one id. A bank only grows, and an id stands for its term for good.
#[derive(Debug, Drop)]
pub struct Bank {
    nodes: Items<Node>,
    /// the numbers of the nodes of each key
    places: Table<u64>,
    alloc: Global,
}

impl Model for Bank {
    ghost use Rattle.std.specs.Prelude.{List};
    ghost use Rattle.term_core.specs.declared.tree.Tree.{Tree};
    ghost use Rattle.std.specs.Coded.{codes};
    ghost use Rattle.term_core.specs.contracts.tree.Tree as term;

    ghost Value = { List Tree };

    ghost coded = { Prim.hlevel (codes, term.the_row.coded) };

    ghost use Rattle.term_core.specs.Nodes.{trees_of};
    ghost use Rattle.term_core.specs.Keys.{IsTabled};

    ghost view = { λ b. trees_of b.nodes };

    ghost invariant = { λ b. IsTabled b.places b.nodes };
}

impl Bank {
    pub fn new(alloc: Global) -> Bank
        ensures { result ≡ [] }
    {
        Bank {
            nodes: Items::new(alloc),
            places: IndexMap::new(alloc),
            alloc,
        }
    }

    /// The number of terms. The ids below it are live.
    pub fn len(&self) -> usize
        ensures count { result ≡ length self.now }
        ensures each_once { EachOnce self.now }
    {
        self.nodes.len()
    }

    /// The id of the term of this constructor and these children. Where the bank has the term already, it stays as it
    /// was. The signature is that of the terms; a term's size is kept as a `u32`.
    pub fn intern(
        &mut self,
        _signature: &Signature,
        con: ConId,
        kids: &[TermId],
    ) -> Result<TermId, AllocError>
        requires live { All (IsLive self.old) kids.now }
        requires small { size (node con (map (tree_of self.old) kids.now)) < 2 ^ 32 }
        ensures kept { Keeps self.old self.new }
        ensures live { IfOk result (IsLive self.new) }
        ensures tree { IfOk result
            (λ id. tree_of self.new id ≡ node con (map (tree_of self.old) kids.now)) }
        ensures known { Contains self.old (node con (map (tree_of self.old) kids.now))
            → self.new ≡ self.old }
        ensures fresh { OnOk result ((Contains self.old (node con (map (tree_of self.old) kids.now)) → ⊥)
            → self.new ≡ self.old ++ node con (map (tree_of self.old) kids.now) ∷ []) }
        ensures err { OnErr result (self.new ≡ self.old) }
        ensures each_once { EachOnce self.new }
        ensures of_signature { (sig : Declarations) → IsTermOf sig (node con (map (tree_of self.old) kids.now)) → IsBankOf sig self.old
            → IsBankOf sig self.new }
    {
        let key = node::key_of(con, kids);
        let numbers = list_at(&self.places, &key);
        if let Some(place) = node::find(self.nodes.as_slice(), numbers, con, kids) {
            return Ok(TermId(place));
        }
        let id = TermId(self.nodes.len());
        let size = node::size_over(self.nodes.as_slice(), kids);
        let mut own = Ids::new(self.alloc);
        own.append(kids)?;
        self.nodes.push(Node {
            con,
            kids: own,
            size,
        })?;
        if push(self.alloc, &mut self.places, key, id.0).is_err() {
            self.nodes.pop();
            return Err(AllocError);
        }
        Ok(id)
    }

    /// A copy of the term.
    pub fn tree(&self, alloc: Global, id: TermId) -> Result<Tree, AllocError>
        requires { IsLive self.now id }
        ensures { IfOk result (λ tree. tree ≡ tree_of self.now id) }
    {
        node::tree(alloc, self.nodes.as_slice(), id)
    }

    /// The head constructor.
    pub fn con(&self, id: TermId) -> ConId
        requires { IsLive self.now id }
        ensures { result ≡ con_of (tree_of self.now id) }
    {
        self.nodes.as_slice()[id.0].con
    }

    /// The children, in order. Each has a lower number than the term.
    pub fn kids(&self, id: TermId) -> &[TermId]
        requires { IsLive self.now id }
        ensures lower { All (λ kid. kid.0 < id.0) result.now }
        ensures node { tree_of self.now id
            ≡ node (con_of (tree_of self.now id)) (map (tree_of self.now) result.now) }
    {
        self.nodes.as_slice()[id.0].kids.as_slice()
    }

    /// How many constructors stand in the term.
    pub fn size(&self, id: TermId) -> u32
        requires { IsLive self.now id }
        ensures { result ≡ size (tree_of self.now id) }
    {
        self.nodes.as_slice()[id.0].size
    }

    /// The order of terms: by size, then by the head constructors' places in the file, then by the first child that
    /// differs. It takes no memory.
    pub fn compare(&self, a: TermId, b: TermId) -> Ordering
        requires left { IsLive self.now a }
        requires right { IsLive self.now b }
        ensures order { result ≡ term_cmp (tree_of self.now a) (tree_of self.now b) }
        ensures equal { (result ≡ Ordering.Equal) ↔ (a ≡ b) }
    {
        node::compare(self.nodes.as_slice(), a, b)
    }

    /// The distinct subterms, the term itself last, in the order of terms.
    pub fn nodes_of(&self, alloc: Global, id: TermId) -> Result<Ids, AllocError>
        requires { IsLive self.now id }
        ensures { IfOk result (Lists self.now (tree_of self.now id)) }
    {
        node::subterms(alloc, self.nodes.as_slice(), id)
    }
}
