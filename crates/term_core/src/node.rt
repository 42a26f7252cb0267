ghost use Rattle.std.specs.Prelude.{◌≡◌, ◌+◌, ◌<◌, ◌^◌, [], ◌∷◌, map, sum, length, slice_index_or, All, IsTrue, ◌↔◌, IfOk, MatchOption};
ghost use Rattle.term_core.specs.Banks.{Lists, tree_of};
ghost use Rattle.term_core.specs.Marks.{MarkSubterms, marked_from, marked_with};
ghost use Rattle.term_core.specs.Nodes.{HasNode, IsBank, trees_of};
ghost use Rattle.term_core.specs.Keys.{HasNodeAt, has_key, key_of};
ghost use Rattle.tables.specs.Tables.{places};
ghost use Rattle.term_core.specs.Terms.{node, size, term_cmp};

use crate::ids::{Ids, TermId};
use crate::tree::{Tree, Trees};
use sig_core::ConId;
use std::alloc::{AllocError, Global};
use std::cmp::Ordering;

/// A constructor over terms that a bank has already, and the size of the whole.
#[derive(Debug, Drop)]
pub(crate) struct Node {
    pub con: ConId,
    pub kids: Ids,
    pub size: u32,
}

fn same_ids(left: &[TermId], right: &[TermId]) -> bool
    ensures { IsTrue result ↔ (left.now ≡ right.now) }
{
    left == right
}

/// The key of a constructor and children in the table of a bank.
pub(crate) fn key_of(con: ConId, kids: &[TermId]) -> u64
    ensures { result ≡ key_of con kids.now }
{
    let mut key = u64::from(con.0);
    for kid in kids {
        key = key
            .wrapping_mul(0x9E37_79B9_7F4A_7C15)
            .wrapping_add(kid.0 as u64);
    }
    key
}

fn has_node_at(nodes: &[Node], number: usize, con: ConId, kids: &[TermId]) -> bool
    ensures { IsTrue result ↔ HasNodeAt con kids.now nodes.now number }
{
    if number >= nodes.len() {
        return false;
    }
    let node = &nodes[number];
    node.con == con && same_ids(node.kids.as_slice(), kids)
}

/// The place of the node with this constructor and these children, among the nodes of their key.
pub(crate) fn find(nodes: &[Node], numbers: &[usize], con: ConId, kids: &[TermId]) -> Option<usize>
    requires { numbers.now ≡ places (has_key (key_of con kids.now)) 0 nodes.now }
    ensures { MatchOption result
        (All (λ n. HasNode con kids.now n → ⊥) nodes.now)
        (λ place. (place < length nodes.now) × ((d : _) → HasNode con kids.now (slice_index_or nodes.now place d))) }
{
    for number in numbers {
        if has_node_at(nodes, *number, con, kids) {
            return Some(*number);
        }
    }
    None
}

/// The size of a term with these children.
pub(crate) fn size_over(nodes: &[Node], kids: &[TermId]) -> u32
    requires bank { IsBank nodes.now }
    requires live { All (λ kid. kid.0 < length nodes.now) kids.now }
    requires small { 1 + sum (map size (map (tree_of (trees_of nodes.now)) kids.now)) < 2 ^ 32 }
    ensures { result ≡ 1 + sum (map size (map (tree_of (trees_of nodes.now)) kids.now)) }
{
    let mut total = 1;
    for kid in kids {
        total += nodes[kid.0].size;
    }
    total
}

pub(crate) fn tree(alloc: Global, nodes: &[Node], id: TermId) -> Result<Tree, AllocError>
    requires bank { IsBank nodes.now }
    requires live { id.0 < length nodes.now }
    ensures { IfOk result (λ tree. tree ≡ tree_of (trees_of nodes.now) id) }
{
    let node = &nodes[id.0];
    let mut kids = Trees::new(alloc);
    for kid in node.kids.as_slice() {
        kids.push(tree(alloc, nodes, *kid)?)?;
    }
    Ok(Tree {
        con: node.con,
        kids,
    })
}

/// The order of terms. Equal ids are not looked into.
pub(crate) fn compare(nodes: &[Node], a: TermId, b: TermId) -> Ordering
    requires bank { IsBank nodes.now }
    requires left { a.0 < length nodes.now }
    requires right { b.0 < length nodes.now }
    ensures { result ≡ term_cmp (tree_of (trees_of nodes.now) a) (tree_of (trees_of nodes.now) b) }
{
    if a == b {
        return Ordering::Equal;
    }
    let left = &nodes[a.0];
    let right = &nodes[b.0];
    if left.size != right.size {
        return left.size.cmp(&right.size);
    }
    if left.con != right.con {
        return left.con.cmp(&right.con);
    }
    let (lefts, rights) = (left.kids.as_slice(), right.kids.as_slice());
    for i in 0..lefts.len().min(rights.len()) {
        let order = compare(nodes, lefts[i], rights[i]);
        if order != Ordering::Equal {
            return order;
        }
    }
    lefts.len().cmp(&rights.len())
}

/// Marks the numbers of these ids.
fn mark_all(ids: &[TermId], marks: &mut [bool])
    requires { All (λ id. id.0 < length marks.old) ids.now }
    ensures { marks.new ≡ marked_with ids.now marks.old }
{
    for id in ids {
        marks[id.0] = true;
    }
}

/// For each number up to `id`, whether its term is a subterm of that of `id`.
fn subterm_marks(alloc: Global, nodes: &[Node], id: TermId) -> Result<Vec<bool>, AllocError>
    requires bank { IsBank nodes.now }
    requires live { id.0 < length nodes.now }
    ensures { IfOk result (λ marks. MarkSubterms (trees_of nodes.now) id marks.items) }
{
    let mut marks = vec![in alloc; false; id.0 + 1]?;
    marks[id.0] = true;
    for k in (0..id.0 + 1).rev() {
        if marks[k] {
            mark_all(nodes[k].kids.as_slice(), marks.as_mut_slice());
        }
    }
    Ok(marks)
}

/// The places of the marks that are set, in order.
fn marked(alloc: Global, marks: &[bool]) -> Result<Vec<TermId>, AllocError>
    ensures { IfOk result (λ ids. ids.items ≡ marked_from 0 marks.now) }
{
    let mut ids = Vec::new(alloc);
    for (place, is_set) in marks.iter().enumerate() {
        if *is_set {
            ids.push(TermId(place))?;
        }
    }
    Ok(ids)
}

/// The distinct subterms, in the order of terms. Their numbers are at most `id`, and a sort that calls its test with
/// other numbers reads `id` there.
pub(crate) fn subterms(alloc: Global, nodes: &[Node], id: TermId) -> Result<Ids, AllocError>
    requires bank { IsBank nodes.now }
    requires live { id.0 < length nodes.now }
    ensures { IfOk result (Lists (trees_of nodes.now) (tree_of (trees_of nodes.now) id)) }
{
    let marks = subterm_marks(alloc, nodes, id)?;
    let mut ids = marked(alloc, marks.as_slice())?;
    ids.sort_by(|a, b| compare(nodes, TermId(a.0.min(id.0)), TermId(b.0.min(id.0))))?;
    let mut sorted = Ids::new(alloc);
    sorted.append(ids.as_slice())?;
    Ok(sorted)
}
