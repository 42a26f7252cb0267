ghost use Rattle.std.specs.Prelude.{◌≡◌, ◌<◌, ◌+◌, map, sum, All, IfSome};
ghost use Rattle.term_core.specs.Banks.{IsLive, tree_of};
ghost use Rattle.term_core.specs.Terms.{size};

use sig_core::{ConId, Signature};
use std::alloc::{AllocError, Global};
use term_core::{Bank, Ids, TermId};

/// A constructor, and the numbers of its children.
pub type Node = (u16, &'static [usize]);

/// A constructor without children.
pub const LEAF: [Node; 1] = [(0, &[])];

/// The size of a term of these children, where they are live and it is less than 2,000.
fn size_over(bank: &Bank, kids: &[TermId]) -> Option<u32>
    ensures live { IfSome result (λ _. All (IsLive bank.now) kids.now) }
    ensures size { IfSome result (λ found. found ≡ 1 + sum (map size (map (tree_of bank.now) kids.now))) }
    ensures small { IfSome result (λ found. found < 2000) }
{
    let mut size = 1u32;
    for kid in kids {
        if kid.0 >= bank.len() {
            return None;
        }
        let more = bank.size(*kid);
        if size >= 1000 || more >= 1000 {
            return None;
        }
        size += more;
    }
    Some(size)
}

/// Interns a term where its children stand in the bank and it is small.
fn intern(
    signature: &Signature,
    bank: &mut Bank,
    con: u16,
    kids: &[TermId],
) -> Result<(), AllocError> {
    let Some(_) = size_over(bank, kids) else {
        return Ok(());
    };
    bank.intern(signature, ConId(con), kids)?;
    Ok(())
}

/// The same, of the children with these numbers.
fn intern_node(
    alloc: Global,
    signature: &Signature,
    bank: &mut Bank,
    con: u16,
    numbers: &[usize],
) -> Result<(), AllocError> {
    let mut kids = Ids::new(alloc);
    for number in numbers {
        kids.push(TermId(*number))?;
    }
    intern(signature, bank, con, kids.as_slice())
}

/// A bank of these nodes. One whose children don't stand before it is left out. Where they are distinct, their numbers are
/// their ids.
pub fn interned(alloc: Global, signature: &Signature, nodes: &[Node]) -> Result<Bank, AllocError> {
    let mut bank = Bank::new(alloc);
    for (con, numbers) in nodes {
        intern_node(alloc, signature, &mut bank, *con, *numbers)?;
    }
    Ok(bank)
}

/// A bank of a leaf and of so many terms, each made by the constructor of the one before, so that the last has the greatest
/// id.
pub fn chain(
    alloc: Global,
    signature: &Signature,
    leaf: u16,
    con: u16,
    count: usize,
) -> Result<Bank, AllocError> {
    let mut bank = Bank::new(alloc);
    intern(signature, &mut bank, leaf, &[])?;
    for last in 0..count {
        intern(signature, &mut bank, con, &[TermId(last)])?;
    }
    Ok(bank)
}
