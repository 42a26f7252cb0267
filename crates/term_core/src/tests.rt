use crate::{Bank, Ids, TermId, list_laws, order_laws};
use sig_core::{ConId, Signature};
use std::alloc::Global;
use std::cmp::Ordering;
use std::process::Abort;
use std::test::Fail;

const X: ConId = ConId(0);

const Y: ConId = ConId(1);

const ONE: ConId = ConId(3);

const PLUS: ConId = ConId(4);

const ITE: ConId = ConId(5);

const TRUE: ConId = ConId(6);

/// Interns a term, once its children are seen to be live and small.
fn make(
    rt: &impl Abort,
    alloc: Global,
    bank: &mut Bank,
    con: ConId,
    kids: &[TermId],
) -> Result<TermId, Fail> {
    let mut size = 1u32;
    for kid in kids {
        assert!(rt; kid.0 < bank.len());
        let more = bank.size(*kid);
        assert!(rt; size < 1000);
        assert!(rt; more < 1000);
        size += more;
    }
    Ok(bank.intern(&Signature::new(alloc), con, kids)?)
}

#[test]
fn interns_a_term_once(rt: HostRuntime) -> Result<(), Fail> {
    let alloc = rt.alloc();
    let mut bank = Bank::new(alloc);
    let x = make(&rt, alloc, &mut bank, X, &[])?;
    let y = make(&rt, alloc, &mut bank, Y, &[])?;
    let sum = make(&rt, alloc, &mut bank, PLUS, &[x, y])?;
    let again = make(&rt, alloc, &mut bank, PLUS, &[x, y])?;
    assert_eq!(rt; sum, again);
    assert_eq!(rt; bank.len(), 3);
    assert!(rt; sum.0 < bank.len());
    assert_eq!(rt; bank.con(sum), PLUS);
    assert_eq!(rt; bank.kids(sum), [x, y].as_slice());
    assert_eq!(rt; bank.size(sum), 3);
    Ok(())
}

/// Compares, once the ids are seen to be live.
fn order(rt: &impl Abort, bank: &Bank, a: TermId, b: TermId) -> Ordering {
    assert!(rt; a.0 < bank.len());
    assert!(rt; b.0 < bank.len());
    bank.compare(a, b)
}

#[test]
fn orders_by_size_then_by_the_children(rt: HostRuntime) -> Result<(), Fail> {
    let alloc = rt.alloc();
    let mut bank = Bank::new(alloc);
    let x = make(&rt, alloc, &mut bank, X, &[])?;
    let y = make(&rt, alloc, &mut bank, Y, &[])?;
    let one = make(&rt, alloc, &mut bank, ONE, &[])?;
    let truth = make(&rt, alloc, &mut bank, TRUE, &[])?;
    let two = make(&rt, alloc, &mut bank, PLUS, &[one, one])?;
    let choice = make(&rt, alloc, &mut bank, ITE, &[truth, x, x])?;
    let forth = make(&rt, alloc, &mut bank, PLUS, &[x, y])?;
    let back = make(&rt, alloc, &mut bank, PLUS, &[y, x])?;
    assert_eq!(rt; order(&rt, &bank, two, choice), Ordering::Less);
    assert_eq!(rt; order(&rt, &bank, choice, two), Ordering::Greater);
    assert_eq!(rt; order(&rt, &bank, forth, back), Ordering::Less);
    assert_eq!(rt; order(&rt, &bank, back, back), Ordering::Equal);
    Ok(())
}

#[test]
fn lists_each_subterm_once(rt: HostRuntime) -> Result<(), Fail> {
    let alloc = rt.alloc();
    let mut bank = Bank::new(alloc);
    let y = make(&rt, alloc, &mut bank, Y, &[])?;
    let pair = make(&rt, alloc, &mut bank, PLUS, &[y, y])?;
    let x = make(&rt, alloc, &mut bank, X, &[])?;
    let other = make(&rt, alloc, &mut bank, PLUS, &[x, y])?;
    let whole = make(&rt, alloc, &mut bank, PLUS, &[pair, other])?;
    assert!(rt; whole.0 < bank.len());
    let nodes = bank.nodes_of(alloc, whole)?;
    assert_eq!(rt; nodes.as_slice(), [x, y, other, pair, whole].as_slice());
    Ok(())
}

#[test]
fn copies_a_term(rt: HostRuntime) -> Result<(), Fail> {
    let alloc = rt.alloc();
    let mut bank = Bank::new(alloc);
    let x = make(&rt, alloc, &mut bank, X, &[])?;
    let sum = make(&rt, alloc, &mut bank, PLUS, &[x, x])?;
    assert!(rt; sum.0 < bank.len());
    let tree = bank.tree(alloc, sum)?;
    assert_eq!(rt; tree.con, PLUS);
    assert_eq!(rt; tree.kids.len(), 2);
    for kid in tree.kids.as_slice() {
        assert_eq!(rt; kid.con, X);
        assert!(rt; kid.kids.is_empty());
    }
    Ok(())
}

#[test]
fn keeps_ids_in_a_list(rt: HostRuntime) -> Result<(), Fail> {
    let mut ids = Ids::new(rt.alloc());
    ids.push(TermId(7))?;
    assert_eq!(rt; ids.as_slice(), [TermId(7)].as_slice());
    order_laws();
    list_laws();
    Ok(())
}
