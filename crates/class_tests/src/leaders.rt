ghost use Rattle.std.specs.Prelude.{◌≤◌, [], List};
ghost use Rattle.grammar_core.specs.Languages.{IsGrammarOf};
ghost use Rattle.sig_core.specs.Signatures.{Declarations};

use crate::growing::classes_to;
use crate::parity::Parity;
use crate::whole::whole;
use class_core::Classes;
use example_terms::{Language, SHIFT, SUMS, TINY, signature_of};
use grammar_core::{Grammar, NtId};
use lens_core::{Exact, Lens};
use sig_core::{ConId, SigError, Signature};
use std::alloc::{AllocError, Global};
use std::process::Abort;
use term_core::{Bank, Tree};

const ZERO: ConId = ConId(0);

const SHIFTED: ConId = ConId(2);

/// The constructors of a term and of its first child.
type Heads = (ConId, Option<ConId>);

/// What is seen of the leaders of numbers up to a size: the looks, how many there are of the sizes from 1 to 4, and the
/// first one of some size.
#[derive(Clone, Copy, Debug, PartialEq, Eq)]
struct Seen {
    looks: u64,
    counts: [usize; 4],
    leader: Heads,
}

fn heads(tree: &Tree) -> Heads {
    (tree.con, tree.kids.as_slice().first().map(|kid| kid.con))
}

fn counts<L: Lens>(classes: &Classes<L>) -> [usize; 4] {
    [
        classes.leaders(NtId(0), 1).len(),
        classes.leaders(NtId(0), 2).len(),
        classes.leaders(NtId(0), 3).len(),
        classes.leaders(NtId(0), 4).len(),
    ]
}

/// The first leader of numbers of this size, once it is seen to be there.
fn first_leader<L: Lens>(
    rt: &impl Abort,
    alloc: Global,
    classes: &Classes<L>,
    bank: &Bank,
    size: u32,
) -> Result<Heads, AllocError>
    requires { 1 ≤ size }
{
    let leaders = classes.leaders(NtId(0), size);
    assert!(rt; 0 < leaders.len());
    assert!(rt; leaders[0].0 < bank.len());
    let tree = bank.tree(alloc, leaders[0])?;
    Ok(heads(&tree))
}

fn seen_in<L: Lens>(
    rt: &impl Abort,
    alloc: Global,
    classes: &Classes<L>,
    bank: &Bank,
    size: u32,
) -> Result<Seen, AllocError>
    requires { 1 ≤ size }
{
    Ok(Seen {
        looks: classes.lens().looks(),
        counts: counts(classes),
        leader: first_leader(rt, alloc, classes, bank, size)?,
    })
}

fn seen_over<L: Lens + Drop>(
    rt: &impl Abort,
    alloc: Global,
    lens: L,
    signature: &Signature,
    grammar: &Grammar,
    last: u32,
    size: u32,
) -> Result<Seen, AllocError>
    requires last { last ≤ 40 }
    requires size { 1 ≤ size }
    requires signature { L.is_for lens signature.now }
    requires grammar { IsGrammarOf signature.now grammar.now }
    requires bank { L.fits lens [] }
{
    let mut bank = Bank::new(alloc);
    let classes = classes_to(alloc, lens, signature, grammar, &mut bank, last)?;
    seen_in(rt, alloc, &classes, &bank, size)
}

/// What is seen over the whole grammar of the language, grown to `last`, and the first leader of this size.
fn seen_through<L: Lens + Drop>(
    rt: &impl Abort,
    alloc: Global,
    lens: L,
    language: &Language,
    last: u32,
    size: u32,
) -> Result<Seen, SigError>
    requires last { last ≤ 40 }
    requires size { 1 ≤ size }
    requires signature { (sig : Declarations) → L.is_for lens sig }
    requires bank { L.fits lens [] }
{
    let signature = signature_of(alloc, language)?;
    let grammar = whole(rt, alloc, &signature)?;
    let seen = seen_over(rt, alloc, lens, &signature, &grammar, last, size)?;
    Ok(seen)
}

#[test]
fn a_constant_leads_its_class(rt: HostRuntime) {
    let exact = Exact::new(rt.alloc());
    let wanted = Seen {
        looks: 1,
        counts: [1, 0, 0, 0],
        leader: (ConId(0), None),
    };
    assert_eq!(rt;
        seen_through(&rt, rt.alloc(), exact, &TINY, 1, 1),
        Ok(wanted)
    );
}

#[test]
fn each_sum_leads_where_terms_are_told_apart(rt: HostRuntime) {
    let exact = Exact::new(rt.alloc());
    let wanted = Seen {
        looks: 50,
        counts: [4, 0, 16, 0],
        leader: (ConId(0), None),
    };
    assert_eq!(rt;
        seen_through(&rt, rt.alloc(), exact, &SUMS, 3, 1),
        Ok(wanted)
    );
}

#[test]
fn even_and_odd_sizes_have_a_leader_each(rt: HostRuntime) {
    for (size, leader) in [(1, (ZERO, None)), (2, (SHIFTED, Some(ZERO)))] {
        let wanted = Seen {
            looks: 4,
            counts: [1, 1, 0, 0],
            leader,
        };
        assert_eq!(rt;
            seen_through(&rt, rt.alloc(), Parity::new(), &SHIFT, 4, size),
            Ok(wanted)
        );
    }
}
