ghost use Rattle.std.specs.Prelude.{◌≡◌, ◌+◌, ◌<◌, ◌≤◌, length, IfOk, if◌then◌else◌};
ghost use Rattle.class_core.specs.Sources.{AreCandidateIds, AreSourcesAt, HasPlaces, IsSourceAt, ListsServe};
ghost use Rattle.class_core.specs.Standing.{LeadersStand};
ghost use Rattle.grammar_core.specs.Grammars.{IsKnown, Reaches, start};
ghost use Rattle.grammar_core.specs.Languages.{IsGrammarOf};
ghost use Rattle.lens_core.specs.Lenses.{HasPlace};
ghost use Rattle.sig_core.specs.Signatures.{Declarations};
ghost use Rattle.term_core.specs.Banks.{Keeps};

use grammar_core::{Grammar, NtId, Production};
use lens_core::Lens;
use sig_core::{ConId, Signature};
use size_core::{Level, Source, add_all, sorted};
use std::alloc::{AllocError, Global};
use term_core::{Bank, Ids};

/// Where the child at a place comes from: the leaders of the nonterminal at a plain place, all its terms elsewhere.
fn source_at<'a, L: Lens>(
    lens: &L,
    leaders: &'a [Level],
    lists: &'a [Level],
    con: ConId,
    i: usize,
    nt: NtId,
) -> Source<'a>
    requires { (sig : Declarations) × L.is_for lens.now sig × HasPlace sig con i }
    ensures { IsSourceAt leaders.now lists.now (L.is_plain lens.now con i) nt result }
{
    if lens.plain(con, i) {
        Source {
            levels: leaders,
            nt,
        }
    } else {
        Source { levels: lists, nt }
    }
}

/// A source for each child of the production.
fn sources_of<'a, L: Lens>(
    alloc: Global,
    lens: &L,
    leaders: &'a [Level],
    lists: &'a [Level],
    production: &Production,
) -> Result<Vec<Source<'a>>, AllocError>
    requires { (sig : Declarations) × L.is_for lens.now sig × HasPlaces sig production.now }
    ensures { IfOk result (λ sources.
        AreSourcesAt leaders.now lists.now (L.is_plain lens.now production.now.con) 0 production.now.args sources.items) }
{
    let mut sources = Vec::new(alloc);
    let args = production.args.as_slice();
    for i in 0..args.len() {
        sources.push(source_at(lens, leaders, lists, production.con, i, args[i]))?;
    }
    Ok(sources)
}

/// The candidates of the nonterminal of this size: the terms that its productions make of leaders at the plain places,
/// and of any terms at the others.
pub(crate) fn candidates_of<L: Lens>(
    alloc: Global,
    signature: &Signature,
    grammar: &Grammar,
    bank: &mut Bank,
    lens: &L,
    leaders: &[Level],
    lists: &[Level],
    nt: NtId,
    size: u32,
) -> Result<Ids, AllocError>
    requires next { size ≡ length leaders.now + 1 }
    requires small { size ≤ 40 }
    requires signature { L.is_for lens.now signature.now }
    requires fits { IsGrammarOf signature.now grammar.now }
    requires leaders { LeadersStand grammar.now bank.old (L.same_mark lens.now) leaders.now }
    requires lists { ListsServe grammar.now bank.old (L.is_plain lens.now) lists.now (length leaders.now) }
    requires known { IsKnown grammar.now nt }
    requires reachable { Reaches grammar.now start nt }
    ensures kept { Keeps bank.old bank.new }
    ensures candidates { IfOk result (AreCandidateIds grammar.now bank.new (L.same_mark lens.now) (L.is_plain lens.now) nt size) }
{
    let mut ids = Ids::new(alloc);
    for production in grammar.productions(nt) {
        let sources = sources_of(alloc, lens, leaders, lists, production)?;
        let mut kids = Ids::new(alloc);
        add_all(
            signature,
            bank,
            production.con,
            sources.as_slice(),
            size - 1,
            &mut kids,
            &mut ids,
        )?;
    }
    let kept = sorted(alloc, bank, ids)?;
    Ok(kept)
}
