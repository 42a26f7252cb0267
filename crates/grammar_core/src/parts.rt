ghost use Rattle.std.specs.Prelude.{◌≡◌, ◌<◌, [], ◌∷◌, ◌++◌, length, is_some, slice_get, All, IfOk, OnOk, OnErr};
ghost use lib.Pointwise.{pointwise};
ghost use Rattle.grammar_core.specs.Grammars.{IsKnown, names_of, nonterminal_at};
ghost use Rattle.grammar_core.specs.Marks.{with_place};
ghost use Rattle.grammar_core.specs.Refusals.{makes, same_type};
ghost use Rattle.sig_core.specs.Names.{place_of};

use crate::ids::{NtId, NtIds};
use crate::marks::Marks;
use crate::production::{Nonterminal, Production};
use items::Items;
use sig_core::{ConId, Signature, TypeId, bytes_of};
use std::alloc::{AllocError, Global};

/// Whether a nonterminal has this name.
pub(crate) fn has_name(grammar: &[Nonterminal], name: &[u8]) -> bool
    ensures { result ≡ is_some (place_of (names_of grammar.now) name.now) }
{
    for nonterminal in grammar {
        if nonterminal.name.as_slice() == name {
            return true;
        }
    }
    false
}

/// A nonterminal without productions.
pub(crate) fn nonterminal_of(
    alloc: Global,
    name: &[u8],
    owner: TypeId,
) -> Result<Nonterminal, AllocError>
    ensures { IfOk result (λ made. made ≡ record { name = name.now; owner = owner; productions = [] }) }
{
    Ok(Nonterminal {
        name: bytes_of(alloc, name)?,
        owner,
        productions: Items::new(alloc),
    })
}

pub(crate) fn production_of(
    alloc: Global,
    con: ConId,
    args: &[NtId],
) -> Result<Production, AllocError>
    ensures { IfOk result (λ made. made ≡ record { con = con; args = args.now }) }
{
    let mut kept = NtIds::new(alloc);
    kept.append(args)?;
    Ok(Production { con, args: kept })
}

/// Puts a nonterminal and its place for a mark last: both or neither.
pub(crate) fn push_both(
    nonterminals: &mut Vec<Nonterminal>,
    marks: &mut Marks,
    nonterminal: Nonterminal,
    is_start: bool,
) -> Result<(), AllocError>
    ensures nonterminals { OnOk result (nonterminals.new.items ≡ nonterminals.old.items ++ nonterminal ∷ []) }
    ensures marks { OnOk result (marks.new ≡ with_place marks.old is_start) }
    ensures err { OnErr result ((nonterminals.new.items ≡ nonterminals.old.items) × (marks.new ≡ marks.old)) }
{
    nonterminals.push(nonterminal)?;
    if let Err(error) = marks.add(is_start) {
        nonterminals.pop();
        return Err(error);
    }
    Ok(())
}

/// Whether the constructor makes terms of the nonterminal's type from children of the types of `args`.
pub(crate) fn makes(
    grammar: &[Nonterminal],
    signature: &Signature,
    nt: NtId,
    con: ConId,
    args: &[NtId],
) -> bool
    requires nonterminal { IsKnown grammar.now nt }
    requires constructor { con.0 < length signature.now.constructors }
    requires args { All (IsKnown grammar.now) args.now }
    ensures { result ≡ makes grammar.now (nonterminal_at grammar.now nt).owner args.now (slice_get signature.now.constructors con.0) }
{
    let constructor = signature.constructor(con);
    constructor.owner == grammar[usize::from(nt.0)].owner
        && have_types(grammar, constructor.args.as_slice(), args)
}

/// Whether the nonterminals are, in order, of these types.
fn have_types(grammar: &[Nonterminal], types: &[TypeId], args: &[NtId]) -> bool
    requires { All (IsKnown grammar.now) args.now }
    ensures { result ≡ pointwise (λ t n. same_type t (nonterminal_at grammar.now n).owner) types.now args.now }
{
    if types.len() != args.len() {
        return false;
    }
    for i in 0..types.len() {
        if types[i] != grammar[usize::from(args[i].0)].owner {
            return false;
        }
    }
    true
}
