ghost use Rattle.std.specs.Prelude.{◌≡◌, ◌+◌, ◌<◌, ◌^◌, [], length, map, All, IfOk, OnOk};
ghost use Rattle.grammar_core.specs.Whole.{nonterminal_for, whole, whole_over};

use crate::ids::{NtId, NtIds};
use crate::parts::nonterminal_of;
use crate::production::{Nonterminal, Production};
use sig_core::{ConId, Signature, TypeId};
use std::alloc::{AllocError, Global};

/// The number of a type's nonterminal, where that of `first` stands first and the others' in order of the types.
fn nonterminal_for(first: TypeId, of: TypeId) -> NtId
    requires { of.0 + 1 < 2 ^ 16 }
    ensures { result ≡ nonterminal_for first of }
{
    if of.0 == first.0 {
        return NtId(0);
    }
    if of.0 < first.0 {
        NtId(of.0 + 1)
    } else {
        NtId(of.0)
    }
}

/// A nonterminal without productions for each type.
pub(crate) fn bare(
    alloc: Global,
    signature: &Signature,
    first: TypeId,
) -> Result<Vec<Nonterminal>, AllocError>
    requires { first.0 < length signature.now.types }
    ensures { IfOk result (λ made. made.items ≡ whole_over signature.now first []) }
{
    let mut made = Vec::new(alloc);
    let name = signature.type_name(first);
    made.push(nonterminal_of(alloc, name.as_slice(), first)?)?;
    for t in 0..signature.types() {
        if t != first.0 {
            let name = signature.type_name(TypeId(t));
            made.push(nonterminal_of(alloc, name.as_slice(), TypeId(t))?)?;
        }
    }
    Ok(made)
}

/// The production of a constructor with children of these types.
fn production_for(
    alloc: Global,
    con: ConId,
    first: TypeId,
    types: &[TypeId],
) -> Result<Production, AllocError>
    requires { All (λ t. t.0 + 1 < 2 ^ 16) types.now }
    ensures { IfOk result (λ made. made ≡ record { con = con; args = map (nonterminal_for first) types.now }) }
{
    let mut args = NtIds::new(alloc);
    for t in types {
        args.push(nonterminal_for(first, *t))?;
    }
    Ok(Production { con, args })
}

/// Gives each type's nonterminal a production for every constructor of the type, in order.
pub(crate) fn fill(
    alloc: Global,
    signature: &Signature,
    first: TypeId,
    nonterminals: &mut Vec<Nonterminal>,
) -> Result<(), AllocError>
    requires declared { first.0 < length signature.now.types }
    requires bare { nonterminals.old.items ≡ whole_over signature.now first [] }
    ensures { OnOk result (nonterminals.new.items ≡ whole signature.now first) }
{
    for k in 0..signature.constructors() {
        let constructor = signature.constructor(ConId(k));
        let made = production_for(alloc, ConId(k), first, constructor.args.as_slice())?;
        let place = usize::from(nonterminal_for(first, constructor.owner).0);
        let nonterminal = &mut nonterminals[place];
        nonterminal.productions.push(made)?;
    }
    Ok(())
}
