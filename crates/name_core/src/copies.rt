//! Copies of pairs and of names.
ghost use Rattle.std.specs.Prelude.{◌≡◌, ◌+◌, ◌++◌, IfOk, OnOk};
ghost use Rattle.name_core.specs.Names.{names_in};

use rule_core::Names;
use sexpr_core::Atom;
use sig_core::Bytes;
use std::alloc::{AllocError, Global};
use syntax_core::{Pair, Pairs};

fn copy_atom(alloc: Global, atom: &Atom) -> Result<Atom, AllocError>
    ensures { IfOk result (λ copy. copy ≡ atom.now) }
{
    Ok(Atom {
        place: atom.place,
        bytes: atom.bytes.copy(alloc)?,
    })
}

pub(crate) fn copy_pair(alloc: Global, pair: &Pair) -> Result<Pair, AllocError>
    ensures { IfOk result (λ copy. copy ≡ pair.now) }
{
    Ok(Pair {
        place: pair.place,
        name: copy_atom(alloc, &pair.name)?,
        sort: copy_atom(alloc, &pair.sort)?,
    })
}

/// Copies of the pairs, the second after the first.
pub fn joined(alloc: Global, first: &[Pair], second: &[Pair]) -> Result<Pairs, AllocError>
    ensures { IfOk result (λ pairs. pairs ≡ first.now ++ second.now) }
{
    let mut pairs = Pairs::new(alloc);
    put_pairs(alloc, first, &mut pairs)?;
    put_pairs(alloc, second, &mut pairs)?;
    Ok(pairs)
}

fn put_pairs(alloc: Global, pairs: &[Pair], into: &mut Pairs) -> Result<(), AllocError>
    ensures { OnOk result (into.new ≡ into.old ++ pairs.now) }
{
    for pair in pairs {
        into.push(copy_pair(alloc, pair)?)?;
    }
    Ok(())
}

pub fn put_names(alloc: Global, pairs: &[Pair], into: &mut Names) -> Result<(), AllocError>
    ensures { OnOk result (into.new ≡ into.old ++ names_in pairs.now) }
{
    for pair in pairs {
        into.push(pair.name.bytes.copy(alloc)?)?;
    }
    Ok(())
}

pub fn copy_names(alloc: Global, names: &[Bytes]) -> Result<Names, AllocError>
    ensures { IfOk result (λ copy. copy ≡ names.now) }
{
    let mut copy = Names::new(alloc);
    for name in names {
        copy.push(name.copy(alloc)?)?;
    }
    Ok(copy)
}
