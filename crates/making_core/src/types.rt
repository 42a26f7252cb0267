//! The types and constructors of a `declare-term-types`.
ghost use Rattle.std.specs.Prelude.{◌≡◌, ◌≤◌, ◌+◌, ◌++◌, None, map, length, IfOk, OnOk};
ghost use Rattle.std.specs.List.{flat_map, enumerate_from};
ghost use Rattle.sig_core.specs.declared.signature.SigError.TheVariants.{Memory};
ghost use Rattle.sig_core.specs.Refusals.{type_refusal, with_constructor, with_type};
ghost use Rattle.making_core.specs.Fitting.{ConstructorFits, ConstructorsFit, TermsFit, TypesFit};
ghost use Rattle.making_core.specs.Making.{constructor_of, constructors_of, with_terms};
ghost use Rattle.name_core.specs.Names.{texts};
ghost use Rattle.sig_core.specs.WellFormed.{IsWellFormed};
ghost use Rattle.sort_core.specs.Relations.{type_named};
ghost use Rattle.syntax_core.specs.Syntax.{atom_of, items_at, pair_of, pattern_of};

use items::Items;
use sexpr_core::{Sexpr, others_of, parts_of};
use sig_core::{Constructor, SigError, Signature, TypeId, TypeIds};
use sort_core::type_named;
use std::alloc::{AllocError, Global};
use syntax_core::{atom_of, items_at, name_of, pair_of};

type Constructors = Items<Constructor>;

/// Want of memory, which is the only error left where nothing is refused.
pub(crate) fn want_of_memory(_error: SigError) -> AllocError
    requires { _error ≡ Memory }
{
    AllocError
}

/// Adds the type of a `(s 0)`.
fn add_type(alloc: Global, signature: &mut Signature, form: &Sexpr) -> Result<(), AllocError>
    requires { type_refusal signature.old (pair_of form.now).name.bytes ≡ None }
    ensures { OnOk result (signature.new ≡ with_type signature.old (pair_of form.now).name.bytes) }
{
    let pair = pair_of(alloc, form)?;
    match signature.add_type(pair.name.bytes.as_slice()) {
        Ok(_) => Ok(()),
        Err(error) => Err(want_of_memory(error)),
    }
}

/// Adds types.
fn add_types(alloc: Global, signature: &mut Signature, forms: &[Sexpr]) -> Result<(), AllocError>
    requires { TypesFit signature.old (texts (map (λ form. (pair_of form).name) forms.now)) }
    ensures { OnOk result (signature.new ≡ record signature.old { types = signature.old.types ++ texts (map (λ form. (pair_of form).name) forms.now) }) }
{
    for form in forms {
        add_type(alloc, signature, form)?;
    }
    Ok(())
}

/// The types of these names.
fn types_of(alloc: Global, signature: &Signature, forms: &[Sexpr]) -> Result<TypeIds, AllocError>
    ensures { IfOk result (λ types. types ≡ map (λ form. type_named signature.now (atom_of form).bytes) forms.now) }
{
    let mut types = TypeIds::new(alloc);
    for form in forms {
        let name = atom_of(alloc, form)?;
        types.push(type_named(signature, name.bytes.as_slice()))?;
    }
    Ok(types)
}

/// The constructor of a form, which makes terms of this type.
fn constructor_of(
    alloc: Global,
    signature: &Signature,
    owner: TypeId,
    form: &Sexpr,
) -> Result<Constructor, AllocError>
    ensures { IfOk result (λ con. con ≡ constructor_of signature.now owner.0 (pattern_of form.now)) }
{
    let name = name_of(alloc, form)?;
    Ok(Constructor {
        name: name.bytes.copy(alloc)?,
        owner,
        args: types_of(alloc, signature, others_of(form))?,
    })
}

/// Puts the constructors of a group last, whose type this is.
fn put_group(
    alloc: Global,
    signature: &Signature,
    owner: TypeId,
    forms: &[Sexpr],
    out: &mut Constructors,
) -> Result<(), AllocError>
    ensures { OnOk result (out.new ≡ out.old ++ map (λ form. constructor_of signature.now owner.0 (pattern_of form)) forms.now) }
{
    for form in forms {
        out.push(constructor_of(alloc, signature, owner, form)?)?;
    }
    Ok(())
}

/// The constructors of groups, of which the first has the type with this number.
fn constructors_of(
    alloc: Global,
    signature: &Signature,
    first: u16,
    groups: &[Sexpr],
) -> Result<Constructors, AllocError>
    requires { first + length groups.now ≤ 256 }
    ensures { IfOk result (λ cons. cons ≡ flat_map (constructors_of signature.now) (enumerate_from first groups.now)) }
{
    let mut cons = Constructors::new(alloc);
    let mut owner = first;
    for group in groups {
        put_group(alloc, signature, TypeId(owner), parts_of(group), &mut cons)?;
        owner += 1;
    }
    Ok(cons)
}

fn add_constructor(signature: &mut Signature, con: &Constructor) -> Result<(), AllocError>
    requires { ConstructorFits signature.old con.now }
    ensures { OnOk result (signature.new ≡ with_constructor signature.old con.now) }
{
    match signature.add_constructor(con.name.as_slice(), con.owner, con.args.as_slice()) {
        Ok(_) => Ok(()),
        Err(error) => Err(want_of_memory(error)),
    }
}

fn add_constructors(signature: &mut Signature, cons: &[Constructor]) -> Result<(), AllocError>
    requires { ConstructorsFit signature.old cons.now }
    ensures { OnOk result (signature.new ≡ record signature.old { constructors = signature.old.constructors ++ cons.now }) }
{
    for con in cons {
        add_constructor(signature, con)?;
    }
    Ok(())
}

/// Adds the types of a `declare-term-types`, and then their constructors.
pub fn add_terms(alloc: Global, signature: &mut Signature, form: &Sexpr) -> Result<(), AllocError>
    requires { TermsFit signature.old form.now }
    ensures added { OnOk result (signature.new ≡ with_terms signature.old form.now) }
    ensures well_formed { OnOk result (IsWellFormed signature.new) }
{
    let first = signature.types();
    add_types(alloc, signature, items_at(1, form))?;
    let cons = constructors_of(alloc, signature, first, items_at(2, form))?;
    add_constructors(signature, cons.as_slice())?;
    let _types = signature.types();
    Ok(())
}
