//! The text of `declare-term-types`.
ghost use Rattle.std.specs.Prelude.{◌≡◌, ◌∷◌, ◌++◌, map, filter, nat_eq, OnOk};
ghost use Rattle.std.specs.List.{flat_map};
ghost use Rattle.sig_core.specs.Lists.{numbers_from};
ghost use Rattle.sexpr_core.specs.Texts.{form_text, joined};
ghost use Rattle.problem_core.specs.Texts.{constructor_form, group_form, next_text, symbol_form, type_form, type_name, types_form};

use crate::expr_texts::{put_gap, put_next};
use crate::names::type_name;
use sig_core::{Bytes, ConId, Constructor, Signature, TypeId, put_symbol};
use std::alloc::AllocError;

/// All types, and the constructors of each.
#[tactic(auto, using(crate::proofs::Forms::types_text))]
pub(crate) fn put_types(signature: &Signature, out: &mut Bytes) -> Result<(), AllocError>
    ensures { OnOk result (out.new ≡ out.old ++ form_text (types_form signature.now)) }
{
    out.push(b'(')?;
    put_symbol(b"declare-term-types", out)?;
    out.append(b" (")?;
    put_type_names(signature, out)?;
    out.append(b") (")?;
    put_groups(signature, out)?;
    out.append(b"))")?;
    Ok(())
}

/// The names of the types, each with a 0.
fn put_type_names(signature: &Signature, out: &mut Bytes) -> Result<(), AllocError>
    ensures { OnOk result (out.new ≡ out.old ++ joined (map form_text (map type_form signature.now.types))) }
{
    for t in 0..signature.types() {
        put_gap(usize::from(t), out)?;
        put_type_name(signature.type_name(TypeId(t)).as_slice(), out)?;
    }
    Ok(())
}

#[tactic(auto, using(crate::proofs::Forms::type_text))]
fn put_type_name(name: &[u8], out: &mut Bytes) -> Result<(), AllocError>
    ensures { OnOk result (out.new ≡ out.old ++ form_text (type_form name.now)) }
{
    out.push(b'(')?;
    put_symbol(name, out)?;
    out.append(b" 0)")?;
    Ok(())
}

/// The groups of constructors, type by type.
fn put_groups(signature: &Signature, out: &mut Bytes) -> Result<(), AllocError>
    ensures { OnOk result (out.new ≡ out.old ++ joined (map form_text (map (group_form signature.now) (numbers_from 0 signature.now.types)))) }
{
    for t in 0..signature.types() {
        put_gap(usize::from(t), out)?;
        put_group(signature, t, out)?;
    }
    Ok(())
}

#[tactic(auto, using(crate::proofs::Forms::group_text))]
fn put_group(signature: &Signature, t: u16, out: &mut Bytes) -> Result<(), AllocError>
    ensures { OnOk result (out.new ≡ out.old ++ form_text (group_form signature.now t)) }
{
    out.push(b'(')?;
    put_constructors(signature, t, out)?;
    out.push(b')')?;
    Ok(())
}

/// The constructors of the type with this number.
fn put_constructors(signature: &Signature, t: u16, out: &mut Bytes) -> Result<(), AllocError>
    ensures { OnOk result (out.new ≡ out.old ++ joined (map form_text (map (constructor_form signature.now) (filter (λ c. nat_eq c.owner.0 t) signature.now.constructors)))) }
{
    let mut place = 0;
    for k in 0..signature.constructors() {
        let constructor = signature.constructor(ConId(k));
        if constructor.owner.0 == t {
            put_gap(place, out)?;
            put_constructor(signature, constructor, out)?;
            place += 1;
        }
    }
    Ok(())
}

/// A constructor's name alone, or in a list with the types of its children.
#[tactic(auto, using(crate::proofs::Forms::constructor_alone, crate::proofs::Forms::constructor_applied))]
fn put_constructor(
    signature: &Signature,
    constructor: &Constructor,
    out: &mut Bytes,
) -> Result<(), AllocError>
    ensures { OnOk result (out.new ≡ out.old ++ form_text (constructor_form signature.now constructor.now)) }
{
    let types = constructor.args.as_slice();
    if types.is_empty() {
        return put_symbol(constructor.name.as_slice(), out);
    }
    out.push(b'(')?;
    put_symbol(constructor.name.as_slice(), out)?;
    put_child_types(signature, types, out)?;
    out.push(b')')?;
    Ok(())
}

/// A space and the name, for each type.
#[tactic(auto, using(crate::proofs::Forms::symbol))]
fn put_child_types(
    signature: &Signature,
    types: &[TypeId],
    out: &mut Bytes,
) -> Result<(), AllocError>
    ensures { OnOk result (out.new ≡ out.old ++ flat_map (λ t. next_text (symbol_form (type_name signature.now t))) types.now) }
{
    for id in types {
        put_next(type_name(signature, *id), out)?;
    }
    Ok(())
}
