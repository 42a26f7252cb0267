ghost use Rattle.std.specs.Prelude.{◌≡◌, [], ◌∷◌, codes, IfOk};
ghost use Rattle.sig_core.specs.declared.signature.Kind.TheVariants.{Term};

use crate::text::bytes_of;
use crate::{
    Bytes, ConId, Kind, Param, Params, RelId, Relation, SigError, Signature, TypeId, Value,
    is_reserved, is_simple_symbol, is_symbol_byte, order, put_symbol, put_value,
};
use std::alloc::{AllocError, Global};
use std::cmp::Ordering;
use std::test::Fail;

fn literal(alloc: Global, value: Value) -> Result<Bytes, AllocError> {
    let mut out = Bytes::new(alloc);
    put_value(&value, &mut out)?;
    Ok(out)
}

#[test]
fn spells_literals(rt: HostRuntime) -> Result<(), Fail> {
    let least = literal(rt.alloc(), Value::Int(i128::MIN))?;
    assert_eq!(rt;
        least.as_slice(),
        b"(- 170141183460469231731687303715884105728)".as_slice()
    );
    let truth = literal(rt.alloc(), Value::Bool(true))?;
    assert_eq!(rt; truth.as_slice(), b"true".as_slice());
    Ok(())
}

fn symbol(alloc: Global, name: &[u8]) -> Result<Bytes, AllocError> {
    let mut out = Bytes::new(alloc);
    put_symbol(name, &mut out)?;
    Ok(out)
}

#[test]
fn spells_symbols(rt: HostRuntime) -> Result<(), Fail> {
    assert_eq!(rt; symbol(rt.alloc(), b"$x")?.as_slice(), b"$x".as_slice());
    assert_eq!(rt; symbol(rt.alloc(), b"2x")?.as_slice(), b"|2x|".as_slice());
    Ok(())
}

#[test]
fn tells_words(rt: HostRuntime) {
    assert_eq!(rt; order(Value::Int(9), Value::Bool(false)), Ordering::Less);
    assert!(rt; is_reserved(b"distinct"));
    assert!(rt; is_simple_symbol(b"-4"));
    assert!(rt; !is_symbol_byte(b'|'));
}

fn second_type(alloc: Global) -> Result<Option<TypeId>, SigError> {
    let mut signature = Signature::new(alloc);
    signature.add_type(b"E")?;
    let added = signature.add_type(b"F")?;
    let _name = signature.type_name(added);
    Ok(signature.type_named(b"F"))
}

fn type_again(alloc: Global, name: &[u8]) -> Result<TypeId, SigError> {
    let mut signature = Signature::new(alloc);
    signature.add_type(b"E")?;
    signature.add_type(name)
}

#[test]
fn numbers_types(rt: HostRuntime) {
    assert_eq!(rt; second_type(rt.alloc()), Ok(Some(TypeId(1))));
    assert_eq!(rt; type_again(rt.alloc(), b"E"), Err(SigError::Twice));
    assert_eq!(rt; type_again(rt.alloc(), b"Int"), Err(SigError::Twice));
}

fn many_types(alloc: Global, last: &[u8]) -> Result<TypeId, SigError> {
    let mut signature = Signature::new(alloc);
    for k in 0..=255u8 {
        signature.add_type(&[b'T', k])?;
    }
    signature.add_type(last)
}

#[test]
fn numbers_at_most_256_types(rt: HostRuntime) {
    assert_eq!(rt; many_types(rt.alloc(), b"E"), Err(SigError::Limit(5)));
    assert_eq!(rt;
        many_types(rt.alloc(), b"Bool"),
        Err(SigError::Twice),
        "before the limit"
    );
}

fn plus(alloc: Global) -> Result<(ConId, u16, usize), SigError> {
    let mut signature = Signature::new(alloc);
    let owner = signature.add_type(b"E")?;
    let added = signature.add_constructor(b"$+", owner, &[owner, owner])?;
    let args = signature.constructor(added).args.len();
    Ok((added, signature.constructors(), args))
}

#[test]
fn numbers_constructors(rt: HostRuntime) {
    assert_eq!(rt; plus(rt.alloc()), Ok((ConId(0), 1, 2)));
}

fn one_parameter(alloc: Global, owner: TypeId) -> Result<Relation, AllocError>
    ensures { IfOk result (λ relation. relation ≡ record { name = codes "S"; params = record { name = codes "t"; kind = Term owner } ∷ [] }) }
{
    let mut params = Params::new(alloc);
    params.push(Param {
        name: bytes_of(alloc, b"t")?,
        kind: Kind::Term(owner),
    })?;
    Ok(Relation {
        name: bytes_of(alloc, b"S")?,
        params,
    })
}

fn relation(alloc: Global) -> Result<(RelId, u16), SigError> {
    let mut signature = Signature::new(alloc);
    let owner = signature.add_type(b"E")?;
    let relation = one_parameter(alloc, owner)?;
    let added = signature.add_relation(relation)?;
    let _params = signature.relation(added);
    Ok((added, signature.relations()))
}

#[test]
fn numbers_relations(rt: HostRuntime) {
    assert_eq!(rt; relation(rt.alloc()), Ok((RelId(0), 1)));
}
