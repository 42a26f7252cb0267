use crate::language::expression;
use items::Items;
use sig_core::{Bytes, Constructor, Signature, Sort, TypeId};
use sort_core::atom_fault;
use std::alloc::{AllocError, Global};
use std::test::Fail;

/// The constructor c of terms of type 0, with one child of that type.
fn constructor(alloc: Global) -> Result<Constructor, AllocError> {
    let mut args = Items::new(alloc);
    args.push(TypeId(0))?;
    Ok(Constructor {
        name: Bytes::new(alloc),
        owner: TypeId(0),
        args,
    })
}

/// The place and the reason of the leftmost fault of an atom; zeros where there is none.
fn fault(alloc: Global, text: &[u8]) -> Result<(u32, u8), AllocError> {
    let Some(e) = expression(alloc, text)? else {
        return Ok((0, 255));
    };
    let con = constructor(alloc)?;
    let sorts = [Sort::Int, Sort::Int, Sort::Bool];
    match atom_fault(&Signature::new(alloc), &con, &sorts, &e) {
        Some(fault) => Ok((fault.place, fault.reason)),
        None => Ok((0, 0)),
    }
}

#[test]
fn the_leftmost_wrong_sort_is_found(rt: HostRuntime) -> Result<(), Fail> {
    let cases: [(&[u8], u32, u8); 15] = [
        (b"(= r (ite b 1 x))", 0, 0),
        (b"x", 0, 30),
        (b"t", 0, 30),
        (b"(not x)", 5, 30),
        (b"(and b 1)", 7, 30),
        (b"(= r true)", 5, 30),
        (b"(< x b)", 5, 30),
        (b"(ite x true true)", 5, 30),
        (b"(= r (ite b 1 true))", 14, 30),
        (b"(= r (+ x c))", 10, 30),
        (b"(= b (= t x))", 8, 30),
        (b"(= (ite true t 1) r)", 13, 30),
        (b"(= r 170141183460469231731687303715884105728)", 5, 31),
        (b"(= r -170141183460469231731687303715884105729)", 5, 31),
        (b"(= r (- 170141183460469231731687303715884105729))", 8, 31),
    ];
    for (text, place, reason) in cases {
        assert_eq!(rt; fault(rt.alloc(), text)?, (place, reason));
    }
    Ok(())
}
