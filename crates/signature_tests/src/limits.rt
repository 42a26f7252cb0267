ghost use Rattle.std.specs.Prelude.{◌≡◌, ◌≤◌, length, All, IfOk};

use sig_core::{Bytes, ConId, SigError, Signature, TypeId};
use std::alloc::Global;
use std::test::Fail;

const E: TypeId = TypeId(0);

fn one_type(alloc: Global) -> Result<Signature, SigError>
    ensures one_type { IfOk result (λ signature. length signature.types ≡ 1) }
    ensures owners { IfOk result (λ signature. All (λ c. c.owner.0 ≤ 0) signature.constructors) }
{
    let mut signature = Signature::new(alloc);
    signature.add_type(b"E")?;
    Ok(signature)
}

fn add_numbered(signature: &mut Signature, number: u16) -> Result<ConId, SigError>
    requires one_type { length signature.old.types ≡ 1 }
    requires owners { All (λ c. c.owner.0 ≤ 0) signature.old.constructors }
    ensures one_type { length signature.new.types ≡ 1 }
    ensures owners { All (λ c. c.owner.0 ≤ 0) signature.new.constructors }
{
    let name = [b'c', (number / 256) as u8, (number % 256) as u8];
    signature.add_constructor(&name, E, &[])
}

/// Adds constructors up to the limit.
fn fill(signature: &mut Signature) -> Result<(), SigError>
    requires one_type { length signature.old.types ≡ 1 }
    requires owners { All (λ c. c.owner.0 ≤ 0) signature.old.constructors }
    ensures one_type { length signature.new.types ≡ 1 }
    ensures owners { All (λ c. c.owner.0 ≤ 0) signature.new.constructors }
{
    for number in 0..4096u16 {
        add_numbered(signature, number)?;
    }
    Ok(())
}

fn past_the_last(alloc: Global, name: &[u8]) -> Result<ConId, SigError> {
    let mut signature = one_type(alloc)?;
    fill(&mut signature)?;
    signature.add_constructor(name, E, &[])
}

#[test]
fn the_constructor_past_4096_is_refused(rt: HostRuntime) {
    assert_eq!(rt; past_the_last(rt.alloc(), b"d"), Err(SigError::Limit(6)));
    assert_eq!(rt;
        past_the_last(rt.alloc(), &[b'c', 15, 255]),
        Err(SigError::Twice)
    );
}

#[test]
fn a_name_may_have_each_byte_above_127(rt: HostRuntime) -> Result<(), Fail> {
    let mut name = Bytes::new(rt.alloc());
    for byte in 128..=255u8 {
        name.push(byte)?;
    }
    let mut signature = Signature::new(rt.alloc());
    signature.add_type(name.as_slice())?;
    assert_eq!(rt; signature.type_named(name.as_slice()), Some(E));
    Ok(())
}
