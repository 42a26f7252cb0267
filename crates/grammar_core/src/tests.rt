use crate::{Grammar, GrammarError, NtId, NtIds};
use sig_core::TypeId;
use std::test::Fail;

const E: TypeId = TypeId(0);

#[test]
fn refuses_the_nonterminal_past_256(rt: HostRuntime) -> Result<(), Fail> {
    let mut grammar = Grammar::new(rt.alloc());
    for k in 0..=255u8 {
        grammar.add_nonterminal(&[k], E)?;
    }
    assert_eq!(rt; grammar.len(), 256);
    assert_eq!(rt;
        grammar.add_nonterminal(b"new", E),
        Err(GrammarError::Limit(12))
    );
    assert_eq!(rt; grammar.add_nonterminal(b"a", E), Err(GrammarError::Twice));
    Ok(())
}

#[test]
fn keeps_numbers_in_a_list(rt: HostRuntime) -> Result<(), Fail> {
    let mut ids = NtIds::new(rt.alloc());
    ids.push(NtId(1))?;
    assert_eq!(rt; ids.as_slice(), [NtId(1)].as_slice());
    Ok(())
}
