use crate::language::expression;
use sort_core::{OpenExp, OpenNode};
use std::alloc::{AllocError, Global};
use std::test::Fail;
use syntax_core::Literal;

/// The number that an expression is read as; none where it is no literal, or out of range.
fn number_in(e: &OpenExp) -> Option<i128> {
    match &e.node {
        OpenNode::Literal(_, Literal::Number(number)) => *number,
        _ => None,
    }
}

fn number(alloc: Global, text: &[u8]) -> Result<Option<i128>, AllocError> {
    match expression(alloc, text)? {
        Some(e) => Ok(number_in(&e)),
        None => Ok(None),
    }
}

#[test]
fn a_minus_over_a_literal_is_a_literal_once(rt: HostRuntime) -> Result<(), Fail> {
    let cases: [(&[u8], Option<i128>); 10] = [
        (b"4", Some(4)),
        (b"-4", Some(-4)),
        (b"(- 4)", Some(-4)),
        (b"(- (- 4))", None),
        (b"(- -4)", None),
        (b"170141183460469231731687303715884105727", Some(i128::MAX)),
        (b"170141183460469231731687303715884105728", None),
        (
            b"(- 170141183460469231731687303715884105728)",
            Some(i128::MIN),
        ),
        (b"-170141183460469231731687303715884105728", Some(i128::MIN)),
        (b"-170141183460469231731687303715884105729", None),
    ];
    for (text, want) in cases {
        assert_eq!(rt; number(rt.alloc(), text)?, want);
    }
    Ok(())
}
