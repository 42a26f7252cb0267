//! Expressions over the slots x, r and b, the term t and its one child c.
ghost use Rattle.std.specs.Prelude.{◌≤◌, length, IfOk};

use rule_core::Names;
use sig_core::{Bytes, Signature};
use sort_core::{OpenExp, Variables, opened};
use spelling_tests::forms_of;
use std::alloc::{AllocError, Global};
use syntax_core::expression_of;

fn word(alloc: Global, text: &[u8]) -> Result<Bytes, AllocError> {
    let mut bytes = Bytes::new(alloc);
    bytes.append(text)?;
    Ok(bytes)
}

fn one(alloc: Global, name: &[u8]) -> Result<Names, AllocError>
    ensures { IfOk result (λ names. length names ≤ 1) }
{
    let mut names = Names::new(alloc);
    names.push(word(alloc, name)?)?;
    Ok(names)
}

fn three(alloc: Global, first: &[u8], second: &[u8], third: &[u8]) -> Result<Names, AllocError>
    ensures { IfOk result (λ names. length names ≤ 3) }
{
    let mut names = one(alloc, first)?;
    names.push(word(alloc, second)?)?;
    names.push(word(alloc, third)?)?;
    Ok(names)
}

fn variables(alloc: Global) -> Result<Variables, AllocError>
    ensures slots { IfOk result (λ variables. length variables.slots ≤ 3) }
    ensures children { IfOk result (λ variables. length variables.children ≤ 1) }
{
    Ok(Variables {
        slots: three(alloc, b"x", b"r", b"b")?,
        own: one(alloc, b"t")?,
        children: one(alloc, b"c")?,
    })
}

/// The expression that a text spells; none where it spells none.
pub(crate) fn expression(alloc: Global, text: &[u8]) -> Result<Option<OpenExp>, AllocError> {
    if text.len() > 1000 {
        return Ok(None);
    }
    let Some(forest) = forms_of(alloc, text)? else {
        return Ok(None);
    };
    let Some(form) = forest.get(0) else {
        return Ok(None);
    };
    let e = expression_of(alloc, form)?;
    let variables = variables(alloc)?;
    let signature = Signature::new(alloc);
    Ok(Some(opened(alloc, &signature, &variables, &e)?))
}
