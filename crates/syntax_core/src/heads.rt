//! The words that lists of a command begin with.
ghost use Rattle.std.specs.Prelude.{◌≡◌};
ghost use Rattle.sig_core.specs.Names.{same_name};
ghost use Rattle.syntax_core.specs.Roles.{is_application, is_body, is_conjunct, is_example, may_head};

use crate::roles::Role;
use expr_core::{operator_named, takes};
use sig_core::{is_reserved, is_word};

/// Whether a name and so many operands make an expression: an operator that takes them, or a word that isn't reserved.
fn is_application(name: &[u8], operands: usize) -> bool
    ensures { result ≡ is_application name.now operands }
{
    match operator_named(name) {
        Some(operator) => takes(operator, operands),
        None => !is_reserved(name),
    }
}

fn is_conjunct(name: &[u8], operands: usize) -> bool
    ensures { result ≡ is_conjunct name.now operands }
{
    is_word(name, b"and") || is_application(name, operands)
}

fn is_body(name: &[u8], operands: usize) -> bool
    ensures { result ≡ is_body name.now operands }
{
    if is_word(name, b"exists") {
        operands == 2
    } else if is_word(name, b"or") {
        operands >= 1
    } else {
        is_conjunct(name, operands)
    }
}

fn is_example(name: &[u8], operands: usize) -> bool
    ensures { result ≡ is_example name.now operands }
{
    if is_word(name, b"and") {
        operands >= 1
    } else {
        !is_reserved(name)
    }
}

/// Whether the word may stand before so many others in a list of this role.
pub(crate) fn may_head(role: Role, name: &[u8], operands: usize) -> bool
    ensures { result ≡ may_head role name.now operands }
{
    match role {
        Role::Body => is_body(name, operands),
        Role::Conjunct => is_conjunct(name, operands),
        Role::Expression => is_application(name, operands),
        Role::Example => is_example(name, operands),
        _ => false,
    }
}
