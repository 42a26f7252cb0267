//! Commands by their text.
ghost use Rattle.std.specs.Prelude.{◌≤◌};

use name_core::{limit_fault, name_fault, reading_of};
use sig_core::{SigError, Signature};
use spelling_tests::forms_of;
use std::alloc::{AllocError, Global};
use syntax_core::{Fault, Head};

/// A type with a constant and a constructor of two children.
fn sums(alloc: Global) -> Result<Signature, SigError> {
    let mut signature = Signature::new(alloc);
    let owner = signature.add_type(b"E")?;
    signature.add_constructor(b"$a", owner, &[])?;
    signature.add_constructor(b"$+", owner, &[owner, owner])?;
    Ok(signature)
}

/// The place and the number of the limit that the command passes after so many rules and constraints.
pub(crate) fn limit_of(
    alloc: Global,
    rules: usize,
    constraints: usize,
    command: Head,
    text: &[u8],
) -> Result<Option<(u32, u8)>, AllocError>
    requires { constraints ≤ 1024 }
{
    if text.len() > 100_000 {
        return Ok(None);
    }
    let Some(forms) = forms_of(alloc, text)? else {
        return Ok(None);
    };
    let Some(form) = forms.get(0) else {
        return Ok(None);
    };
    let signature = Signature::new(alloc);
    let reading = reading_of(alloc, command, form)?;
    let fault = limit_fault(&signature, rules, constraints, command, form, &reading);
    Ok(fault.map(|fault| (fault.place, fault.limit)))
}

/// The wrong name of a command after the declarations of sums, where the wanted function is `f`.
pub(crate) fn name_of(
    alloc: Global,
    command: Head,
    text: &[u8],
) -> Result<Option<Fault>, AllocError> {
    let Ok(signature) = sums(alloc) else {
        return Err(AllocError);
    };
    if text.len() > 1000 {
        return Ok(None);
    }
    let Some(forms) = forms_of(alloc, text)? else {
        return Ok(None);
    };
    let Some(form) = forms.get(0) else {
        return Ok(None);
    };
    let reading = reading_of(alloc, command, form)?;
    name_fault(
        alloc,
        &signature,
        Some(b"f".as_slice()),
        command,
        form,
        &reading,
    )
}
