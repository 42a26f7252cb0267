//! The canonical spelling of forms.
ghost use Rattle.std.specs.Prelude.{◌≡◌, ◌++◌, [], ◌∷◌, map, OnOk, OnErr};
ghost use Rattle.sig_core.specs.Texts.{IsPart};
ghost use Rattle.sexpr_core.specs.Lexicon.{doubled};
ghost use Rattle.sexpr_core.specs.Texts.{form_text, gap_before, joined};

use crate::form::Sexpr;
use sig_core::{Bytes, put_symbol};
use std::alloc::AllocError;

/// Appends the canonical spelling of the form: a symbol plain where a simple symbol can spell it, else in bars; a string
/// with its quotes doubled; the items of a list with one space between two.
#[cycle(print)]
pub fn print(form: &Sexpr, out: &mut Bytes) -> Result<(), AllocError>
    ensures ok { OnOk result (out.new ≡ out.old ++ form_text form.now) }
    ensures err { OnErr result (IsPart out.old out.new (form_text form.now)) }
{
    match form {
        Sexpr::Symbol(atom) => put_symbol(atom.bytes.as_slice(), out)?,
        Sexpr::Numeral(atom) => put_after(b"", atom.bytes.as_slice(), out)?,
        Sexpr::Text(atom) => put_string(atom.bytes.as_slice(), out)?,
        Sexpr::Keyword(atom) => put_after(b":", atom.bytes.as_slice(), out)?,
        Sexpr::List(nest) => print_list(nest.items.as_slice(), out)?,
    }
    Ok(())
}

/// Appends a list of these items.
#[cycle(print)]
fn print_list(items: &[Sexpr], out: &mut Bytes) -> Result<(), AllocError>
    ensures ok { OnOk result (out.new ≡ out.old ++ 40 ∷ (joined (map form_text items.now) ++ 41 ∷ [])) }
    ensures err { OnErr result (IsPart out.old out.new (40 ∷ (joined (map form_text items.now) ++ 41 ∷ []))) }
{
    out.push(b'(')?;
    print_joined(items, out)?;
    out.push(b')')?;
    Ok(())
}

/// Appends the forms with one space between two.
#[cycle(print)]
fn print_joined(forms: &[Sexpr], out: &mut Bytes) -> Result<(), AllocError>
    ensures ok { OnOk result (out.new ≡ out.old ++ joined (map form_text forms.now)) }
    ensures err { OnErr result (IsPart out.old out.new (joined (map form_text forms.now))) }
{
    for (i, form) in forms.iter().enumerate() {
        print_at(i, form, out)?;
    }
    Ok(())
}

/// Appends the form in place i of a list, after a space if it isn't the first.
#[cycle(print)]
fn print_at(i: usize, form: &Sexpr, out: &mut Bytes) -> Result<(), AllocError>
    ensures ok { OnOk result (out.new ≡ out.old ++ (gap_before i ++ form_text form.now)) }
    ensures err { OnErr result (IsPart out.old out.new (gap_before i ++ form_text form.now)) }
{
    if i > 0 {
        out.push(b' ')?;
    }
    print(form, out)?;
    Ok(())
}

/// Appends one text after another.
fn put_after(first: &[u8], second: &[u8], out: &mut Bytes) -> Result<(), AllocError>
    ensures ok { OnOk result (out.new ≡ out.old ++ (first.now ++ second.now)) }
    ensures err { OnErr result (IsPart out.old out.new (first.now ++ second.now)) }
{
    out.append(first)?;
    out.append(second)?;
    Ok(())
}

/// Appends a string with these contents.
fn put_string(contents: &[u8], out: &mut Bytes) -> Result<(), AllocError>
    ensures ok { OnOk result (out.new ≡ out.old ++ 34 ∷ (doubled contents.now ++ 34 ∷ [])) }
    ensures err { OnErr result (IsPart out.old out.new (34 ∷ (doubled contents.now ++ 34 ∷ []))) }
{
    out.push(b'"')?;
    put_doubled(contents, out)?;
    out.push(b'"')?;
    Ok(())
}

/// Appends the bytes with each double quote doubled.
fn put_doubled(bytes: &[u8], out: &mut Bytes) -> Result<(), AllocError>
    ensures ok { OnOk result (out.new ≡ out.old ++ doubled bytes.now) }
    ensures err { OnErr result (IsPart out.old out.new (doubled bytes.now)) }
{
    for byte in bytes {
        put_byte(*byte, out)?;
    }
    Ok(())
}

/// Appends a byte, a double quote twice.
fn put_byte(byte: u8, out: &mut Bytes) -> Result<(), AllocError>
    ensures ok { OnOk result (out.new ≡ out.old ++ doubled (byte ∷ [])) }
    ensures err { OnErr result (out.new ≡ out.old) }
{
    if byte == b'"' {
        out.append(b"\"\"")
    } else {
        out.push(byte)
    }
}
