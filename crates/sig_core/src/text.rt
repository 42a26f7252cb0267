ghost use Rattle.std.specs.Prelude.{◌≡◌, ◌++◌, IfOk, OnOk, OnErr};
ghost use Rattle.std.specs.List.{list_all};
ghost use Rattle.sig_core.specs.Names.{is_symbol_byte, is_simple_symbol, is_reserved, same_name, symbol_text};
ghost use Rattle.sig_core.specs.Texts.{literal_text, IsPart};

use crate::Bytes;
use crate::value::Value;
use itoa::Buffer;
use std::alloc::{AllocError, Global};

/// A list of these bytes.
pub fn bytes_of(alloc: Global, bytes: &[u8]) -> Result<Bytes, AllocError>
    ensures { IfOk result (λ list. list ≡ bytes.now) }
{
    let mut list = Bytes::new(alloc);
    list.append(bytes)?;
    Ok(list)
}

/// Whether a name is this word.
pub fn is_word(name: &[u8], word: &[u8]) -> bool
    ensures { result ≡ same_name word.now name.now }
{
    word == name
}

/// Appends the value's literal, as SMT-LIB 2.6 spells it: a numeral, `(- n)`, `true` or `false`.
pub fn put_value(value: &Value, out: &mut Bytes) -> Result<(), AllocError>
    ensures ok { OnOk result (out.new ≡ out.old ++ literal_text value.now) }
    ensures err { OnErr result (IsPart out.old out.new (literal_text value.now)) }
{
    let mut buffer = Buffer::new();
    match *value {
        Value::Int(number) if number < 0 => {
            put_between(
                b"(- ",
                buffer.format(number.unsigned_abs()).as_bytes(),
                b")",
                out,
            )
        }
        Value::Int(number) => put_between(
            b"",
            buffer.format(number.unsigned_abs()).as_bytes(),
            b"",
            out,
        ),
        Value::Bool(true) => put_between(b"", b"true", b"", out),
        Value::Bool(false) => put_between(b"", b"false", b"", out),
    }
}

/// Appends the symbol with these bytes: plain where a simple symbol of SMT-LIB 2.6 can spell it, else in bars.
pub fn put_symbol(name: &[u8], out: &mut Bytes) -> Result<(), AllocError>
    ensures ok { OnOk result (out.new ≡ out.old ++ symbol_text name.now) }
    ensures err { OnErr result (IsPart out.old out.new (symbol_text name.now)) }
{
    if is_simple_symbol(name) {
        put_between(b"", name, b"", out)
    } else {
        put_between(b"|", name, b"|", out)
    }
}

fn put_between(
    opening: &[u8],
    text: &[u8],
    closing: &[u8],
    out: &mut Bytes,
) -> Result<(), AllocError>
    ensures ok { OnOk result (out.new ≡ out.old ++ (opening.now ++ text.now ++ closing.now)) }
    ensures err { OnErr result (IsPart out.old out.new (opening.now ++ text.now ++ closing.now)) }
{
    out.append(opening)?;
    out.append(text)?;
    out.append(closing)?;
    Ok(())
}

/// Whether a simple symbol of SMT-LIB 2.6 spells these bytes.
#[tactic(auto, using(crate::proofs::NameLemmas::spells))]
pub fn is_simple_symbol(name: &[u8]) -> bool
    ensures { result ≡ is_simple_symbol name.now }
{
    match name {
        [] => false,
        [first, ..] => !first.is_ascii_digit() && has_symbol_bytes(name),
    }
}

fn has_symbol_bytes(bytes: &[u8]) -> bool
    ensures { result ≡ list_all is_symbol_byte bytes.now }
{
    bytes.iter().all(|byte| is_symbol_byte(*byte))
}

/// Whether a simple symbol may hold the byte.
pub fn is_symbol_byte(byte: u8) -> bool
    ensures { result ≡ is_symbol_byte byte }
{
    byte.is_ascii_alphanumeric() || b"~!@$%^&*_-+=<>.?/".contains(&byte)
}

/// Whether no relation, parameter or variable may have this name: the words of SMT-LIB's terms and operators.
pub fn is_reserved(name: &[u8]) -> bool
    ensures { result ≡ is_reserved name.now }
{
    let words: [&[u8]; 30] = [
        b"!",
        b"_",
        b"as",
        b"exists",
        b"forall",
        b"let",
        b"match",
        b"par",
        b"true",
        b"false",
        b"not",
        b"and",
        b"or",
        b"xor",
        b"=>",
        b"=",
        b"distinct",
        b"ite",
        b"+",
        b"-",
        b"*",
        b"div",
        b"mod",
        b"abs",
        b"<",
        b"<=",
        b">",
        b">=",
        b"Int",
        b"Bool",
    ];
    words.contains(&name)
}
