//! What a form is, and what it holds.
ghost use Rattle.std.specs.Prelude.{◌≡◌};
ghost use Rattle.std.specs.Option.{option_copied};
ghost use Rattle.sexpr_core.specs.Access.{place_of, symbol_of, numeral_of, keyword_of, items_of, parts_of, item_of, others_of, is_symbol, is_numeral, is_keyword};

use crate::form::Sexpr;
use items::at;

impl Sexpr {
    /// The offset of the form's first byte in its text.
    pub fn place(&self) -> u32
        ensures { result ≡ place_of self.now }
    {
        match self {
            Sexpr::Symbol(atom) | Sexpr::Numeral(atom) | Sexpr::Text(atom) | Sexpr::Keyword(atom) =>
                atom.place,
            Sexpr::List(nest) => nest.place,
        }
    }

    /// The name of a symbol.
    pub fn symbol(&self) -> Option<&[u8]>
        ensures { option_copied result ≡ symbol_of self.now }
    {
        match self {
            Sexpr::Symbol(atom) => Some(atom.bytes.as_slice()),
            _ => None,
        }
    }

    /// The digits of a numeral.
    pub fn numeral(&self) -> Option<&[u8]>
        ensures { option_copied result ≡ numeral_of self.now }
    {
        match self {
            Sexpr::Numeral(atom) => Some(atom.bytes.as_slice()),
            _ => None,
        }
    }

    /// The name of a keyword, without its colon.
    pub fn keyword(&self) -> Option<&[u8]>
        ensures { option_copied result ≡ keyword_of self.now }
    {
        match self {
            Sexpr::Keyword(atom) => Some(atom.bytes.as_slice()),
            _ => None,
        }
    }

    /// The forms of a list.
    pub fn items(&self) -> Option<&[Sexpr]>
        ensures { option_copied result ≡ items_of self.now }
    {
        match self {
            Sexpr::List(nest) => Some(nest.items.as_slice()),
            _ => None,
        }
    }

    /// Whether the form is the symbol with this name.
    pub fn is_symbol(&self, name: &[u8]) -> bool
        ensures { result ≡ is_symbol name.now self.now }
    {
        match self.symbol() {
            Some(found) => name == found,
            None => false,
        }
    }

    /// Whether the form is the numeral with these digits.
    pub fn is_numeral(&self, digits: &[u8]) -> bool
        ensures { result ≡ is_numeral digits.now self.now }
    {
        match self.numeral() {
            Some(found) => digits == found,
            None => false,
        }
    }

    /// Whether the form is the keyword with this name.
    pub fn is_keyword(&self, name: &[u8]) -> bool
        ensures { result ≡ is_keyword name.now self.now }
    {
        match self.keyword() {
            Some(found) => name == found,
            None => false,
        }
    }
}

/// The items of a list; a token has none.
pub fn parts_of(form: &Sexpr) -> &[Sexpr]
    ensures { result.now ≡ parts_of form.now }
{
    match form {
        Sexpr::List(nest) => nest.items.as_slice(),
        _ => &[],
    }
}

/// The item in this place, or the form itself where there is none.
pub fn item_of(k: usize, form: &Sexpr) -> &Sexpr
    ensures { result.now ≡ item_of k form.now }
{
    match at(parts_of(form), k) {
        Some(item) => item,
        None => form,
    }
}

/// The items after the first.
pub fn others_of(form: &Sexpr) -> &[Sexpr]
    ensures { result.now ≡ others_of form.now }
{
    match parts_of(form) {
        [] => &[],
        [_, others @ ..] => others,
    }
}
