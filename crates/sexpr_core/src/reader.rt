//! Reading a stream that comes in pieces.
ghost use Rattle.std.specs.Prelude.{◌≡◌, ◌++◌, OnOk, OnErr, option_map, option_to_list};
ghost use Rattle.sexpr_core.specs.Model.{class_of, continues_numeral, continues_name, name_form, last_forms};

use crate::fault::{FeedError, LexFault};
use crate::forest::Forest;
use crate::form::{Atom, Forms, Nest, Sexpr};
use crate::lexicon::{is_allowed, is_blank, is_line_end, is_quoted_byte};
use items::Items;
use sig_core::{Bytes, is_symbol_byte};
use std::alloc::{AllocError, Global};
use std::mem;

/// Lists nest at most so deep.
const DEEPEST: usize = 200;

/// A list that isn't closed yet: where its `(` stands, and the forms before it in what it stands in.
#[derive(Drop)]
pub(crate) struct Opened {
    pub(crate) place: u32,
    pub(crate) before: Forms,
}

/// A token or a comment at the end of the bytes so far, which the next byte may go on with.
#[derive(Drop)]
pub(crate) enum Begun {
    Nothing,
    Comment,
    Symbol(Atom),
    Numeral(Atom),
    /// a keyword, whose name may be empty so far
    Keyword(Atom),
    /// a quoted symbol without its second bar
    Quoted(Atom),
    /// a string without its last quote
    Text(Atom),
    /// a string and its last quote, if no other quote follows
    Quote(Atom),
}

/// What a byte does between tokens.
#[derive(Clone, Copy)]
pub(crate) enum Class {
    Blank,
    Semicolon,
    Open,
    Close,
    Digit,
    Letter,
    Colon,
    Bar,
    Quote,
    Other,
}

/// Reads a stream in pieces.
#[derive(Drop)]
pub struct Reader {
    alloc: Global,
    /// The lists that are open, the outermost first.
    opened: Items<Opened>,
    /// The forms since the last `(` of them. Where no list is open there are none, since they were given.
    forms: Forms,
    begun: Begun,
    /// How many bytes were taken.
    fed: u32,
    /// What every later call answers.
    refusal: Option<FeedError>,
}

pub(crate) fn class_of(byte: u8) -> Class
    ensures { result ≡ class_of byte }
{
    if is_blank(byte) {
        Class::Blank
    } else if byte == b';' {
        Class::Semicolon
    } else if byte == b'(' {
        Class::Open
    } else if byte == b')' {
        Class::Close
    } else if byte.is_ascii_digit() {
        Class::Digit
    } else if is_symbol_byte(byte) {
        Class::Letter
    } else if byte == b':' {
        Class::Colon
    } else if byte == b'|' {
        Class::Bar
    } else if byte == b'"' {
        Class::Quote
    } else {
        Class::Other
    }
}

/// Whether the byte is a further digit of a numeral with these digits.
fn continues_numeral(digits: &[u8], byte: u8) -> bool
    ensures { result ≡ continues_numeral digits.now byte }
{
    match digits {
        [] => byte.is_ascii_digit(),
        [first, ..] => *first != b'0' && byte.is_ascii_digit(),
    }
}

/// Whether the byte is a further byte of a name with these bytes.
fn continues_name(name: &[u8], byte: u8) -> bool
    ensures { result ≡ continues_name name.now byte }
{
    match name {
        [] => is_symbol_byte(byte) && !byte.is_ascii_digit(),
        _ => is_symbol_byte(byte),
    }
}

/// The form of what was begun, if it is a token that may end here. None where the bytes may not end here.
fn last_form(begun: Begun) -> Option<Option<Sexpr>>
    ensures { option_map option_to_list result ≡ last_forms begun }
{
    match begun {
        Begun::Nothing | Begun::Comment => Some(None),
        Begun::Symbol(atom) => Some(Some(Sexpr::Symbol(atom))),
        Begun::Numeral(atom) => Some(Some(Sexpr::Numeral(atom))),
        Begun::Keyword(atom) => keyword_form(atom),
        Begun::Quote(atom) => Some(Some(Sexpr::Text(atom))),
        Begun::Quoted(_) | Begun::Text(_) => None,
    }
}

/// Gives the form, if there is one.
fn add_last(last: Option<Sexpr>, into: &mut Forest) -> Result<(), AllocError>
    ensures ok { OnOk result (into.new ≡ into.old ++ option_to_list last) }
    ensures err { OnErr result (into.new ≡ into.old) }
{
    if let Some(form) = last {
        into.push(form)?;
    }
    Ok(())
}

/// The form of a keyword, if its name isn't empty.
fn keyword_form(atom: Atom) -> Option<Option<Sexpr>>
    ensures { option_map option_to_list result ≡ name_form atom.bytes atom }
{
    if atom.bytes.is_empty() {
        return None;
    }
    Some(Some(Sexpr::Keyword(atom)))
}

impl Reader {
    ghost use Rattle.std.specs.Prelude.{ℕ, List, if◌then◌else◌, ◌+◌, ◌≤◌, ◌<◌, ◌^◌, [], ◌∷◌, ◌++◌, length, reverse, IfOk, IfErr, OnOk, OnErr, Err};
    ghost use Rattle.sexpr_core.specs.declared.fault.FeedError.{FeedError};
    ghost use Rattle.sexpr_core.specs.declared.fault.FeedError.TheVariants.{Lex};
    ghost use Rattle.sexpr_core.specs.declared.form.Sexpr.{Sexpr};
    ghost use Rattle.sexpr_core.specs.declared.reader.Begun.TheVariants as token;
    ghost use Rattle.sexpr_core.specs.Feeds.{IsRefused, bytes_fed, StandsFor, Feeds, Finishes};
    ghost use Rattle.sexpr_core.specs.Following.{Follows, moves, state_of};
    ghost use Rattle.sexpr_core.specs.Lexicon.{is_line_end};
    ghost use Rattle.sexpr_core.specs.Standing.{Stands};
    ghost use Rattle.sexpr_core.specs.Model.{kept, handed, begins, opens, closes, settles, ends, colon_reason, after_name};

    /// A reader of no bytes yet.
    pub fn new(alloc: Global) -> Reader
        ensures stands { StandsFor result [] [] }
        ensures fed { bytes_fed result ≡ 0 }
    {
        Reader {
            alloc,
            opened: Items::new(alloc),
            forms: Forms::new(alloc),
            begun: Begun::Nothing,
            fed: 0,
            refusal: None,
        }
    }

    /// Reads a piece of the stream. The top-level forms that it completes are added to `into`, in order. A lexical fault
    /// comes where no spelling begins with the bytes so far, and then the forms that are complete before the fault were
    /// added. After want of memory a first part of the forms were. What was answered once in place of Ok is answered to
    /// every later call, which changes nothing.
    pub fn feed(&mut self, piece: &[u8], into: &mut Forest) -> Result<(), FeedError>
        requires { bytes_fed self.old + length piece.now < 2 ^ 32 }
        ensures feeds { (bytes : List ℕ) (given : List Sexpr) → StandsFor self.old bytes given → Feeds self.new (bytes ++ piece.now) given into.old into.new result }
        ensures refused { (found : FeedError) → IsRefused self.old found → (result ≡ Err found) × (self.new ≡ self.old) × (into.new ≡ into.old) }
        ensures refuses { IfErr result (λ found. IsRefused self.new found) }
        ensures fed { bytes_fed self.new ≤ bytes_fed self.old + length piece.now }
    {
        if let Some(error) = self.refusal {
            return Err(error);
        }
        self.take_all(piece, into)
    }

    /// Ends the stream. A last symbol, numeral, string or keyword is added to `into`. A lexical fault of reason 3 comes
    /// where the stream ends inside a form.
    pub fn finish(self, into: &mut Forest) -> Result<(), FeedError>
        ensures finishes { (bytes : List ℕ) (given : List Sexpr) → StandsFor self bytes given → Finishes bytes given into.old into.new result }
        ensures refused { (found : FeedError) → IsRefused self found → (result ≡ Err found) × (into.new ≡ into.old) }
    {
        if let Some(error) = self.refusal {
            return Err(error);
        }
        if !self.opened.is_empty() {
            return Err(self.refused(3));
        }
        let cut = self.refused(3);
        let Some(last) = last_form(self.begun) else {
            return Err(cut);
        };
        add_last(last, into)?;
        Ok(())
    }

    /// Takes a byte, after which the bytes end with this.
    fn go_on(&mut self, begun: Begun)
        requires { self.old.fed + 1 < 2 ^ 32 }
        ensures { self.new ≡ record self.old { begun = begun; fed = self.old.fed + 1 } }
    {
        self.begun = begun;
        self.fed += 1;
    }

    /// The refusal of the next byte.
    fn refused(&self, reason: u8) -> FeedError
        ensures { result ≡ Lex (record { place = self.now.fed; reason = reason }) }
    {
        FeedError::Lex(LexFault {
            place: self.fed,
            reason,
        })
    }

    /// Puts a form last in the innermost open list, or gives it where no list is open.
    fn add(&mut self, form: Sexpr, into: &mut Forest) -> Result<(), AllocError>
        ensures ok { OnOk result (self.new ≡ record self.old { forms = kept (reverse self.old.opened) self.old.forms form }) }
        ensures given { OnOk result (into.new ≡ into.old ++ handed (reverse self.old.opened) form) }
        ensures err { OnErr result (into.new ≡ into.old) }
    {
        if self.opened.is_empty() {
            into.push(form)?;
        } else {
            self.forms.push(form)?;
        }
        Ok(())
    }

    /// Opens a list at the next byte.
    fn open(&mut self) -> Result<(), FeedError>
        requires { self.old.fed + 1 < 2 ^ 32 }
        ensures { (had : List Sexpr) → Follows (opens (reverse self.old.opened) self.old.forms self.old.fed) self.old self.new had had result }
    {
        if self.opened.len() == DEEPEST {
            return Err(self.refused(5));
        }
        let before = mem::replace(&mut self.forms, Forms::new(self.alloc));
        self.opened.push(Opened {
            place: self.fed,
            before,
        })?;
        self.go_on(Begun::Nothing);
        Ok(())
    }

    /// Closes the innermost open list with the next byte.
    fn close(&mut self, into: &mut Forest) -> Result<(), FeedError>
        requires { self.old.fed + 1 < 2 ^ 32 }
        ensures { Follows (closes (reverse self.old.opened) self.old.forms self.old.fed) self.old self.new into.old into.new result }
    {
        let Some(Opened { place, before }) = self.opened.pop() else {
            return Err(self.refused(4));
        };
        let items = mem::replace(&mut self.forms, before);
        self.add(Sexpr::List(Nest { place, items }), into)?;
        self.go_on(Begun::Nothing);
        Ok(())
    }

    /// A token at the next byte, with these first contents.
    fn begun_atom(&self, contents: &[u8]) -> Result<Atom, AllocError>
        ensures { IfOk result (λ made. made ≡ record { place = self.now.fed; bytes = contents.now }) }
    {
        let mut bytes = Bytes::new(self.alloc);
        bytes.append(contents)?;
        Ok(Atom {
            place: self.fed,
            bytes,
        })
    }

    /// Takes a byte that stands between tokens.
    fn begin(&mut self, byte: u8, into: &mut Forest) -> Result<(), FeedError>
        requires { self.old.fed + 1 < 2 ^ 32 }
        ensures { Follows (begins (reverse self.old.opened) self.old.forms self.old.fed byte) self.old self.new into.old into.new result }
    {
        let begun = match class_of(byte) {
            Class::Blank => Begun::Nothing,
            Class::Semicolon => Begun::Comment,
            Class::Open => return self.open(),
            Class::Close => return self.close(into),
            Class::Digit => Begun::Numeral(self.begun_atom(&[byte])?),
            Class::Letter => Begun::Symbol(self.begun_atom(&[byte])?),
            Class::Colon => Begun::Keyword(self.begun_atom(&[])?),
            Class::Bar => Begun::Quoted(self.begun_atom(&[])?),
            Class::Quote => Begun::Text(self.begun_atom(&[])?),
            Class::Other => return Err(self.refused(1)),
        };
        self.go_on(begun);
        Ok(())
    }

    /// Takes a byte before which a token with this form ends.
    fn settle(&mut self, form: Sexpr, byte: u8, into: &mut Forest) -> Result<(), FeedError>
        requires { self.old.fed + 1 < 2 ^ 32 }
        ensures { Follows (settles (reverse self.old.opened) self.old.forms self.old.fed form byte) self.old self.new into.old into.new result }
    {
        self.add(form, into)?;
        self.begin(byte, into)
    }

    /// Takes the byte that ends a token with this form.
    fn end(&mut self, form: Sexpr, into: &mut Forest) -> Result<(), FeedError>
        requires { self.old.fed + 1 < 2 ^ 32 }
        ensures { Follows (ends (reverse self.old.opened) self.old.forms self.old.fed form) self.old self.new into.old into.new result }
    {
        self.add(form, into)?;
        self.go_on(Begun::Nothing);
        Ok(())
    }

    /// Why the byte is refused directly after the colon of a keyword.
    fn colon_reason(&self, byte: u8) -> u8
        ensures { result ≡ colon_reason (reverse self.now.opened) byte }
    {
        if !self.opened.is_empty() {
            return 1;
        }
        if byte == b')' { 4 } else { 1 }
    }

    /// Takes a byte inside a comment.
    fn comment(&mut self, byte: u8)
        requires { self.old.fed + 1 < 2 ^ 32 }
        ensures { self.new ≡ record self.old { begun = if is_line_end byte then token.Nothing else token.Comment; fed = self.old.fed + 1 } }
    {
        self.go_on(if is_line_end(byte) {
            Begun::Nothing
        } else {
            Begun::Comment
        });
    }

    /// Takes a byte after a simple symbol.
    fn symbol(&mut self, mut atom: Atom, byte: u8, into: &mut Forest) -> Result<(), FeedError>
        requires { self.old.fed + 1 < 2 ^ 32 }
        ensures { Follows (moves (token.Symbol atom) self.old byte) self.old self.new into.old into.new result }
    {
        if !is_symbol_byte(byte) {
            return self.settle(Sexpr::Symbol(atom), byte, into);
        }
        atom.bytes.push(byte)?;
        self.go_on(Begun::Symbol(atom));
        Ok(())
    }

    /// Takes a byte after a numeral.
    fn numeral(&mut self, mut atom: Atom, byte: u8, into: &mut Forest) -> Result<(), FeedError>
        requires { self.old.fed + 1 < 2 ^ 32 }
        ensures { Follows (moves (token.Numeral atom) self.old byte) self.old self.new into.old into.new result }
    {
        if !continues_numeral(atom.bytes.as_slice(), byte) {
            if is_symbol_byte(byte) {
                return Err(self.refused(2));
            }
            return self.settle(Sexpr::Numeral(atom), byte, into);
        }
        atom.bytes.push(byte)?;
        self.go_on(Begun::Numeral(atom));
        Ok(())
    }

    /// Takes a byte that doesn't continue a keyword.
    fn after_name(&mut self, atom: Atom, byte: u8, into: &mut Forest) -> Result<(), FeedError>
        requires { self.old.fed + 1 < 2 ^ 32 }
        ensures { Follows (after_name atom.bytes (reverse self.old.opened) self.old.forms self.old.fed atom byte) self.old self.new into.old into.new result }
    {
        if atom.bytes.is_empty() {
            return Err(self.refused(self.colon_reason(byte)));
        }
        self.settle(Sexpr::Keyword(atom), byte, into)
    }

    /// Takes a byte after a first part of a keyword.
    fn keyword(&mut self, mut atom: Atom, byte: u8, into: &mut Forest) -> Result<(), FeedError>
        requires { self.old.fed + 1 < 2 ^ 32 }
        ensures { Follows (moves (token.Keyword atom) self.old byte) self.old self.new into.old into.new result }
    {
        if !continues_name(atom.bytes.as_slice(), byte) {
            return self.after_name(atom, byte, into);
        }
        atom.bytes.push(byte)?;
        self.go_on(Begun::Keyword(atom));
        Ok(())
    }

    /// Takes a byte inside a quoted symbol.
    fn quoted(&mut self, mut atom: Atom, byte: u8, into: &mut Forest) -> Result<(), FeedError>
        requires { self.old.fed + 1 < 2 ^ 32 }
        ensures { Follows (moves (token.Quoted atom) self.old byte) self.old self.new into.old into.new result }
    {
        if byte == b'|' {
            return self.end(Sexpr::Symbol(atom), into);
        }
        if !is_quoted_byte(byte) {
            return Err(self.refused(1));
        }
        atom.bytes.push(byte)?;
        self.go_on(Begun::Quoted(atom));
        Ok(())
    }

    /// Takes a byte inside a string.
    fn text(&mut self, mut atom: Atom, byte: u8) -> Result<(), FeedError>
        requires { self.old.fed + 1 < 2 ^ 32 }
        ensures { (had : List Sexpr) → Follows (moves (token.Text atom) self.old byte) self.old self.new had had result }
    {
        if byte == b'"' {
            self.go_on(Begun::Quote(atom));
            return Ok(());
        }
        if !is_allowed(byte) {
            return Err(self.refused(1));
        }
        atom.bytes.push(byte)?;
        self.go_on(Begun::Text(atom));
        Ok(())
    }

    /// Takes a byte after a quote that ends a string, unless the byte is a quote too.
    fn quote(&mut self, mut atom: Atom, byte: u8, into: &mut Forest) -> Result<(), FeedError>
        requires { self.old.fed + 1 < 2 ^ 32 }
        ensures { Follows (moves (token.Quote atom) self.old byte) self.old self.new into.old into.new result }
    {
        if byte != b'"' {
            return self.settle(Sexpr::Text(atom), byte, into);
        }
        atom.bytes.push(byte)?;
        self.go_on(Begun::Text(atom));
        Ok(())
    }

    /// Takes the next byte.
    fn step(&mut self, byte: u8, into: &mut Forest) -> Result<(), FeedError>
        requires { self.old.fed + 1 < 2 ^ 32 }
        ensures { Follows (moves self.old.begun self.old byte) self.old self.new into.old into.new result }
    {
        match mem::replace(&mut self.begun, Begun::Nothing) {
            Begun::Nothing => self.begin(byte, into),
            Begun::Comment => {
                self.comment(byte);
                Ok(())
            }
            Begun::Symbol(atom) => self.symbol(atom, byte, into),
            Begun::Numeral(atom) => self.numeral(atom, byte, into),
            Begun::Keyword(atom) => self.keyword(atom, byte, into),
            Begun::Quoted(atom) => self.quoted(atom, byte, into),
            Begun::Text(atom) => self.text(atom, byte),
            Begun::Quote(atom) => self.quote(atom, byte, into),
        }
    }

    /// Takes the bytes of a piece, where none was refused before.
    fn take_all(&mut self, piece: &[u8], into: &mut Forest) -> Result<(), FeedError>
        requires live { self.old.refusal ≡ None }
        requires room { self.old.fed + length piece.now < 2 ^ 32 }
        ensures feeds { (bytes : List ℕ) (given : List Sexpr) → Stands (state_of self.old) bytes given → Feeds self.new (bytes ++ piece.now) given into.old into.new result }
        ensures refuses { IfErr result (λ error. IsRefused self.new error) }
        ensures fed { bytes_fed self.new ≤ self.old.fed + length piece.now }
    {
        for byte in piece {
            if let Err(error) = self.step(*byte, into) {
                self.refusal = Some(error);
                return Err(error);
            }
        }
        Ok(())
    }
}
