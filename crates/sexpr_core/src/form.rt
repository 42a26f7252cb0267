use items::Items;
use sig_core::Bytes;

/// A token. Its place is the offset of its first byte in the text. Its bytes are the contents: those of a symbol
/// without bars, those of a string without its quotes and with doubled quotes made single, those of a keyword
/// without the colon.
#[derive(Debug, Drop)]
pub struct Atom {
    pub place: u32,
    pub bytes: Bytes,
}

/// A form of a text.
#[cycle(sexpr)]
#[derive(Debug, Drop)]
pub enum Sexpr {
    Symbol(Atom),
    Numeral(Atom),
    Text(Atom),
    Keyword(Atom),
    List(Nest),
}

/// A list of forms. Its place is the offset of its opening parenthesis in the text.
#[cycle(sexpr)]
#[derive(Debug, Drop)]
pub struct Nest {
    pub place: u32,
    pub items: Forms,
}

pub type Forms = Items<Sexpr>;
