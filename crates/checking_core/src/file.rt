//! An answer file whose bytes come in pieces.
ghost use Rattle.std.specs.Prelude.{◌+◌, ◌++◌, ◌<◌, ◌^◌, ℕ, List, [], length, All, IfOk, OnOk, MatchResult};
ghost use Rattle.sexpr_core.specs.declared.form.Sexpr.{Sexpr};
ghost use Rattle.sexpr_core.specs.Feeds.{Gave, StandsFor, bytes_fed};
ghost use Rattle.sexpr_core.specs.Prefixes.{IsFault};
ghost use Rattle.sexpr_core.specs.Sizes.{IsSmall};
ghost use Rattle.sexpr_core.specs.Spelling.{Spell};
ghost use Rattle.checking_core.specs.Reading.{IsReading};

use sexpr_core::{FeedError, Forest, LexFault, Reader};
use std::alloc::{AllocError, Global};

/// The forms of an answer file, which are read as its bytes come in pieces.
#[derive(Drop)]
pub struct AnswerFile {
    pub(crate) reader: Reader,
    /// the forms that were read
    pub(crate) forms: Forest,
    /// how many bytes were fed
    pub(crate) count: u32,
}

impl AnswerFile {
    /// No byte was fed yet.
    pub fn new(alloc: Global) -> AnswerFile
        ensures { IsReading result [] }
    {
        AnswerFile {
            reader: Reader::new(alloc),
            forms: Forest::new(alloc),
            count: 0,
        }
    }

    /// Takes the next piece. A lexical fault is told at the end. After want of memory the file can only be dropped.
    pub fn feed(&mut self, piece: &[u8]) -> Result<(), AllocError>
        requires { (bytes : List ℕ) × IsReading self.old bytes × (length bytes + length piece.now < 2 ^ 32) }
        ensures { OnOk result ((bytes : List ℕ) → IsReading self.old bytes → IsReading self.new (bytes ++ piece.now)) }
    {
        read(&mut self.reader, piece, &mut self.forms)?;
        self.count += piece.len() as u32;
        Ok(())
    }
}

/// Reads a piece. After a lexical fault the reader answers it again at the end.
fn read(reader: &mut Reader, piece: &[u8], forms: &mut Forest) -> Result<(), AllocError>
    requires { bytes_fed reader.old + length piece.now < 2 ^ 32 }
    ensures { OnOk result ((bytes : List ℕ) (given : List Sexpr) → StandsFor reader.old bytes given → Gave reader.new (bytes ++ piece.now) given forms.old forms.new) }
{
    match reader.feed(piece, forms) {
        Ok(()) | Err(FeedError::Lex(_)) => Ok(()),
        Err(FeedError::Memory) => Err(AllocError),
    }
}

/// What a reader answers at the end of a text, of which it gave these forms.
pub(crate) fn ended(reader: Reader, forms: Forest) -> Result<Result<Forest, LexFault>, AllocError>
    ensures { IfOk result (λ read. (text : List ℕ) → StandsFor reader text forms → length text < 2 ^ 32 →
        MatchResult read (λ forms. Spell text forms × All IsSmall forms) (λ fault. IsFault text fault.place fault.reason)) }
{
    let mut forms = forms;
    match reader.finish(&mut forms) {
        Ok(()) => Ok(Ok(forms)),
        Err(FeedError::Lex(fault)) => Ok(Err(fault)),
        Err(FeedError::Memory) => Err(AllocError),
    }
}
