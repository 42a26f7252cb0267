//! Reading a whole text.
ghost use Rattle.std.specs.Prelude.{◌≡◌, ◌<◌, ◌^◌, [], List, length, IfOk, IfSome, MatchOption, All};
ghost use Rattle.sexpr_core.specs.declared.form.Sexpr.{Sexpr};
ghost use Rattle.spelling_tests.specs.Reads.{Reads};
ghost use Rattle.sexpr_core.specs.Sizes.{IsSmall};
ghost use Rattle.sexpr_core.specs.Spelling.{Spell};

use sexpr_core::{FeedError, Forest, Reader};
use std::alloc::{AllocError, Global};

/// Reads a text in one piece.
fn read_into(alloc: Global, text: &[u8], into: &mut Forest) -> Result<(), FeedError>
    requires size { length text.now < 2 ^ 32 }
    requires empty { into.old ≡ [] }
    ensures { Reads text.now into.new result }
{
    let mut reader = Reader::new(alloc);
    match reader.feed(text, into) {
        Ok(()) => reader.finish(into),
        Err(error) => Err(error),
    }
}

/// The forms of a text, after the lexicon of SMT-LIB 2.6 (lists nest at most 200 deep). None exactly where the text
/// isn't a spelling.
pub fn forms_of(alloc: Global, text: &[u8]) -> Result<Option<Forest>, AllocError>
    requires { length text.now < 2 ^ 32 }
    ensures forms { IfOk result (λ found. MatchOption found
        ((forms : List Sexpr) → Spell text.now forms → ⊥)
        (λ forest. Spell text.now forest)) }
    ensures small { IfOk result (λ found. IfSome found (All IsSmall)) }
{
    let mut forest = Forest::new(alloc);
    match read_into(alloc, text, &mut forest) {
        Ok(()) => Ok(Some(forest)),
        Err(FeedError::Lex(_)) => Ok(None),
        Err(FeedError::Memory) => Err(AllocError),
    }
}
