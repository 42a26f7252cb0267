ghost use Rattle.std.specs.Prelude.{◌≡◌, ◌≤◌, [], ◌∷◌, ◌++◌, Some, length, slice_get, MatchOption, OnOk, OnErr};

use std::alloc::{AllocError, Global};
use std::marker::Model;

/// A list of texts, as the words of a command line.
#[derive(Debug, Drop)]
pub struct Words {
    words: Vec<String>,
    alloc: Global,
}

impl Model for Words {
    ghost use Rattle.std.specs.Prelude.{List, ℕ, map, string_bytes};

    ghost Value = { List (List ℕ) };

    ghost view = { λ w. map string_bytes w.words.items };
}

impl Words {
    pub fn new(alloc: Global) -> Words
        ensures { result ≡ [] }
    {
        Words {
            words: Vec::new(alloc),
            alloc,
        }
    }

    /// Puts a word last.
    pub fn push(&mut self, word: &str) -> Result<(), AllocError>
        ensures ok { OnOk result (self.new ≡ self.old ++ word.now ∷ []) }
        ensures err { OnErr result (self.new ≡ self.old) }
    {
        let word = String::from_str(self.alloc, word)?;
        self.words.push(word)?;
        Ok(())
    }

    pub fn len(&self) -> usize
        ensures { result ≡ length self.now }
    {
        self.words.len()
    }

    /// The word of a number, from 0. `None` exactly where the number isn't below the length.
    pub fn get(&self, k: usize) -> Option<&str>
        ensures { MatchOption result (length self.now ≤ k) (λ word. slice_get self.now k ≡ Some word.now) }
    {
        Some(self.words.get(k)?.as_str())
    }
}
