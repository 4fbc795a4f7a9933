ghost use Rattle.std.specs.Prelude.{◌≡◌, [], ◌∷◌, ◌++◌, length, slice_get, IsTrue, ◌↔◌, OnOk, OnErr};
ghost use Rattle.std.specs.Option.{option_copied};

use cl_time::NoMemory;
use std::alloc::Global;
use std::marker::Model;

/// The words of a command, in order. Contracts see a list of words, each a list of bytes.
#[derive(Drop)]
pub struct Words {
    alloc: Global,
    words: Vec<String>,
}

impl Model for Words {
    ghost use Rattle.std.specs.Prelude.{List, ℕ, map, string_bytes};

    ghost Value = { List (List ℕ) };

    ghost view = { λ w. map string_bytes w.words.items };
}

impl Words {
    /// Creates an empty list of words. Takes no memory.
    pub fn new(alloc: Global) -> Self
        ensures { result ≡ [] }
    {
        Words {
            alloc,
            words: Vec::new(alloc),
        }
    }

    /// Appends a word. After `NoMemory` the words are as they were.
    pub fn push(&mut self, word: &str) -> Result<(), NoMemory>
        ensures ok { OnOk result (self.new ≡ self.old ++ word.now ∷ []) }
        ensures err { OnErr result (self.new ≡ self.old) }
    {
        let word = String::from_str(self.alloc, word)?;
        self.words.push(word)?;
        Ok(())
    }

    /// Counts the words.
    pub fn len(&self) -> usize
        ensures { result ≡ length self.now }
    {
        self.words.len()
    }

    /// Checks whether there is no word.
    pub fn is_empty(&self) -> bool
        ensures { IsTrue result ↔ (self.now ≡ []) }
    {
        self.words.is_empty()
    }

    /// Returns the word at an index, counted from 0, or `None` past the end.
    pub fn at(&self, place: usize) -> Option<&str>
        ensures { option_copied result ≡ slice_get self.now place }
    {
        match self.words.get(place) {
            Some(word) => Some(word.as_str()),
            None => None,
        }
    }
}
