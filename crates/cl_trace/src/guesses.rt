//! Guesses of which task a word names.
ghost use Rattle.std.specs.Prelude.{◌<◌};

/// The number of guesses, a power of two.
const COUNT: usize = 1024;

/// A table of guesses by the last bytes of a word: the task that was last found for a word with
/// that ending. The word may name another task, so its name has to be compared.
#[derive(Drop)]
pub(crate) struct Guesses {
    tasks: [u32; COUNT],
}

impl Guesses {
    /// Creates the table with arbitrary guesses.
    pub(crate) fn new() -> Guesses {
        Guesses { tasks: [0; COUNT] }
    }

    /// Computes the index of the guess for a word, from its last bytes.
    fn place_of(word: &[u8]) -> usize
        ensures { result < COUNT }
    {
        let ending = match word {
            [.., hundreds, tens, ones] => {
                usize::from(*hundreds) * 100 + usize::from(*tens) * 10 + usize::from(*ones)
            }
            [tens, ones] => usize::from(*tens) * 10 + usize::from(*ones),
            _ => 0,
        };
        ending % COUNT
    }

    /// Returns the guess for a word.
    pub(crate) fn at(&self, word: &[u8]) -> u32 {
        self.tasks[Guesses::place_of(word)]
    }

    /// Keeps the task of a word as the guess for words with the same ending.
    pub(crate) fn keep(&mut self, word: &[u8], task: u32) {
        self.tasks[Guesses::place_of(word)] = task;
    }
}
