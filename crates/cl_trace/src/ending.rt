//! Short texts that grow at their front.
ghost use Rattle.std.specs.Prelude.{◌≡◌, ◌+◌, ◌<◌, ◌≤◌, ◌∷◌, ◌++◌, [], length, decimal};

use itoa::write_digits;
use std::marker::Model;

/// The most bytes of an ending.
const MOST_ENDING: usize = 256;

/// A short text that grows at its front and takes no memory. Contracts see its bytes.
#[derive(Drop)]
pub(crate) struct Ending {
    bytes: [u8; MOST_ENDING],
    start: usize,
}

impl Model for Ending {
    ghost use Rattle.std.specs.Prelude.{List, ℕ, drop, ◌≤◌};

    ghost Value = { List ℕ };

    ghost view = { λ e. drop e.start e.bytes };

    ghost invariant = { λ e. e.start ≤ 256 };
}

impl Ending {
    /// Creates an empty text.
    pub(crate) fn new() -> Ending
        ensures { result ≡ [] }
    {
        Ending {
            bytes: [0; MOST_ENDING],
            start: MOST_ENDING,
        }
    }

    /// Empties the text.
    pub(crate) fn clear(&mut self)
        ensures { self.new ≡ [] }
    {
        self.start = MOST_ENDING;
    }

    /// Puts a byte in front of the text.
    pub(crate) fn put_byte(&mut self, byte: u8)
        requires { length self.old < 256 }
        ensures { self.new ≡ byte ∷ self.old }
    {
        self.start -= 1;
        self.bytes[self.start] = byte;
    }

    /// Puts a number in front of the text, as a decimal.
    pub(crate) fn put_number(&mut self, number: u64)
        requires { length self.old + 20 ≤ 256 }
        ensures text { self.new ≡ decimal number ++ self.old }
        ensures short { length self.new ≤ length self.old + 20 }
    {
        self.start = write_digits(number, &mut self.bytes, self.start);
    }

    /// Puts a piece in front of the text.
    pub(crate) fn put(&mut self, piece: &[u8])
        requires { length piece.now + length self.old ≤ 256 }
        ensures { self.new ≡ piece.now ++ self.old }
    {
        let end = self.start;
        self.start -= piece.len();
        self.bytes[self.start..end].copy_from_slice(piece);
    }

    /// Returns the bytes of the text.
    pub(crate) fn as_slice(&self) -> &[u8]
        ensures { result.now ≡ self.now }
    {
        &self.bytes[self.start..]
    }
}
