ghost use Rattle.std.specs.Prelude.{◌≡◌, ◌+◌, ◌<◌};

use std::marker::Model;
use std::sync::ledger::{Blank, Book, Ledger, Share};

/// A counter of analysing steps. Contracts see it as the number of steps so far.
///
/// It stands on a ledger `L` of std, whose tokens take no bytes, so neither the counter nor a tick
/// costs anything at run time, and no code can read it. Only `tick` changes it.
///
/// A caller makes a counter inside a function that is generic in `L` and takes a [`Blank`], under
/// the conditions of `Steps::open`, and calls that function with `Brand` for `L` and
/// `Blank::new(1)`. The proof of that call picks the ledger of the blank.
#[derive(Drop)]
pub struct Steps<L: Ledger> {
    book: Book<L>,
    share: Share<L>,
}

impl<L: Ledger> Model for Steps<L> {
    ghost use Rattle.std.specs.Prelude.{ℕ, ◌<◌};

    ghost Value = { ℕ };

    ghost view = { λ s. s.book.total };

    ghost invariant = { λ s. 0 < s.share.parts };
}

impl<L: Ledger> Steps<L> {
    /// Opens a counter at 0 on the ledger of the blank, which has the name and the parts of `L` and
    /// at least one part. Takes no memory.
    pub fn open(blank: Blank) -> Self
        requires name { blank.name ≡ L.name }
        requires parts { blank.parts ≡ L.parts }
        requires a_part { 0 < blank.parts }
        ensures { result ≡ 0 }
    {
        let (book, share) = blank.open::<L>();
        Steps { book, share }
    }

    /// Counts one step. Does nothing at run time and takes no memory.
    pub fn tick(&mut self)
        ensures { self.new ≡ self.old + 1 }
    {
        self.book.add(&mut self.share, 1);
    }
}
