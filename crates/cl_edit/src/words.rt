//! Splitting a text at separators: a line into words, and a word into names.
ghost use Rattle.std.specs.Prelude.{◌≡◌, ◌↔◌, [], ◌∷◌, IsTrue, IfSome, IfNone};
ghost use Rattle.cl_edit.specs.Inner.Parts.{parts};

use memchr::memchr;
use std::marker::Model;

/// The parts of a text that are left to read. Contracts see the list of these parts.
#[derive(Drop)]
pub(crate) struct Parts<'a> {
    left: Option<&'a [u8]>,
    separator: u8,
}

impl<'a> Model for Parts<'a> {
    ghost use Rattle.std.specs.Prelude.{List, ℕ};
    ghost use Rattle.cl_edit.specs.Inner.Parts.{parts_left};

    ghost Value = { List (List ℕ) };

    ghost view = { λ p. parts_left p.separator p.left };
}

impl<'a> Parts<'a> {
    /// Splits a text at each separator. There is one part more than there are separators.
    pub fn of(text: &'a [u8], separator: u8) -> Parts<'a>
        ensures { result ≡ parts separator text.now }
    {
        Parts {
            left: Some(text),
            separator,
        }
    }

    /// Returns the next part. `None` comes exactly where no part is left.
    pub fn next(&mut self) -> Option<&'a [u8]>
        ensures some { IfSome result (λ part. self.old ≡ part.now ∷ self.new) }
        ensures none { IfNone result (self.old ≡ []) }
    {
        let left = self.left?;
        match memchr(self.separator, left) {
            Some(end) => {
                self.left = Some(&left[end + 1..]);
                Some(&left[..end])
            }
            None => {
                self.left = None;
                Some(left)
            }
        }
    }

    /// Whether no part is left.
    pub fn is_done(&self) -> bool
        ensures { IsTrue result ↔ (self.now ≡ []) }
    {
        self.left.is_none()
    }
}
