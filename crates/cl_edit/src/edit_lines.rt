//! Reading the edits of a text one at a time.
ghost use Rattle.std.specs.Prelude.{◌≡◌, IfOk, OnErr};
ghost use Rattle.cl_text.specs.LinesFault.{IfBadLine};
ghost use Rattle.cl_edit.specs.{Listed.GivesNext, Reading.{AreEditsOf, IsBadEditLine}, Inner.Counts.counted_with};

use crate::cursor::Cursor;
use crate::edit::Edit;
use crate::fault::EditsFault;
use crate::limits::{MOST_EDITS, MOST_REPORTS};
use cl_time::NoMemory;
use std::alloc::Global;
use std::marker::Model;

/// An edit of a list, by the number of its line in the text, counted from 1.
#[derive(PartialEq, Eq, Drop)]
pub struct ListedEdit {
    pub line: u64,
    pub edit: Edit,
}

/// How many edits were listed, and for how many of them something is written.
#[derive(Clone, Copy)]
pub(crate) struct Counted {
    pub(crate) edits: usize,
    pub(crate) written: usize,
}

impl Counted {
    /// Counts one more edit. `BadLine` where it is one too many.
    fn count(self, listed: &ListedEdit) -> Result<Counted, EditsFault>
        ensures { result ≡ counted_with self listed.now }
    {
        let is_written = listed.edit.is_written();
        if MOST_EDITS <= self.edits || (is_written && MOST_REPORTS <= self.written) {
            return Err(EditsFault::BadLine { line: listed.line });
        }
        Ok(Counted {
            edits: self.edits + 1,
            written: self.written + usize::from(is_written),
        })
    }
}

/// The edits that are left to read, of a text that lists edits. Contracts see these edits.
#[derive(Drop)]
pub struct EditLines<'a> {
    left: Cursor<'a>,
}

impl<'a> Model for EditLines<'a> {
    ghost use Rattle.std.specs.Prelude.{List};
    ghost use Rattle.cl_edit.specs.declared.edit_lines.ListedEdit.{ListedEdit};
    ghost use Rattle.cl_edit.specs.Inner.Left.{edits_left, AreLeft};

    ghost Value = { List ListedEdit };

    ghost view = { λ lines. edits_left lines.left };

    ghost invariant = { λ lines. AreLeft lines.left };
}

impl<'a> EditLines<'a> {
    /// Checks that a text lists edits, and returns all of them, to be read. Each line is read once
    /// as a check, and no edit is kept.
    ///
    /// `BadLine` comes exactly where the text lists no edits. It has the number of the first line
    /// that is outside the grammar or that is one too many, counted from 1. `NoMemory` comes where
    /// there is no memory for an edit. Either error leaves nothing.
    pub fn of(alloc: Global, text: &'a [u8]) -> Result<EditLines<'a>, EditsFault>
        ensures lines { IfOk result (AreEditsOf text.now) }
        ensures bad_line { IfBadLine result (IsBadEditLine text.now) }
    {
        let left = Cursor::of(alloc, text)?;
        let mut lines = left;
        let mut counted = Counted {
            edits: 0,
            written: 0,
        };
        while let Some(listed) = lines.next(alloc)? {
            counted = counted.count(&listed)?;
        }
        Ok(EditLines { left })
    }

    /// Reads the next edit. `None` comes exactly where no edit is left. `NoMemory` comes where
    /// there is no memory for the edit, and leaves the edits as they were.
    pub fn next(&mut self, alloc: Global) -> Result<Option<ListedEdit>, NoMemory>
        ensures next { IfOk result (λ next. GivesNext next self.old self.new) }
        ensures unread { OnErr result (self.new ≡ self.old) }
    {
        let mut left = self.left;
        match left.next(alloc) {
            Ok(next) => {
                self.left = left;
                Ok(next)
            }
            Err(EditsFault::NoMemory) => Err(NoMemory),
            Err(EditsFault::BadLine { .. }) => unreachable!(),
        }
    }
}
