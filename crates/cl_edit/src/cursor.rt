//! A place in a list of edits, from which its lines are read.
ghost use Rattle.std.specs.Prelude.{◌≡◌, ◌∷◌, None, MatchOption, IfOk};
ghost use Rattle.cl_text.specs.LinesFault.{IfBadLine};
ghost use Rattle.cl_edit.specs.{declared.version.Version.TheVariants.{One, Two}, Reading.LacksTitle, Said.lines, Inner.{Left.{lines_left, said_in, said_left, HasNumbers, titled_version, AreBehindTitle, IsTaken, IsNoneTaken, SaysThis, ReadsFirst, SaysNone}, LineReads.edit_in}};

use crate::edit_lines::ListedEdit;
use crate::fault::{EditsFault, Unread};
use crate::lines::edit_of;
use crate::said::{plain, says, without_mark};
use crate::version::Version;
use cl_time::NoMemory;
use memchr::memchr;
use std::alloc::Global;

/// The lines of a list of edits that are left to read, the first of them of this number.
#[derive(Clone, Copy)]
pub(crate) struct Cursor<'a> {
    pub(crate) version: Version,
    pub(crate) left: Option<&'a [u8]>,
    pub(crate) number: u64,
}

/// Splits a text behind its first line: the line without its end, and what follows the end, if it
/// has one.
pub(crate) fn first_line(text: &[u8]) -> (&[u8], Option<&[u8]>)
    ensures { lines text.now ≡ result.0.now ∷ lines_left result.1 }
{
    match memchr(b'\n', text) {
        Some(end) => (&text[..end], Some(&text[end + 1..])),
        None => (text, None),
    }
}

/// Which version of list begins with this line. In version 1 a line follows it, since it has an end.
fn version_of(alloc: Global, title: &[u8], is_last: bool) -> Result<Option<Version>, NoMemory>
    ensures { IfOk result (λ it. it ≡ titled_version title.now is_last) }
{
    if title == b"chainlat edits 1".as_slice() && !is_last {
        return Ok(Some(Version::One));
    }
    let plain = plain(alloc, without_mark(title))?;
    if plain.as_slice() == b"chainlat edits 2".as_slice() {
        Ok(Some(Version::Two))
    } else {
        Ok(None)
    }
}

/// Reads what a line of this number says.
fn read_said(
    alloc: Global,
    version: Version,
    line: u64,
    said: &[u8],
) -> Result<ListedEdit, EditsFault>
    ensures says { IfOk result (SaysThis version (record { line = line; text = said.now })) }
    ensures bad_line { IfBadLine result (λ number. (edit_in version said.now ≡ None) × (number ≡ line)) }
{
    match edit_of(alloc, version, said) {
        Ok(edit) => Ok(ListedEdit { line, edit }),
        Err(Unread::Bad) => Err(EditsFault::BadLine { line }),
        Err(Unread::NoMemory) => Err(EditsFault::NoMemory),
    }
}

impl<'a> Cursor<'a> {
    /// The lines behind the title of a list. `BadLine` where the first line is no title.
    pub(crate) fn of(alloc: Global, text: &'a [u8]) -> Result<Cursor<'a>, EditsFault>
        ensures title { IfOk result (AreBehindTitle text.now) }
        ensures bad_line { IfBadLine result (LacksTitle text.now) }
    {
        let (title, left) = first_line(text);
        match version_of(alloc, title, left.is_none())? {
            Some(version) => Ok(Cursor {
                version,
                left,
                number: 2,
            }),
            None => Err(EditsFault::BadLine { line: 1 }),
        }
    }

    /// Takes the next line, with its number. `None` where no line is left.
    fn next_line(&mut self) -> Option<(u64, &'a [u8])>
        requires { HasNumbers self.old }
        ensures line { MatchOption result (IsNoneTaken self.old self.new) (λ taken. IsTaken taken.0 taken.1.now self.old self.new) }
        ensures numbers { HasNumbers self.new }
    {
        let (line, left) = first_line(self.left?);
        let number = self.number;
        self.left = left;
        self.number = number + 1;
        Some((number, line))
    }

    /// Reads the edit of the next line that says something. `None` where there is no such line,
    /// `BadLine` where it says no edit.
    pub(crate) fn next(&mut self, alloc: Global) -> Result<Option<ListedEdit>, EditsFault>
        requires { HasNumbers self.old }
        ensures next { IfOk result (λ next. ReadsFirst self.old.version next (said_left self.old) (said_left self.new)) }
        ensures bad_line { IfBadLine result (SaysNone self.old.version (said_left self.old)) }
        ensures version { self.new.version ≡ self.old.version }
        ensures numbers { HasNumbers self.new }
    {
        match self.version {
            Version::One => self.next_ended(alloc),
            Version::Two => self.next_spoken(alloc),
        }
    }

    /// Reads the edit of the next line. A line without an end says none.
    fn next_ended(&mut self, alloc: Global) -> Result<Option<ListedEdit>, EditsFault>
        requires { HasNumbers self.old }
        ensures next { IfOk result (λ next. ReadsFirst One next (said_in One self.old) (said_in One self.new)) }
        ensures bad_line { IfBadLine result (SaysNone One (said_in One self.old)) }
        ensures version { self.new.version ≡ self.old.version }
        ensures numbers { HasNumbers self.new }
    {
        let Some((number, line)) = self.next_line() else {
            return Ok(None);
        };
        match (self.left, line) {
            (Some(_), _) => Ok(Some(read_said(alloc, Version::One, number, line)?)),
            (None, []) => Ok(None),
            (None, _) => Err(EditsFault::BadLine { line: number }),
        }
    }

    /// Reads the edit of the next line that has words and is no comment.
    fn next_spoken(&mut self, alloc: Global) -> Result<Option<ListedEdit>, EditsFault>
        requires { HasNumbers self.old }
        ensures next { IfOk result (λ next. ReadsFirst Two next (said_in Two self.old) (said_in Two self.new)) }
        ensures bad_line { IfBadLine result (SaysNone Two (said_in Two self.old)) }
        ensures version { self.new.version ≡ self.old.version }
        ensures numbers { HasNumbers self.new }
    {
        while let Some((number, line)) = self.next_line() {
            let plain = plain(alloc, line)?;
            if says(plain.as_slice()) {
                return Ok(Some(read_said(alloc, Version::Two, number, plain.as_slice())?));
            }
        }
        Ok(None)
    }
}
