//! Hunks of a diff, on whole lines.
use crate::fault::Fault;
use crate::numbered::numbered;
use std::alloc::Global;

/// The lines since `times`, which are added several times, as far as they were read.
#[derive(Clone, Drop)]
struct Times {
    count: u64,
    lines: Vec<u8>,
}

/// A hunk as far as it was read: the lines that have to stand in the file, and those that replace
/// them.
#[derive(Clone, Drop)]
pub(crate) struct Hunk {
    alloc: Global,
    old: Vec<u8>,
    new: Vec<u8>,
    times: Option<Times>,
}

impl Hunk {
    /// Makes a hunk of no lines.
    pub(crate) fn new(alloc: Global) -> Self {
        Hunk {
            alloc,
            old: Vec::new(alloc),
            new: Vec::new(alloc),
            times: None,
        }
    }

    /// Checks whether the hunk has no lines, and no `times` is open.
    pub(crate) fn is_empty(&self) -> bool {
        self.old.is_empty() && self.new.is_empty() && self.times.is_none()
    }

    /// Adds a line that is kept: it has to stand in the file, and stays.
    pub(crate) fn keep(&mut self, line: &[u8]) -> Result<(), Fault> {
        push_line(&mut self.old, line)?;
        self.add(line)
    }

    /// Adds a line that is removed: it has to stand in the file.
    pub(crate) fn remove(&mut self, line: &[u8]) -> Result<(), Fault> {
        push_line(&mut self.old, line)
    }

    /// Adds a line that is new in the file.
    pub(crate) fn add(&mut self, line: &[u8]) -> Result<(), Fault> {
        match &mut self.times {
            Some(times) => push_line(&mut times.lines, line),
            None => push_line(&mut self.new, line),
        }
    }

    /// Removes the line end of the last new line.
    pub(crate) fn cut_line_end(&mut self) {
        match &mut self.times {
            Some(times) => cut_line_end(&mut times.lines),
            None => cut_line_end(&mut self.new),
        }
    }

    /// Adds a text that is new in the file.
    pub(crate) fn add_text(&mut self, text: &[u8]) -> Result<(), Fault> {
        self.new.extend_from_slice(text)?;
        Ok(())
    }

    /// Begins lines that are added `count` times. `times` inside `times` is refused.
    pub(crate) fn begin_times(&mut self, count: u64) -> Result<(), Fault> {
        if self.times.is_some() {
            return Err(Fault::Refused("`times` inside `times`"));
        }
        self.times = Some(Times {
            count,
            lines: Vec::new(self.alloc),
        });
        Ok(())
    }

    /// Adds the lines since `times` as often as it says, with the number of each time, from 0, in
    /// place of each `#`. `once` without `times` is refused.
    pub(crate) fn end_times(&mut self) -> Result<(), Fault> {
        let Some(times) = self.times.take() else {
            return Err(Fault::Refused("`once` without `times`"));
        };
        let lines = numbered(self.alloc, times.lines.as_slice(), b'#', times.count)?;
        self.add_text(lines.as_slice())
    }

    /// Repeats all new lines so far, so that they stand `count` times, with the number of each
    /// time, from 0, in place of each `@`.
    pub(crate) fn repeat(&mut self, count: u64) -> Result<(), Fault> {
        self.new = numbered(self.alloc, self.new.as_slice(), b'@', count)?;
        Ok(())
    }

    /// Applies the hunk to a content: puts its new lines at the end, where it has no old ones, and
    /// else in the place of the old ones. Refused where a `times` is open, or where the old lines
    /// don't stand in the content exactly once, from the beginning of a line on.
    pub(crate) fn applied(&self, content: &[u8]) -> Result<Vec<u8>, Fault> {
        if self.times.is_some() {
            return Err(Fault::Refused("`times` without `once`"));
        }
        if self.old.is_empty() {
            return joined(self.alloc, content, self.new.as_slice(), b"");
        }
        let (before, behind) = around(content, self.old.as_slice())?;
        joined(self.alloc, before, self.new.as_slice(), behind)
    }
}

/// Appends a line and its line end.
pub(crate) fn push_line(text: &mut Vec<u8>, line: &[u8]) -> Result<(), Fault> {
    text.extend_from_slice(line)?;
    text.push(b'\n')?;
    Ok(())
}

/// Removes the last byte of a text, which is the end of its last line.
pub(crate) fn cut_line_end(text: &mut Vec<u8>) {
    let _ = text.pop();
}

/// Joins three texts.
fn joined(alloc: Global, first: &[u8], second: &[u8], third: &[u8]) -> Result<Vec<u8>, Fault> {
    let mut text = Vec::from_slice(alloc, first)?;
    text.extend_from_slice(second)?;
    text.extend_from_slice(third)?;
    Ok(text)
}

/// Finds what stands before and behind the old lines. Refused where these don't stand in the
/// content exactly once, from the beginning of a line on.
fn around<'a>(content: &'a [u8], old: &[u8]) -> Result<(&'a [u8], &'a [u8]), Fault> {
    let mut found = None;
    let mut begins = true;
    for (at, byte) in content.iter().enumerate() {
        if begins && let Some(behind) = content[at..].strip_prefix(old) {
            if found.is_some() {
                return Err(Fault::Refused("the old lines stand twice"));
            }
            found = Some((&content[..at], behind));
        }
        begins = *byte == b'\n';
    }
    found.ok_or(Fault::Refused("the old lines don't stand there"))
}
