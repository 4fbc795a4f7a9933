//! A case, as far as its lines were read.
use crate::case_file::{CaseFile, remove_file};
use crate::fault::Fault;
use crate::hunk::{Hunk, cut_line_end, push_line};
use crate::limits::{Limits, number_of};
use crate::numbered::numbered;
use std::alloc::Global;
use std::fs;
use std::io::ErrorKind;
use std::rt::Files;

/// What each command of a case has to come to: a status, and the whole text or its first lines.
#[derive(Clone, Drop)]
pub(crate) struct Wanted {
    pub(crate) status: u8,
    pub(crate) text: Vec<u8>,
    pub(crate) whole: bool,
}

impl Wanted {
    /// Repeats the text, so that it stands `count` times, with the number of each time, from 0, in
    /// place of each `@`.
    fn repeat(&mut self, alloc: Global, count: u64) -> Result<(), Fault> {
        self.text = numbered(alloc, self.text.as_slice(), b'@', count)?;
        Ok(())
    }
}

/// A case: the words of its commands, its files, which calls fail, and what each command has to
/// come to.
#[derive(Clone, Drop)]
pub(crate) struct Case {
    pub(crate) alloc: Global,
    pub(crate) name: String,
    pub(crate) line: u64,
    /// The words of each command. All commands have to come to the same.
    pub(crate) commands: Vec<String>,
    /// Whether a line of the case itself, and not of every case, says words.
    says_words: bool,
    /// The files, of which hunks change the last.
    pub(crate) files: Vec<CaseFile>,
    hunk: Hunk,
    pub(crate) limits: Limits,
    wanted: Option<Wanted>,
    /// Whether a line of the case itself, and not of every case, says what is wanted.
    wants: bool,
}

impl Case {
    /// Makes a case of no words and no files.
    pub(crate) fn new(alloc: Global) -> Self {
        Case {
            alloc,
            name: String::new(alloc),
            line: 0,
            commands: Vec::new(alloc),
            says_words: false,
            files: Vec::new(alloc),
            hunk: Hunk::new(alloc),
            limits: Limits::none(),
            wanted: None,
            wants: false,
        }
    }

    /// Begins a case of this name, with what belongs to every case.
    pub(crate) fn begun(&self, name: &str, line: u64) -> Result<Case, Fault> {
        let mut case = self.clone()?;
        case.name.push_str(name)?;
        case.line = line;
        case.says_words = false;
        case.wants = false;
        Ok(case)
    }

    /// Returns what the case has to come to. A case that doesn't say it is refused.
    pub(crate) fn wanted(&self) -> Result<&Wanted, Fault> {
        match &self.wanted {
            Some(wanted) => Ok(wanted),
            None => Err(Fault::Refused("a case without `wants`")),
        }
    }

    /// Reads one line of the case. `last` is what the last command before the case has written.
    pub(crate) fn read_line<R: Files + AllocGlobal>(
        &mut self,
        rt: &R,
        last: &[u8],
        line: &str,
    ) -> Result<(), Fault> {
        let Some((first, rest)) = line.as_bytes().split_first() else {
            return self.end_hunk();
        };
        match *first {
            b'#' => Ok(()),
            b' ' => self.hunk.keep(rest),
            b'-' => self.hunk.remove(rest),
            b'+' => self.hunk.add(rest),
            b'|' => self.want_line(rest),
            b'\\' => self.cut_line_end(),
            _ => self.read_words(rt, last, line),
        }
    }

    /// Reads a line that begins with a word.
    fn read_words<R: Files + AllocGlobal>(
        &mut self,
        rt: &R,
        last: &[u8],
        line: &str,
    ) -> Result<(), Fault> {
        let (word, rest) = line.split_once(' ').unwrap_or((line, ""));
        match word {
            "times" => self.hunk.begin_times(number_of(rest)?),
            "once" => self.hunk.end_times(),
            "again" => self.repeat(number_of(rest)?),
            "last" => self.hunk.add_text(last),
            _ => {
                self.end_hunk()?;
                self.read_setting(rt, word, rest)
            }
        }
    }

    /// Reads a line that is no part of a hunk.
    fn read_setting<R: Files + AllocGlobal>(
        &mut self,
        rt: &R,
        word: &str,
        rest: &str,
    ) -> Result<(), Fault> {
        match word {
            "words" => self.add_command(rest),
            "more" => self.add_word(rest),
            "fewer" => self.drop_words(),
            "file" => self.add_file(rt, rest),
            "without" => self.drop_file(rest),
            "wants" => self.want(rest, true),
            "begins" => self.want(rest, false),
            _ => self.limits.set(word, rest),
        }
    }

    /// Applies the hunk that ends here to the last file, and begins another.
    pub(crate) fn end_hunk(&mut self) -> Result<(), Fault> {
        if self.hunk.is_empty() {
            return Ok(());
        }
        let Some(mut file) = self.files.pop() else {
            return Err(Fault::Refused("no file to change"));
        };
        file.content = self.hunk.applied(file.content.as_slice())?;
        self.hunk = Hunk::new(self.alloc);
        self.files.push(file)?;
        Ok(())
    }

    /// Adds a command. The first one of a case replaces those that belong to every case.
    fn add_command(&mut self, words: &str) -> Result<(), Fault> {
        if !self.says_words {
            self.commands.clear();
            self.says_words = true;
        }
        self.commands.push(String::from_str(self.alloc, words)?)?;
        Ok(())
    }

    /// Adds a word to each command.
    fn add_word(&mut self, word: &str) -> Result<(), Fault> {
        for words in &mut self.commands {
            words.push_str(" ")?;
            words.push_str(word)?;
        }
        Ok(())
    }

    /// Removes the last word of each command.
    fn drop_words(&mut self) -> Result<(), Fault> {
        for words in &mut self.commands {
            *words = shortened(self.alloc, words.as_str())?;
        }
        Ok(())
    }

    /// Removes a file.
    fn drop_file(&mut self, name: &str) -> Result<(), Fault> {
        remove_file(&mut self.files, name);
        Ok(())
    }

    /// Adds a file that is empty or has the content of the file that the second word names, in
    /// place of one with its name.
    fn add_file<R: Files + AllocGlobal>(&mut self, rt: &R, words: &str) -> Result<(), Fault> {
        let (name, base) = words.split_once(' ').unwrap_or((words, ""));
        let content = if base.is_empty() {
            Vec::new(self.alloc)
        } else {
            read_base(rt, base)?
        };
        remove_file(&mut self.files, name);
        self.files.push(CaseFile::new(self.alloc, name, content)?)?;
        Ok(())
    }

    /// Sets the status that is wanted, and the text as far as it stands in the same line. A case
    /// that does so twice is refused.
    fn want(&mut self, words: &str, whole: bool) -> Result<(), Fault> {
        if self.wants {
            return Err(Fault::Refused("a second `wants`"));
        }
        self.wants = true;
        let (status, line) = words.split_once(' ').unwrap_or((words, ""));
        let Ok(status) = status.parse::<u8>() else {
            return Err(Fault::Refused("no status"));
        };
        let mut text = Vec::new(self.alloc);
        if !line.is_empty() {
            push_line(&mut text, line.as_bytes())?;
        }
        self.wanted = Some(Wanted {
            status,
            text,
            whole,
        });
        Ok(())
    }

    /// Adds a line to the text that is wanted.
    fn want_line(&mut self, line: &[u8]) -> Result<(), Fault> {
        match &mut self.wanted {
            Some(wanted) => push_line(&mut wanted.text, line),
            None => Err(Fault::Refused("a text before its `wants`")),
        }
    }

    /// Removes the line end of the last line that the hunk adds, or of the text that is wanted.
    fn cut_line_end(&mut self) -> Result<(), Fault> {
        if !self.hunk.is_empty() {
            self.hunk.cut_line_end();
            return Ok(());
        }
        match &mut self.wanted {
            Some(wanted) => cut_line_end(&mut wanted.text),
            None => return Err(Fault::Refused("no line whose end to take away")),
        }
        Ok(())
    }

    /// Repeats all lines that the hunk adds so far, or else all lines that are wanted so far, so
    /// that they stand `count` times.
    fn repeat(&mut self, count: u64) -> Result<(), Fault> {
        if !self.hunk.is_empty() {
            return self.hunk.repeat(count);
        }
        match &mut self.wanted {
            Some(wanted) => wanted.repeat(self.alloc, count),
            None => Err(Fault::Refused("no lines to repeat")),
        }
    }
}

/// Returns words without the last one. A single word is refused.
fn shortened(alloc: Global, words: &str) -> Result<String, Fault> {
    match words.rsplit_once(' ') {
        Some((before, _)) => Ok(String::from_str(alloc, before)?),
        None => Err(Fault::Refused("no word to take away")),
    }
}

/// Reads the bytes of a base.
fn read_base<R: Files + AllocGlobal>(rt: &R, name: &str) -> Result<Vec<u8>, Fault> {
    match fs::read(rt, name) {
        Ok(content) => Ok(content),
        Err(error) if error.kind() == ErrorKind::OutOfMemory => Err(Fault::NoMemory),
        Err(_) => Err(Fault::Refused("no file of that name")),
    }
}
