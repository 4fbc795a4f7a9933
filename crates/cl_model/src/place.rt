//! Places in a model file.
ghost use Rattle.std.specs.Prelude.{◌≡◌, Some};
ghost use Rattle.cl_model.specs.Place.{section_place, top, at_item, at_sub, at_key, at_spot, part_text, key_text, index_text, sub_text, dotted_text, place_text};

use std::fmt;

/// A part of a model file: its top level or one of its sections.
#[derive(Clone, Copy, PartialEq, Eq)]
pub enum Part {
    Top,
    Core,
    Stimulus,
    Label,
    Task,
    Chain,
    Requirement,
}

/// A key of a model file.
#[derive(Clone, Copy, PartialEq, Eq)]
pub enum Key {
    Format,
    Version,
    Core,
    Stimulus,
    Label,
    Task,
    Chain,
    Requirement,
    Name,
    Kind,
    Period,
    Offset,
    Jitter,
    Count,
    Distance,
    Least,
    Greatest,
    Whole,
    Priority,
    Access,
    Deadline,
    Runnable,
    Reads,
    Writes,
    Runnables,
    Labels,
    Most,
}

/// A place in a model file: a part, and in it the entry, the runnable, the key and the member of an
/// array that are given. Numbers count from 0.
#[derive(Clone, Copy, PartialEq, Eq)]
pub struct Place {
    pub part: Part,
    /// The number of the entry in the section.
    pub item: Option<u32>,
    /// The number of the runnable in the task.
    pub sub: Option<u32>,
    /// The key of the table.
    pub key: Option<Key>,
    /// The number of the member in the array under the key.
    pub spot: Option<u32>,
}

impl Part {
    /// Returns the place of the part as a whole.
    pub fn section_place(self) -> Place
        ensures { result ≡ section_place self }
    {
        Place {
            part: self,
            item: None,
            sub: None,
            key: None,
            spot: None,
        }
    }

    /// Returns the word that stands for the part where a place is printed.
    pub fn word(self) -> &'static str
        ensures { result.now ≡ part_text self }
    {
        match self {
            Part::Top => "top",
            Part::Core => "core",
            Part::Stimulus => "stimulus",
            Part::Label => "label",
            Part::Task => "task",
            Part::Chain => "chain",
            Part::Requirement => "requirement",
        }
    }
}

impl Key {
    /// Returns the key as a model file writes it.
    pub fn word(self) -> &'static str
        ensures { result.now ≡ key_text self }
    {
        match self {
            Key::Format => "format",
            Key::Version => "version",
            Key::Core => "core",
            Key::Stimulus => "stimulus",
            Key::Label => "label",
            Key::Task => "task",
            Key::Chain => "chain",
            Key::Requirement => "requirement",
            Key::Name => "name",
            Key::Kind => "kind",
            Key::Period => "period",
            Key::Offset => "offset",
            Key::Jitter => "jitter",
            Key::Count => "count",
            Key::Distance => "distance",
            Key::Least => "least",
            Key::Greatest => "greatest",
            Key::Whole => "whole",
            Key::Priority => "priority",
            Key::Access => "access",
            Key::Deadline => "deadline",
            Key::Runnable => "runnable",
            Key::Reads => "reads",
            Key::Writes => "writes",
            Key::Runnables => "runnables",
            Key::Labels => "labels",
            Key::Most => "most",
        }
    }
}

impl Place {
    /// Returns the place of the top level of a file.
    pub fn top() -> Place
        ensures { result ≡ top }
    {
        Part::Top.section_place()
    }

    /// Returns the place of an entry of this section.
    pub fn at_item(self, item: u32) -> Place
        ensures { result ≡ at_item item self }
    {
        Place {
            item: Some(item),
            ..self
        }
    }

    /// Returns the place of a runnable of this task, without the key.
    pub fn at_sub(self, sub: u32) -> Place
        ensures { result ≡ at_sub sub self }
    {
        Place {
            sub: Some(sub),
            key: None,
            ..self
        }
    }

    /// Returns the place of a key of this table.
    pub fn at_key(self, key: Key) -> Place
        ensures { result ≡ at_key key self }
    {
        Place {
            key: Some(key),
            ..self
        }
    }

    /// Returns the place of a member of this array.
    pub fn at_spot(self, spot: u32) -> Place
        ensures { result ≡ at_spot spot self }
    {
        Place {
            spot: Some(spot),
            ..self
        }
    }
}

impl fmt::Display for Part {
    ghost output = { λ part. Some (part_text part) };

    fn fmt<W: fmt::Write>(&self, f: &mut fmt::Formatter<W>) -> fmt::Result {
        f.write_str(self.word())
    }
}

impl fmt::Display for Key {
    ghost output = { λ key. Some (key_text key) };

    fn fmt<W: fmt::Write>(&self, f: &mut fmt::Formatter<W>) -> fmt::Result {
        f.write_str(self.word())
    }
}

/// A number in brackets, or nothing.
#[derive(Clone, Copy)]
struct Index(Option<u32>);

impl fmt::Display for Index {
    ghost output = { λ index. Some (index_text index.0) };

    fn fmt<W: fmt::Write>(&self, f: &mut fmt::Formatter<W>) -> fmt::Result {
        match self.0 {
            None => Ok(()),
            Some(number) => write!(f, "[{number}]"),
        }
    }
}

/// The runnable of a task, or nothing.
#[derive(Clone, Copy)]
struct Sub(Option<u32>);

impl fmt::Display for Sub {
    ghost output = { λ sub. Some (sub_text sub.0) };

    fn fmt<W: fmt::Write>(&self, f: &mut fmt::Formatter<W>) -> fmt::Result {
        match self.0 {
            None => Ok(()),
            Some(number) => write!(f, ".runnable[{number}]"),
        }
    }
}

/// A key after a dot, or nothing.
#[derive(Clone, Copy)]
struct Dotted(Option<Key>);

impl fmt::Display for Dotted {
    ghost output = { λ key. Some (dotted_text key.0) };

    fn fmt<W: fmt::Write>(&self, f: &mut fmt::Formatter<W>) -> fmt::Result {
        match self.0 {
            None => Ok(()),
            Some(key) => write!(f, ".{key}"),
        }
    }
}

impl fmt::Display for Place {
    ghost output = { λ place. Some (place_text place) };

    fn fmt<W: fmt::Write>(&self, f: &mut fmt::Formatter<W>) -> fmt::Result {
        let part = self.part;
        let item = Index(self.item);
        let sub = Sub(self.sub);
        let key = Dotted(self.key);
        let spot = Index(self.spot);
        write!(f, "{part}{item}{sub}{key}{spot}")
    }
}
