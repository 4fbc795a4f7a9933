//! Chains of runnables linked by labels, and the requirements on them. Times are in ticks.
ghost use Rattle.std.specs.Prelude.{◌≡◌};
ghost use Rattle.cl_model.specs.{Kinds.{length_word, requirement_word, is_delay}, Reading.{Checks.meaning_of, Tables.requirement_kind_words}};

use crate::copying::TryCopy;
use crate::list::List;
use crate::name::Name;
use cl_time::NoMemory;
use std::alloc::Global;

/// A length of a chain: its reaction, its age or its reduced age.
#[derive(Clone, Copy, Debug, PartialEq, Eq)]
pub enum LengthKind {
    Reaction,
    Age,
    Reduced,
}

/// What a requirement limits: a length of its chain or its delay.
#[derive(Clone, Copy, Debug, PartialEq, Eq)]
pub enum RequirementKind {
    Length(LengthKind),
    /// From the arrival of the first job to the last write.
    Delay,
}

impl LengthKind {
    /// Returns the word of this kind in a model file.
    pub fn word(self) -> &'static str
        ensures { result.now ≡ length_word self }
    {
        match self {
            LengthKind::Reaction => "reaction",
            LengthKind::Age => "age",
            LengthKind::Reduced => "reduced",
        }
    }
}

impl RequirementKind {
    /// Whether the kind is `Delay`.
    pub fn is_delay(self) -> bool
        ensures { result ≡ is_delay self }
    {
        matches!(self, RequirementKind::Delay)
    }

    /// Returns the word of this kind in a model file.
    pub fn word(self) -> &'static str
        ensures { result.now ≡ requirement_word self }
    {
        match self {
            RequirementKind::Length(kind) => kind.word(),
            RequirementKind::Delay => "delay",
        }
    }

    /// Finds the kind that has this word in files of this version, or `None` exactly where none has
    /// it.
    pub fn of_word(version: u64, word: &[u8]) -> Option<RequirementKind>
        ensures { result ≡ meaning_of (requirement_kind_words version) word.now }
    {
        match word {
            b"reaction" => Some(RequirementKind::Length(LengthKind::Reaction)),
            b"age" => Some(RequirementKind::Length(LengthKind::Age)),
            b"reduced" => Some(RequirementKind::Length(LengthKind::Reduced)),
            b"delay" if version >= 3 => Some(RequirementKind::Delay),
            _ => None,
        }
    }
}

/// A chain of runnables, each of which writes a label that the next one reads.
#[derive(Debug, PartialEq, Eq, Drop)]
pub struct ChainDef {
    pub name: Name,
    pub runnables: List<Name>,
    /// The label of each hop, in order. A valid chain has one fewer than runnables.
    pub labels: List<Name>,
}

/// A requirement: the most that a length of a chain, or its delay, may be.
#[derive(Debug, PartialEq, Eq, Drop)]
pub struct RequirementDef {
    pub name: Name,
    pub chain: Name,
    pub kind: RequirementKind,
    /// The most ticks that are allowed.
    pub most: u64,
}

impl TryCopy for ChainDef {
    fn try_copy(&self, alloc: Global) -> Result<ChainDef, NoMemory> {
        Ok(ChainDef {
            name: self.name.copy(),
            runnables: self.runnables.try_copy(alloc)?,
            labels: self.labels.try_copy(alloc)?,
        })
    }
}

impl TryCopy for RequirementDef {
    fn try_copy(&self, _alloc: Global) -> Result<RequirementDef, NoMemory> {
        Ok(RequirementDef {
            name: self.name.copy(),
            chain: self.chain.copy(),
            kind: self.kind,
            most: self.most,
        })
    }
}
