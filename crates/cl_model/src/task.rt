//! Tasks and the runnables that a job of a task executes. Times are in ticks.
ghost use Rattle.std.specs.Prelude.{◌≡◌, ◌<◌};
ghost use Rattle.cl_model.specs.{Holds.{runnable_hold, task_hold}, Kinds.{access_word, is_timed}, Reading.{Checks.meaning_of, Tables.access_words}, Timing.deadline_under};

use crate::copying::TryCopy;
use crate::list::List;
use crate::name::Name;
use crate::stimulus::StimulusKind;
use cl_time::NoMemory;
use std::alloc::Global;

/// When the runnables of a task read and write labels.
#[derive(Clone, Copy, Debug, PartialEq, Eq)]
pub enum AccessKind {
    /// Each runnable reads at its start and writes at its finish.
    Explicit,
    /// A job reads at its start and writes at its finish.
    Implicit,
    /// A job reads at its arrival and writes at its deadline.
    Timed,
}

impl AccessKind {
    /// Whether the kind is `Timed`.
    pub fn is_timed(self) -> bool
        ensures { result ≡ is_timed self }
    {
        matches!(self, AccessKind::Timed)
    }

    /// Returns the word of this kind in a model file and in a list of edits.
    pub fn word(self) -> &'static str
        ensures { result.now ≡ access_word self }
    {
        match self {
            AccessKind::Explicit => "explicit",
            AccessKind::Implicit => "implicit",
            AccessKind::Timed => "timed",
        }
    }

    /// Finds the kind that has this word, or `None` exactly where none has it.
    pub fn of_word(word: &[u8]) -> Option<AccessKind>
        ensures { result ≡ meaning_of access_words word.now }
    {
        match word {
            b"explicit" => Some(AccessKind::Explicit),
            b"implicit" => Some(AccessKind::Implicit),
            b"timed" => Some(AccessKind::Timed),
            _ => None,
        }
    }
}

/// A step of a job: how long it executes, and which labels it reads and writes.
#[derive(Debug, PartialEq, Eq, Drop)]
pub struct RunnableDef {
    pub name: Name,
    /// The least execution time.
    pub least: u64,
    /// The greatest execution time.
    pub greatest: u64,
    /// Whether it can't be preempted once it has begun.
    pub whole: bool,
    pub reads: List<Name>,
    pub writes: List<Name>,
}

/// A task: a pattern of jobs on one core.
#[derive(Debug, PartialEq, Eq, Drop)]
pub struct TaskDef {
    pub name: Name,
    pub core: Name,
    pub stimulus: Name,
    /// A greater number is a higher priority.
    pub priority: u64,
    pub access: AccessKind,
    /// The deadline from arrival. Where none is given, it is the least distance between arrivals.
    pub deadline: Option<u64>,
    /// The runnables, in the order in which a job executes them.
    pub runnables: List<RunnableDef>,
}

impl RunnableDef {
    /// Returns how long the runnable may hold its core once it has begun, in ticks: its greatest
    /// execution time without the first tick where it is whole, and 0 otherwise.
    pub fn hold(&self) -> u64
        ensures { result ≡ runnable_hold self.now }
    {
        if self.whole {
            self.greatest.saturating_sub(1)
        } else {
            0
        }
    }
}

impl TaskDef {
    /// Returns how long a runnable of the task may hold its core once it has begun, in ticks: the
    /// greatest `hold` of its runnables, 0 where it has none.
    pub fn longest_hold(&self) -> u64
        ensures { result ≡ task_hold self.now }
    {
        let mut longest = 0;
        for runnable in self.runnables.as_slice() {
            longest = longest.max(runnable.hold());
        }
        longest
    }

    /// Returns the deadline that is given, or else the least distance of `kind`, in ticks. `kind`
    /// is meant to be that of the task's stimulus.
    pub fn deadline_under(&self, kind: StimulusKind) -> u64
        ensures { result ≡ deadline_under kind self.now }
    {
        self.deadline.unwrap_or(kind.least_distance())
    }
}

impl TryCopy for RunnableDef {
    fn try_copy(&self, alloc: Global) -> Result<RunnableDef, NoMemory> {
        Ok(RunnableDef {
            name: self.name.copy(),
            least: self.least,
            greatest: self.greatest,
            whole: self.whole,
            reads: self.reads.try_copy(alloc)?,
            writes: self.writes.try_copy(alloc)?,
        })
    }
}

impl TryCopy for TaskDef {
    fn try_copy(&self, alloc: Global) -> Result<TaskDef, NoMemory> {
        Ok(TaskDef {
            name: self.name.copy(),
            core: self.core.copy(),
            stimulus: self.stimulus.copy(),
            priority: self.priority,
            access: self.access,
            deadline: self.deadline,
            runnables: self.runnables.try_copy(alloc)?,
        })
    }
}
