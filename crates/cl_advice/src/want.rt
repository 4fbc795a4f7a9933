//! What the reader wants at a place of a model file.
ghost use Rattle.std.specs.Prelude.{◌≡◌, Some, None};
ghost use Rattle.cl_advice.specs.Wanted.{kind_want, key_want, section_want, keyless_want, want_at};

use cl_model::{
    Key, LEAST_JOBS_OF_BURST, MOST_ACCESSES, MOST_CHAINS, MOST_CORES, MOST_HOPS,
    MOST_JOBS_OF_BURST, MOST_LABELS, MOST_PRIORITY, MOST_REQUIRED, MOST_REQUIREMENTS,
    MOST_RUNNABLES, MOST_STEPS, MOST_STIMULI, MOST_TASKS, MOST_TICKS, Part, Place,
};

/// What the reader wants at a place of a model file.
#[derive(Clone, Copy, PartialEq, Eq)]
pub enum Want {
    /// A name.
    Name,
    /// A whole number from `low` to `high`.
    Number { low: u64, high: u64 },
    /// The word of the format.
    Format,
    /// The word of a kind of access.
    Access,
    /// The word of a kind of stimulus that files of this version have.
    Kind { version: u64 },
    /// The word of a kind of requirement that files of this version have.
    RequirementKind { version: u64 },
    /// True or false.
    Boolean,
    /// An array of at most `limit` entries.
    Array { limit: usize },
    /// A table.
    Table,
}

impl Want {
    fn time() -> Want
        ensures { result ≡ Want.Number 1 MOST_TICKS }
    {
        Want::Number {
            low: 1,
            high: MOST_TICKS,
        }
    }

    fn zero_time() -> Want
        ensures { result ≡ Want.Number 0 MOST_TICKS }
    {
        Want::Number {
            low: 0,
            high: MOST_TICKS,
        }
    }

    fn kind(version: u64, part: Part) -> Want
        ensures { result ≡ kind_want version part }
    {
        match part {
            Part::Requirement => Want::RequirementKind { version },
            _ => Want::Kind { version },
        }
    }

    /// Returns what the reader wants at a key of a table of this part.
    fn of_key(version: u64, part: Part, key: Key) -> Want
        ensures { result ≡ key_want version part key }
    {
        match key {
            Key::Format => Want::Format,
            Key::Version => Want::Number { low: 1, high: 3 },
            Key::Core | Key::Stimulus | Key::Chain | Key::Name => Want::Name,
            Key::Label => Want::Array { limit: MOST_LABELS },
            Key::Task => Want::Array { limit: MOST_TASKS },
            Key::Requirement => Want::Array {
                limit: MOST_REQUIREMENTS,
            },
            Key::Kind => Want::kind(version, part),
            Key::Offset | Key::Jitter => Want::zero_time(),
            Key::Period | Key::Distance | Key::Least | Key::Greatest | Key::Deadline => {
                Want::time()
            }
            Key::Count => Want::Number {
                low: LEAST_JOBS_OF_BURST,
                high: MOST_JOBS_OF_BURST,
            },
            Key::Whole => Want::Boolean,
            Key::Priority => Want::Number {
                low: 0,
                high: MOST_PRIORITY,
            },
            Key::Access => Want::Access,
            Key::Runnable => Want::Array {
                limit: MOST_RUNNABLES,
            },
            Key::Reads | Key::Writes => Want::Array {
                limit: MOST_ACCESSES,
            },
            Key::Runnables => Want::Array { limit: MOST_STEPS },
            Key::Labels => Want::Array { limit: MOST_HOPS },
            Key::Most => Want::Number {
                low: 0,
                high: MOST_REQUIRED,
            },
        }
    }

    /// Returns what the reader wants at a section, or at the top level.
    pub(crate) fn of_section(part: Part) -> Want
        ensures { result ≡ section_want part }
    {
        match part {
            Part::Top => Want::Table,
            Part::Core => Want::Array { limit: MOST_CORES },
            Part::Stimulus => Want::Array {
                limit: MOST_STIMULI,
            },
            Part::Label => Want::Array { limit: MOST_LABELS },
            Part::Task => Want::Array { limit: MOST_TASKS },
            Part::Chain => Want::Array { limit: MOST_CHAINS },
            Part::Requirement => Want::Array {
                limit: MOST_REQUIREMENTS,
            },
        }
    }

    /// Returns what the reader wants at a place without a key.
    fn keyless(place: Place) -> Want
        ensures { result ≡ keyless_want place }
    {
        if place.item.is_some() {
            Want::Table
        } else {
            Want::of_section(place.part)
        }
    }

    /// Returns what the reader wants at a place, in a file of this version.
    pub(crate) fn at(version: u64, place: Place) -> Want
        ensures { result ≡ want_at version place }
    {
        match place.key {
            Some(key) => {
                if place.spot.is_some() {
                    Want::Name
                } else {
                    Want::of_key(version, place.part, key)
                }
            }
            None => Want::keyless(place),
        }
    }
}
