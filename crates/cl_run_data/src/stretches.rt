//! The entries of one core, kept as longest stretches of one entry. A long stretch takes no more
//! memory than a short one.
ghost use Rattle.std.specs.Prelude.{◌≡◌, ◌+◌, ◌-◌, ◌^◌, ◌<◌, [], ◌++◌, length, replicate, slice_index_or, OnOk, OnErr};
ghost use Rattle.cl_run_data.specs.{Stretches.{entries_from, AreLongest, AreStretchesOf, IsStretchEnd}, Inner.StretchPlaces.{end_from, IsStretchOf}};

use cl_time::NoMemory;
use std::alloc::Global;
use std::marker::Model;

/// A stretch of ticks with one entry. It begins where the stretch before it ends, and the first one
/// at tick 0.
#[derive(Clone, Copy, Debug, PartialEq, Eq)]
pub struct Stretch {
    /// The task that runs, or none where the core idles.
    pub who: Option<u32>,
    /// The tick after its last one.
    pub end: u64,
}

/// A list of entries: for each tick a task, or none.
#[derive(Drop)]
pub struct Stretches {
    stretches: Vec<Stretch>,
}

impl Model for Stretches {
    ghost use Rattle.std.specs.Prelude.{ℕ, List, Option};

    ghost Value = { List (Option ℕ) };

    ghost use Rattle.cl_run_data.specs.Stretches.{entries_from, AreLongest};

    ghost view = { λ s. entries_from 0 s.stretches.items };

    ghost invariant = { λ s. AreLongest 0 s.stretches.items };
}

/// Returns where the last stretch ends, 0 where there is none.
fn end_of(stretches: &[Stretch]) -> u64
    ensures { result ≡ end_from 0 stretches.now }
{
    let count = stretches.len();
    if count == 0 {
        0
    } else {
        stretches[count - 1].end
    }
}

/// Finds the index of the stretch in which a tick lies.
fn stretch_of(stretches: &[Stretch], tick: u64) -> usize
    requires longest { AreLongest 0 stretches.now }
    requires within { tick < end_from 0 stretches.now }
    ensures { IsStretchOf stretches.now tick result }
{
    stretches.partition_point(|stretch| stretch.end <= tick)
}

/// Appends entries up to `end`: extends the last stretch where it has the same entry, and appends a
/// stretch otherwise. After `NoMemory` the stretches are as they were.
#[inline(always)]
fn append(stretches: &mut Vec<Stretch>, who: Option<u32>, end: u64) -> Result<(), NoMemory>
    requires longest { AreLongest 0 stretches.old.items }
    requires after { end_from 0 stretches.old.items < end }
    ensures longest { AreLongest 0 stretches.new.items }
    ensures ok { OnOk result
        (entries_from 0 stretches.new.items
        ≡ entries_from 0 stretches.old.items
        ++ replicate (end - end_from 0 stretches.old.items) who) }
    ensures err { OnErr result (stretches.new.items ≡ stretches.old.items) }
{
    let count = stretches.len();
    if count > 0 && stretches[count - 1].who == who {
        stretches[count - 1].end = end;
        return Ok(());
    }
    stretches.push(Stretch { who, end })?;
    Ok(())
}

impl Stretches {
    /// Creates an empty list. Takes no memory.
    pub fn new(alloc: Global) -> Stretches
        ensures { result ≡ [] }
    {
        Stretches {
            stretches: Vec::new(alloc),
        }
    }

    /// Returns the number of entries.
    pub fn filled(&self) -> u64
        ensures { result ≡ length self.now }
    {
        end_of(self.stretches.as_slice())
    }

    /// Appends an entry for `ticks` ticks. After `NoMemory` the list is as it was.
    #[inline(always)]
    pub fn push(&mut self, who: Option<u32>, ticks: u64) -> Result<(), NoMemory>
        requires { length self.old + ticks < 2 ^ 64 }
        ensures ok { OnOk result (self.new ≡ self.old ++ replicate ticks who) }
        ensures err { OnErr result (self.new ≡ self.old) }
    {
        if ticks == 0 {
            return Ok(());
        }
        let end = end_of(self.stretches.as_slice()) + ticks;
        append(&mut self.stretches, who, end)
    }

    /// Returns the entry of a tick.
    pub fn entry(&self, tick: u64) -> Option<u32>
        requires { tick < length self.now }
        ensures { result ≡ slice_index_or self.now tick None }
    {
        let stretches = self.stretches.as_slice();
        stretches[stretch_of(stretches, tick)].who
    }

    /// Returns the last entry.
    pub fn last(&self) -> Option<u32>
        requires { 0 < length self.now }
        ensures { result ≡ slice_index_or self.now (length self.now - 1) None }
    {
        let stretches = self.stretches.as_slice();
        stretches[stretches.len() - 1].who
    }

    /// Returns the tick up to which the entry of `tick` stays: the first later tick with another
    /// entry, or the number of entries.
    pub fn stretch_end(&self, tick: u64) -> u64
        requires { tick < length self.now }
        ensures { IsStretchEnd self.now tick result }
    {
        let stretches = self.stretches.as_slice();
        stretches[stretch_of(stretches, tick)].end
    }

    /// Returns the longest stretches, in order.
    pub fn as_slice(&self) -> &[Stretch]
        ensures { AreStretchesOf self.now result.now }
    {
        self.stretches.as_slice()
    }
}
