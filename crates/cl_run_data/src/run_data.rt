//! Runs as data: a job table, and the entries of each core. Times are in ticks.
ghost use Rattle.std.specs.Prelude.{◌≡◌, ◌+◌, ◌-◌, ◌<◌, ◌≤◌, [], ◌++◌, length, replicate, slice_set, IfOk, OnOk, OnErr};
ghost use Rattle.cl_runs.specs.Run.{core_entries, entry_at};
ghost use Rattle.cl_run_data.specs.Stretches.{AreStretchesOf, IsStretchEnd};

use crate::stretches::{Stretch, Stretches};
use cl_runs::JobTable;
use cl_time::NoMemory;
use std::alloc::Global;
use std::marker::Model;

/// A job table and, for each core, a list of entries: for each tick the task that runs, or none
/// where the core idles. A long stretch of one entry takes no more time or memory than a short one.
#[derive(Drop)]
pub struct RunData {
    table: JobTable,
    cores: Vec<Stretches>,
}

impl Model for RunData {
    ghost use Rattle.cl_runs.specs.Run.{Run};

    ghost Value = { Run };

    ghost view = { λ run. record { table = run.table; entries = run.cores.items } };
}

impl RunData {
    /// Creates a run with a job table and an empty list of entries for each core. `NoMemory` comes
    /// where there is no memory for the lists; then the table is dropped.
    pub fn start(alloc: Global, table: JobTable, cores: u32) -> Result<RunData, NoMemory>
        ensures { IfOk result
            (λ run. run ≡ record { table = table; entries = replicate cores [] }) }
    {
        let mut lists = Vec::new(alloc);
        for _ in 0..cores {
            lists.push(Stretches::new(alloc))?;
        }
        Ok(RunData {
            table,
            cores: lists,
        })
    }

    /// Appends an entry for `ticks` ticks to the list of a core. After `NoMemory` the run is as it
    /// was.
    #[inline(always)]
    pub fn push(&mut self, core: u32, who: Option<u32>, ticks: u64) -> Result<(), NoMemory>
        requires is_core { core < length self.old.entries }
        requires within { length (core_entries self.old core) + ticks ≤ self.old.table.ticks }
        ensures ok { OnOk result
            (self.new
            ≡ record self.old {
              entries = slice_set self.old.entries core (core_entries self.old core ++ replicate ticks who);
            }) }
        ensures err { OnErr result (self.new ≡ self.old) }
    {
        // read for its range: the list's length fits
        let _most = self.table.ticks;
        let list = &mut self.cores[core as usize];
        list.push(who, ticks)?;
        Ok(())
    }

    /// Returns the job table.
    pub fn table(&self) -> &JobTable
        ensures { result.now ≡ self.now.table }
    {
        &self.table
    }

    /// Returns the number of entries of a core.
    pub fn filled(&self, core: u32) -> u64
        requires { core < length self.now.entries }
        ensures { result ≡ length (core_entries self.now core) }
    {
        self.cores[core as usize].filled()
    }

    /// Returns the entry of a core at a tick. Takes time logarithmic in the number of stretches.
    pub fn entry(&self, core: u32, tick: u64) -> Option<u32>
        requires is_core { core < length self.now.entries }
        requires is_tick { tick < length (core_entries self.now core) }
        ensures { result ≡ entry_at self.now core tick }
    {
        self.cores[core as usize].entry(tick)
    }

    /// Returns the last entry of a core. Takes constant time.
    pub fn last_entry(&self, core: u32) -> Option<u32>
        requires is_core { core < length self.now.entries }
        requires some { 0 < length (core_entries self.now core) }
        ensures { result ≡ entry_at self.now core (length (core_entries self.now core) - 1) }
    {
        self.cores[core as usize].last()
    }

    /// Returns the tick up to which a core keeps the entry that it has at `tick`: the first later
    /// tick with another entry, or the number of its entries. Takes time logarithmic in the number
    /// of stretches.
    pub fn stretch_end(&self, core: u32, tick: u64) -> u64
        requires is_core { core < length self.now.entries }
        requires is_tick { tick < length (core_entries self.now core) }
        ensures { IsStretchEnd (core_entries self.now core) tick result }
    {
        self.cores[core as usize].stretch_end(tick)
    }

    /// Returns the longest stretches of a core, in order: the first begins at tick 0, and each
    /// other one where the one before it ends. Going over them takes constant time for each.
    pub fn stretches(&self, core: u32) -> &[Stretch]
        requires { core < length self.now.entries }
        ensures { AreStretchesOf (core_entries self.now core) result.now }
    {
        self.cores[core as usize].as_slice()
    }
}
