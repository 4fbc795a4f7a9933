//! When the jobs of a group read and write. Times are in ticks.
ghost use Rattle.std.specs.Prelude.{◌≡◌, ◌+◌, ◌^◌, ◌<◌, ◌≤◌};
ghost use Rattle.cl_exact.specs.Inner.Beats.{IsBeat, read_at, write_at, first_reader, last_writer};

use cl_time::ceil_div;

/// The moments of a group: its job `k` reads at `offset + k * period`, and writes its deadline
/// later.
#[derive(Clone, Copy, Default)]
pub(crate) struct Beat {
    pub(crate) offset: u64,
    pub(crate) period: u64,
    pub(crate) deadline: u64,
}

impl Beat {
    /// Computes when a job reads.
    pub(crate) fn read(&self, job: u64) -> u64
        requires { read_at self.now job < 2 ^ 64 }
        ensures { result ≡ read_at self.now job }
    {
        self.offset + job * self.period
    }

    /// Computes when a job writes.
    pub(crate) fn write(&self, job: u64) -> u64
        requires { write_at self.now job < 2 ^ 64 }
        ensures { result ≡ write_at self.now job }
    {
        self.read(job) + self.deadline
    }

    /// Finds the first job that reads at or after a moment.
    pub(crate) fn first_reader(&self, moment: u64) -> u64
        requires { IsBeat self.now }
        ensures { result ≡ first_reader self.now moment }
    {
        ceil_div(moment.saturating_sub(self.offset), self.period)
    }

    /// Finds the last job that writes at or before a moment, which doesn't lie before the first
    /// write.
    pub(crate) fn last_writer(&self, moment: u64) -> u64
        requires beat { IsBeat self.now }
        requires some { self.now.offset + self.now.deadline ≤ moment }
        ensures { result ≡ last_writer self.now moment }
    {
        (moment - (self.offset + self.deadline)) / self.period
    }
}
