//! Hops over lists of moments: finding the earliest reader and the latest writer. Moments are in
//! ticks.
ghost use Rattle.std.specs.Prelude.{◌≡◌, ℕ, Some, None, true, false, cond, is_some, ◌+◌, ◌^◌, ◌<◌, ◌≤◌, MatchOption};
ghost use Rattle.cl_check.specs.JobMoments.{IsMomentOf};
ghost use Rattle.cl_chain.specs.Inner.{GroupTables.{moment_at, NeverFall}, Hops.{IsFirstReader, IsLastWriter, IsWrite, ArePassed}};

/// Returns the moment of a job, if it has one.
pub(crate) fn moment_at(moments: &[Option<u64>], job: usize) -> Option<u64>
    ensures { result ≡ moment_at moments.now job }
{
    if job < moments.len() {
        moments[job]
    } else {
        None
    }
}

/// Returns the write of a job of number 1 or more, if it has one.
pub(crate) fn write_of(writes: &[Option<u64>], job: usize) -> Option<u64>
    ensures { IsMomentOf (IsWrite writes.now job) result }
{
    if job == 0 {
        None
    } else {
        moment_at(writes, job)
    }
}

/// Finds the first job that reads at or after a write. No job below `from` does.
pub(crate) fn earliest_reader(reads: &[Option<u64>], from: usize, write: u64) -> Option<usize>
    requires { (k r : ℕ) → k < from → moment_at reads.now k ≡ Some r → r < write }
    ensures { MatchOption result
        ((k r : ℕ) → moment_at reads.now k ≡ Some r → r < write) (IsFirstReader reads.now write) }
{
    for job in from..reads.len() {
        if let Some(read) = reads[job] {
            if write <= read {
                return Some(job);
            }
        }
    }
    None
}

/// Checks whether a job writes, and after a read.
fn is_after(write: Option<u64>, read: u64) -> bool
    ensures after { result ≡ true → (w : ℕ) × (write ≡ Some w) × (read < w) }
    ensures by { result ≡ false → (w : ℕ) → write ≡ Some w → w ≤ read }
{
    match write {
        Some(write) => read < write,
        None => false,
    }
}

/// A walk over writers for reads that never fall: how many jobs are passed, and which of these is
/// the last that writes.
#[derive(Clone, Copy)]
pub(crate) struct Writers {
    passed: usize,
    last: Option<usize>,
}

impl Writers {
    /// Starts a walk that has passed no job.
    pub(crate) fn new() -> Writers
        ensures { result ≡ record { passed = 0; last = None } }
    {
        Writers {
            passed: 0,
            last: None,
        }
    }

    /// Passes the next job, which has this write.
    fn pass(&mut self, write: Option<u64>)
        requires { self.old.passed + 1 < 2 ^ 64 }
        ensures { self.new ≡ record { passed = self.old.passed + 1; last = cond (is_some write) (Some self.old.passed) self.old.last } }
    {
        if write.is_some() {
            self.last = Some(self.passed);
        }
        self.passed += 1;
    }

    /// Finds the last job that writes at or before a read, and passes all jobs that do.
    pub(crate) fn latest_writer(&mut self, writes: &[Option<u64>], read: u64) -> Option<usize>
        requires order { NeverFall writes.now }
        requires passed { ArePassed writes.now self.old read }
        ensures passed { ArePassed writes.now self.new read }
        ensures writer { IsMomentOf (IsLastWriter writes.now read) result }
    {
        for job in self.passed..writes.len() {
            if is_after(writes[job], read) {
                return self.last;
            }
            self.pass(writes[job]);
        }
        self.last
    }
}
