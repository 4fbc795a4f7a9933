//! A walk over the stretches of a core or of a task's own list, from one executed tick of a task to
//! a later one.
ghost use Rattle.std.specs.Prelude.{◌≡◌, ◌+◌, ◌-◌, ◌^◌, ◌<◌, ◌≤◌, cond, true, MatchOption};
ghost use Rattle.cl_runs.specs.Run.{is_task};
ghost use Rattle.cl_run_data.specs.Stretches.{entries_from, AreLongest};
ghost use Rattle.cl_check.specs.{JobMoments.IsMomentOf, Inner.Walks.{RunsAfter, StandsIn}};

use cl_run_data::Stretch;

/// Where a walk stands: at the start of a stretch, or at the end of the last one.
#[derive(Clone, Copy)]
pub(crate) struct Walk {
    /// The index of the stretch.
    place: usize,
    /// The tick at which the stretch starts.
    start: u64,
    /// In how many ticks before that one the task runs.
    executed: u64,
}

impl Walk {
    /// Starts a walk at the first stretch.
    pub(crate) fn new() -> Walk
        ensures { result ≡ record { place = 0; start = 0; executed = 0 } }
    {
        Walk {
            place: 0,
            start: 0,
            executed: 0,
        }
    }

    /// Finds the tick of the stretch in which the task runs after `work` executed ticks, if there
    /// is one.
    fn tick_in(&self, stretch: Stretch, task: u32, work: u64) -> Option<u64>
        requires after { self.now.start < stretch.end }
        requires ahead { self.now.executed ≤ work }
        ensures { MatchOption result
            (self.now.executed + cond (is_task task stretch.who) (stretch.end - self.now.start) 0
            ≤ work)
            (λ tick. (is_task task stretch.who ≡ true)
            × (tick + self.now.executed ≡ self.now.start + work) × (tick < stretch.end)) }
    {
        let ahead = work - self.executed;
        if stretch.who == Some(task) && ahead < stretch.end - self.start {
            Some(self.start + ahead)
        } else {
            None
        }
    }

    /// Goes on past the stretch.
    fn pass(&mut self, stretch: Stretch, task: u32)
        requires after { self.old.start < stretch.end }
        requires within { self.old.executed ≤ self.old.start }
        requires place { self.old.place + 1 < 2 ^ 64 }
        ensures { self.new
            ≡ record {
              place = self.old.place + 1;
              start = stretch.end;
              executed = self.old.executed + cond (is_task task stretch.who) (stretch.end - self.old.start) 0;
            } }
    {
        if stretch.who == Some(task) {
            self.executed += stretch.end - self.start;
        }
        self.start = stretch.end;
        self.place += 1;
    }

    /// Finds the tick in which the task runs after `work` executed ticks, if there is one. The walk
    /// goes on to the stretch of that tick, or to the end.
    pub(crate) fn seek(&mut self, stretches: &[Stretch], task: u32, work: u64) -> Option<u64>
        requires longest { AreLongest 0 stretches.now }
        requires stands { StandsIn stretches.now task self.old }
        requires ahead { self.old.executed ≤ work }
        ensures stands { StandsIn stretches.now task self.new }
        ensures ahead { self.new.executed ≤ work }
        ensures tick { IsMomentOf (RunsAfter (entries_from 0 stretches.now) task work) result }
    {
        while self.place < stretches.len() {
            let stretch = stretches[self.place];
            if let Some(tick) = self.tick_in(stretch, task, work) {
                return Some(tick);
            }
            self.pass(stretch, task);
        }
        None
    }
}
