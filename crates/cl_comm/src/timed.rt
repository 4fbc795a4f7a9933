//! Timed access: logical execution time.
ghost use Rattle.std.specs.Prelude.{◌≡◌};
ghost use Rattle.cl_model.specs.declared.task.AccessKind.TheVariants as kinds;
ghost use Rattle.cl_comm.specs.Windows.{window_of};
ghost use Rattle.cl_comm.specs.AccessMoments as moments;
ghost use Rattle.cl_comm.specs.Inner.AccessTimes as times;
ghost use Rattle.cl_comm.specs.Inner.KindLaws as laws;

use crate::access::Access;
use crate::spot::{Spot, Window};

/// Timed access: a job reads at its arrival, and writes at its deadline if it has finished by then.
#[derive(Clone, Copy, PartialEq, Eq)]
pub struct Timed;

impl Access for Timed {
    ghost accesses = { λ _ task. task.access ≡ kinds.Timed };

    ghost window = { λ _. window_of kinds.Timed };

    ghost runs_on_reads = { λ _. moments.runs_on_reads kinds.Timed };

    ghost reads = { λ _. moments.ReadsAs kinds.Timed };

    ghost writes = { λ _. moments.WritesAs kinds.Timed };

    fn window(&self, spot: Spot, _response: u64) -> Window {
        Window {
            rlo: 0,
            wlo: spot.deadline,
            whi: spot.deadline,
        }
    }

    fn runs_on_reads(&self) -> bool {
        false
    }

    ghost reads_come_late = { λ _. laws.reads_come_late kinds.Timed };

    ghost writes_come_late = { λ _. laws.writes_come_late kinds.Timed };

    ghost writes_come_in_time = { λ _. laws.writes_come_in_time kinds.Timed };

    ghost finished_jobs_read = { λ _. laws.finished_jobs_read kinds.Timed };

    ghost finished_jobs_write = { λ _. laws.finished_jobs_write kinds.Timed };

    ghost windows_end_by_the_deadline = { λ _. times.windows_end_by_the_deadline kinds.Timed };

    ghost reads_rise = { λ _. laws.reads_rise kinds.Timed };

    ghost writes_rise = { λ _. laws.writes_rise kinds.Timed };

    ghost readers_run = { λ _. laws.readers_run kinds.Timed };

    ghost readers_write_by_their_finish = { λ _. laws.readers_write_by_their_finish kinds.Timed };
}
