//! Explicit access.
ghost use Rattle.std.specs.Prelude.{◌≡◌};
ghost use Rattle.cl_model.specs.declared.task.AccessKind.TheVariants as kinds;
ghost use Rattle.cl_comm.specs.Windows.{window_of};
ghost use Rattle.cl_comm.specs.AccessMoments as moments;
ghost use Rattle.cl_comm.specs.Inner.AccessTimes as times;
ghost use Rattle.cl_comm.specs.Inner.KindLaws as laws;

use crate::access::Access;
use crate::spot::{Spot, Window};

/// Explicit access: each runnable reads at its start and writes at its finish.
#[derive(Clone, Copy, PartialEq, Eq)]
pub struct Explicit;

impl Access for Explicit {
    ghost accesses = { λ _ task. task.access ≡ kinds.Explicit };

    ghost window = { λ _. window_of kinds.Explicit };

    ghost runs_on_reads = { λ _. moments.runs_on_reads kinds.Explicit };

    ghost reads = { λ _. moments.ReadsAs kinds.Explicit };

    ghost writes = { λ _. moments.WritesAs kinds.Explicit };

    fn window(&self, spot: Spot, response: u64) -> Window {
        Window {
            rlo: spot.before,
            wlo: spot.before + spot.own,
            whi: response - spot.after,
        }
    }

    fn runs_on_reads(&self) -> bool {
        true
    }

    ghost reads_come_late = { λ _. laws.reads_come_late kinds.Explicit };

    ghost writes_come_late = { λ _. laws.writes_come_late kinds.Explicit };

    ghost writes_come_in_time = { λ _. laws.writes_come_in_time kinds.Explicit };

    ghost finished_jobs_read = { λ _. laws.finished_jobs_read kinds.Explicit };

    ghost finished_jobs_write = { λ _. laws.finished_jobs_write kinds.Explicit };

    ghost windows_end_by_the_deadline = { λ _. times.windows_end_by_the_deadline kinds.Explicit };

    ghost reads_rise = { λ _. laws.reads_rise kinds.Explicit };

    ghost writes_rise = { λ _. laws.writes_rise kinds.Explicit };

    ghost readers_run = { λ _. laws.readers_run kinds.Explicit };

    ghost readers_write_by_their_finish = { λ _. laws.readers_write_by_their_finish kinds.Explicit };
}
