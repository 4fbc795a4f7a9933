//! Any way to access labels.
ghost use Rattle.std.specs.Prelude.{◌≡◌};
ghost use Rattle.cl_comm.specs.{Windows.window_of, AccessKinds.access_kind_of};
ghost use Rattle.cl_comm.specs.AccessMoments as moments;
ghost use Rattle.cl_comm.specs.Inner.AccessTimes as times;
ghost use Rattle.cl_comm.specs.Inner.KindLaws as laws;

use crate::access::Access;
use crate::explicit::Explicit;
use crate::implicit::Implicit;
use crate::spot::{Spot, Window};
use crate::timed::Timed;
use cl_model::AccessKind;

/// A way to access labels, of whichever kind.
#[derive(Clone, Copy, PartialEq, Eq)]
pub enum AnyAccess {
    Explicit(Explicit),
    Implicit(Implicit),
    Timed(Timed),
}

impl AnyAccess {
    /// Returns the way in which tasks of this kind access labels.
    pub fn of(kind: AccessKind) -> AnyAccess
        ensures { access_kind_of result ≡ kind }
    {
        match kind {
            AccessKind::Explicit => AnyAccess::Explicit(Explicit),
            AccessKind::Implicit => AnyAccess::Implicit(Implicit),
            AccessKind::Timed => AnyAccess::Timed(Timed),
        }
    }
}

impl Access for AnyAccess {
    ghost accesses = { λ a task. task.access ≡ access_kind_of a };

    ghost window = { λ a. window_of (access_kind_of a) };

    ghost runs_on_reads = { λ a. moments.runs_on_reads (access_kind_of a) };

    ghost reads = { λ a. moments.ReadsAs (access_kind_of a) };

    ghost writes = { λ a. moments.WritesAs (access_kind_of a) };

    fn window(&self, spot: Spot, response: u64) -> Window {
        match self {
            AnyAccess::Explicit(access) => access.window(spot, response),
            AnyAccess::Implicit(access) => access.window(spot, response),
            AnyAccess::Timed(access) => access.window(spot, response),
        }
    }

    fn runs_on_reads(&self) -> bool {
        match self {
            AnyAccess::Explicit(access) => access.runs_on_reads(),
            AnyAccess::Implicit(access) => access.runs_on_reads(),
            AnyAccess::Timed(access) => access.runs_on_reads(),
        }
    }

    ghost reads_come_late = { λ a. laws.reads_come_late (access_kind_of a) };

    ghost writes_come_late = { λ a. laws.writes_come_late (access_kind_of a) };

    ghost writes_come_in_time = { λ a. laws.writes_come_in_time (access_kind_of a) };

    ghost finished_jobs_read = { λ a. laws.finished_jobs_read (access_kind_of a) };

    ghost finished_jobs_write = { λ a. laws.finished_jobs_write (access_kind_of a) };

    ghost windows_end_by_the_deadline = { λ a. times.windows_end_by_the_deadline (access_kind_of a) };

    ghost reads_rise = { λ a. laws.reads_rise (access_kind_of a) };

    ghost writes_rise = { λ a. laws.writes_rise (access_kind_of a) };

    ghost readers_run = { λ a. laws.readers_run (access_kind_of a) };

    ghost readers_write_by_their_finish = { λ a. laws.readers_write_by_their_finish (access_kind_of a) };
}
