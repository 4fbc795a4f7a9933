//! The groups of a chain, put together for its walks. Times are in ticks.
ghost use Rattle.std.specs.Prelude.{◌≡◌, ◌<◌, ◌≤◌, length, All};
ghost use Rattle.cl_model.specs.{declared.limits.TheConstants.{MOST_TICKS, MOST_STEPS}, Groups.IsGroupOf, Validity.IsValid};
ghost use Rattle.cl_runs.specs.SystemOf.{system_of};
ghost use Rattle.cl_stim.specs.Integers.{IsIntegerWithin};
ghost use Rattle.cl_hop.specs.Hops.{IsNear};
ghost use Rattle.cl_phase.specs.Inner.Course.{first_lag, IsCourseOf};

use crate::keeping::Keeping;
use crate::stop::Stop;
use crate::walk::Ends;
use arrayvec::ArrayVec;
use cl_hop::GroupTiming;
use cl_model::{Group, MOST_STEPS, ValidModel};

/// The groups of a chain, the phases that they keep, and the ends of the chain.
#[derive(Drop)]
pub(crate) struct Course {
    pub(crate) stops: ArrayVec<Stop, MOST_STEPS>,
    pub(crate) keeping: Keeping,
    pub(crate) ends: Ends,
}

/// Finds the lag from the first of some groups to the next one, 0 where there is none.
fn first_lag(timings: &[GroupTiming]) -> i64
    requires near { All IsNear timings.now }
    ensures lag { result ≡ first_lag timings.now }
    ensures small { IsIntegerWithin MOST_TICKS result }
{
    if timings.len() < 2 {
        return 0;
    }
    timings[0].lag(&timings[1]) as i64
}

/// Puts groups of a valid model that follow each other together for walks, from what is known of
/// each.
///
/// It looks at each group once, and takes no memory.
pub(crate) fn course_of(model: &ValidModel, groups: &[Group], timings: &[GroupTiming]) -> Course
    requires some { 0 < length groups.now }
    requires few { length groups.now ≤ MOST_STEPS }
    requires of_tasks { All (IsGroupOf model.now) groups.now }
    requires as_many { length timings.now ≡ length groups.now }
    requires near { All IsNear timings.now }
    ensures course { IsCourseOf (system_of model.now) groups.now timings.now result }
    ensures as_many { length result.stops.items ≡ length groups.now }
    ensures valid { IsValid model.now }
{
    // So that it is known that the model is valid.
    let _ = model.plain();
    let mut stops = ArrayVec::new();
    let mut keeping = Keeping::new();
    for i in 0..groups.len() {
        let (pace, with) = keeping.beside(model.stimulus_of(groups[i].task));
        let lag = first_lag(&timings[i..]);
        stops.push(Stop { pace, lag });
        keeping = with;
    }
    let ends = Ends {
        read: timings[0].read(),
        write: timings[timings.len() - 1].write(),
    };
    Course {
        stops,
        keeping,
        ends,
    }
}
