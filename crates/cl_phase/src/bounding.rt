//! The tight bounds of a chain, and of a part of one. Times are in ticks.
ghost use Rattle.std.specs.Prelude.{◌≡◌, ◌<◌, ◌≤◌, length, map, All};
ghost use Rattle.cl_model.specs.{declared.{limits.TheConstants.MOST_STEPS, group.Group.Group}, Groups.IsGroupOf, Validity.IsValid};
ghost use Rattle.cl_runs.specs.SystemOf.{system_of};
ghost use Rattle.cl_hop.specs.{Hops.IsNear, declared.group_timing.GroupTiming.GroupTiming};
ghost use Rattle.cl_phase.specs.TightBounds.{tight_bounds};

use crate::course::course_of;
use crate::scanning::longest;
use cl_hop::{Bounds, GroupTiming};
use cl_model::{Group, ValidModel};

/// Finds the tight bounds of groups of a valid model that follow each other, a chain of it or a
/// part of one, from what is known of each. The bounds are the longest walks along the groups, by
/// their phases as far as these are kept. They are at least the reaction, the age, the reduced age
/// and the delay of each chain of these groups in each legal run, of any length, if what is known
/// of the groups always holds.
///
/// It takes no memory, counts no step, and never fails. Its time grows at most with the number of
/// arrivals of the slowest group in the hyperperiod, at most a million, times the number of groups,
/// and where phases shift evenly against each other only with how often their order changes.
pub fn tight_bounds(model: &ValidModel, groups: &[Group], timings: &[GroupTiming]) -> Bounds
    requires some { 0 < length groups.now }
    requires few { length groups.now ≤ MOST_STEPS }
    requires of_tasks { All (IsGroupOf model.now) groups.now }
    requires as_many { length timings.now ≡ length groups.now }
    requires near { All IsNear timings.now }
    ensures bounds { (timing : Group → GroupTiming) → timings.now ≡ map timing groups.now
        → result ≡ tight_bounds (system_of model.now) timing groups.now }
    ensures valid { IsValid model.now }
{
    let course = course_of(model, groups, timings);
    let stops = course.stops.as_slice();
    let place = course.keeping.slowest(stops);
    let longest = longest(stops, course.ends, place, course.keeping.hyperperiod);
    Bounds::new(
        longest.length,
        longest.length,
        longest.reduced,
        longest.delay,
    )
}
