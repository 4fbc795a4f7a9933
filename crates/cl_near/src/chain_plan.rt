//! What a run of a chain is to be so that it comes near to a bound. Times are in ticks.
ghost use Rattle.std.specs.Prelude.{◌≡◌, ◌<◌, ◌≤◌, length, All, IfOk};
ghost use Rattle.cl_model.specs.{declared.limits.TheConstants.MOST_STEPS, Groups.IsGroupOf};
ghost use Rattle.cl_hop.specs.Hops.{IsNear};
ghost use Rattle.cl_near.specs.Plans.{IsPlanOfGroups};

use crate::chain_jobs::ChainJobs;
use crate::cores::cores_of;
use crate::moments::tick_of;
use cl_hop::GroupTiming;
use cl_model::{Group, List, RequirementKind, ValidModel};
use cl_phase::whole_walk;
use cl_time::NoMemory;
use std::alloc::Global;

/// What a run of a chain is to be: how long it lasts, and what its jobs keep to.
#[derive(Drop)]
pub struct ChainPlan {
    /// How many ticks the run lasts.
    pub(crate) ticks: u64,
    /// Which cores the tasks of the chain are of, by their numbers.
    pub(crate) cores: List<bool>,
    /// What its jobs keep to.
    pub(crate) jobs: ChainJobs,
}

/// Finds the greatest deadline of the tasks of groups.
fn greatest_deadline(model: &ValidModel, groups: &[Group]) -> u64
    requires { All (IsGroupOf model.now) groups.now }
{
    let mut greatest = 0;
    for group in groups {
        greatest = model.deadline_of(group.task).max(greatest);
    }
    greatest
}

impl ChainPlan {
    /// Returns how many ticks the run lasts.
    pub fn ticks(&self) -> u64
        ensures { result ≡ self.now.ticks }
    {
        self.ticks
    }

    /// Returns which cores the tasks of the chain are of, by their numbers.
    pub fn cores(&self) -> &[bool]
        ensures { result.now ≡ self.now.cores }
    {
        self.cores.as_slice()
    }
}

/// Plans a run in which groups of a valid model that follow each other, a chain of it, come near to
/// a bound of this kind. Of each group it is known how early it reads and how late it has written.
///
/// `NoMemory` comes where there is no memory for the plan; it leaves nothing.
pub fn plan_chain(
    alloc: Global,
    model: &ValidModel,
    groups: &[Group],
    timings: &[GroupTiming],
    kind: RequirementKind,
    bound: u64,
) -> Result<ChainPlan, NoMemory>
    requires some { 0 < length groups.now }
    requires few { length groups.now ≤ MOST_STEPS }
    requires of_tasks { All (IsGroupOf model.now) groups.now }
    requires as_many { length timings.now ≡ length groups.now }
    requires near { All IsNear timings.now }
    ensures { IfOk result (IsPlanOfGroups model.now groups.now) }
{
    let walk = whole_walk(alloc, model, groups, timings, kind, bound)?;
    let ticks = tick_of(walk.until).saturating_add(greatest_deadline(model, groups));
    let cores = cores_of(alloc, model, groups)?;
    let mut jobs = ChainJobs::new(alloc);
    jobs.add_walk(model, groups, timings, &walk, kind)?;
    jobs.put_in_order();
    Ok(ChainPlan { ticks, cores, jobs })
}
