//! The bounds of a chain, and of a part of one. Times are in ticks.
ghost use Rattle.std.specs.Prelude.{◌≡◌, ℕ, ◌+◌, ◌^◌, ◌<◌, ◌≤◌, false, length, take, slice_index, All};
ghost use Rattle.cl_model.specs.{declared.limits.TheConstants.MOST_STEPS, Groups.{groups_at, IsGroupOf}, Validity.IsValid};
ghost use Rattle.cl_runs.specs.SystemOf.{system_of};
ghost use Rattle.cl_stim.specs.Integers.{IsIntegerWithin};
ghost use Rattle.cl_hop.specs.{Bounds.AreBoundsOf, Promises.AreSafe, Sums.sums_of};
ghost use Rattle.cl_bound.specs.{Answers.{answers_of, answer_at, is_late, NoneIsLate}, Bounds.{settled_timing, settled_timings, bounds_of}};

use crate::answer::TaskAnswer;
use cl_hop::{Bounds, GroupTiming, Sums};
use cl_model::{Group, List, MOST_STEPS, ValidModel};
use cl_time::Steps;
use std::sync::ledger::Ledger;

/// Puts together what the bounds know of a group of a valid model, from the answers for all its
/// tasks. The group's task isn't late.
pub fn timing_of(model: &ValidModel, group: Group, settled: &List<TaskAnswer>) -> GroupTiming
    requires group { IsGroupOf model.now group }
    requires answers { settled.now ≡ answers_of (system_of model.now) }
    requires not_late { is_late (answer_at settled.now group.task) ≡ false }
    ensures timing { result ≡ settled_timing (system_of model.now) group }
    ensures valid { IsValid model.now }
{
    let response = settled.as_slice()[group.task as usize].response();
    GroupTiming::of(model, group, response)
}

/// Sums the hops from a first group along the groups after it.
fn sums_along(
    model: &ValidModel,
    first: GroupTiming,
    groups: &[Group],
    settled: &List<TaskAnswer>,
) -> Sums
    requires few { length groups.now ≤ MOST_STEPS }
    requires of_tasks { All (IsGroupOf model.now) groups.now }
    requires answers { settled.now ≡ answers_of (system_of model.now) }
    requires not_late { NoneIsLate settled.now groups.now }
    ensures sums { result ≡ sums_of first (settled_timings (system_of model.now) groups.now) }
    ensures forward { IsIntegerWithin (2 ^ 100) result.forward }
    ensures backward { IsIntegerWithin (2 ^ 100) result.backward }
{
    let mut sums = Sums::new(first);
    for group in groups {
        let next = timing_of(model, *group, settled);
        sums = sums.with(next);
    }
    sums
}

/// Finds the bounds of groups of a valid model that follow each other, a chain of it or a part of
/// one, from the answer for each task of the model. None of the groups' tasks is late. The bounds
/// are the sums over signed numbers that define them, and at least the reaction, the age, the
/// reduced age and the delay of each chain of these groups in each legal run, of any length.
///
/// It counts one step, takes no memory, and never fails. It looks at each group once.
pub fn bound_of_groups<L: Ledger>(
    model: &ValidModel,
    groups: &[Group],
    settled: &List<TaskAnswer>,
    steps: &mut Steps<L>,
) -> Bounds
    requires some { 0 < length groups.now }
    requires few { length groups.now ≤ MOST_STEPS }
    requires of_tasks { All (IsGroupOf model.now) groups.now }
    requires answers { settled.now ≡ answers_of (system_of model.now) }
    requires not_late { NoneIsLate settled.now groups.now }
    ensures sums { AreBoundsOf (settled_timings (system_of model.now) groups.now) result }
    ensures bounds { result ≡ bounds_of (system_of model.now) groups.now }
    ensures safe { AreSafe (system_of model.now) groups.now result }
    ensures steps { steps.new ≡ steps.old + 1 }
{
    steps.tick();
    let first = timing_of(model, groups[0], settled);
    sums_along(model, first, &groups[1..], settled).bounds(&first)
}

/// Finds the bounds on the reactions of the front parts of groups of a valid model that follow each
/// other, the shortest part first: those that `bound_of_groups` finds, each from the sums of the
/// part before it. None of the groups' tasks is late. The numbers past the last group are 0.
///
/// It counts one step, takes no memory, and never fails. It looks at each group once.
pub fn reaction_bounds<L: Ledger>(
    model: &ValidModel,
    groups: &[Group],
    settled: &List<TaskAnswer>,
    steps: &mut Steps<L>,
) -> [u64; MOST_STEPS]
    requires some { 0 < length groups.now }
    requires few { length groups.now ≤ MOST_STEPS }
    requires of_tasks { All (IsGroupOf model.now) groups.now }
    requires answers { settled.now ≡ answers_of (system_of model.now) }
    requires not_late { NoneIsLate settled.now groups.now }
    ensures bounds { (place : ℕ) → place < length groups.now
        → slice_index result place ≡ (bounds_of (system_of model.now) (take (place + 1) groups.now)).reaction }
    ensures steps { steps.new ≡ steps.old + 1 }
{
    steps.tick();
    let first = timing_of(model, groups[0], settled);
    let mut sums = Sums::new(first);
    let mut reactions = [0; MOST_STEPS];
    reactions[0] = sums.bounds(&first).reaction();
    for place in 1..groups.len() {
        sums = sums.with(timing_of(model, groups[place], settled));
        reactions[place] = sums.bounds(&first).reaction();
    }
    reactions
}

/// Finds the bounds of a chain of a valid model, given by its number: `bound_of_groups` of its
/// groups. It counts one step and takes no memory.
pub fn bound<L: Ledger>(
    model: &ValidModel,
    chain: u32,
    settled: &List<TaskAnswer>,
    steps: &mut Steps<L>,
) -> Bounds
    requires is_chain { chain < length model.now.chains }
    requires answers { settled.now ≡ answers_of (system_of model.now) }
    requires not_late { NoneIsLate settled.now (groups_at model.now chain) }
    ensures sums { AreBoundsOf (settled_timings (system_of model.now) (groups_at model.now chain)) result }
    ensures bounds { result ≡ bounds_of (system_of model.now) (groups_at model.now chain) }
    ensures safe { AreSafe (system_of model.now) (groups_at model.now chain) result }
    ensures steps { steps.new ≡ steps.old + 1 }
{
    bound_of_groups(model, model.groups(chain), settled, steps)
}
