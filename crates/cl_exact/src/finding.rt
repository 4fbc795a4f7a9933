//! Exact lengths. Times are in ticks.
ghost use Rattle.std.specs.Prelude.{◌≡◌, ℕ, ◌+◌, ◌-◌, ◌*◌, ◌<◌, ◌≤◌, true, List, length, All, IfOk, IfErr, OnOk, OnErr};
ghost use Rattle.cl_model.specs.{declared.{group.Group.Group, limits.TheConstants.MOST_STEPS}, Groups.{groups_at, IsGroupOf}};
ghost use Rattle.cl_runs.specs.{TaskTiming.System, SystemOf.system_of};
ghost use Rattle.cl_exact.specs.{TimedPeriodic.{are_timed_periodic, is_timed_periodic_chain}, Hyperperiod.{hyper_limit, IsWithinLimit, IsPastLimit}, ExactLengths.AreExactLengths, Ties.AreTied, RunPromises.{HaveResponses, AlwaysIdealUntilTheEnd, AreExactInRuns}, Inner.Beats.AreBeats};
ghost use Rattle.cl_exact.specs.Inner.{Beats.{AreBeatsOf, beat_in, read_at}, Blocks.EARLY, Periods.IsLeastMultiple, Walks.start_up_of, Found.{MOST_HYPERPERIOD, last_beat, IsGreatestReaction, IsOldest, IsForwardWitness, IsAgeWitness, IsSameUpTo}};

use crate::beat::Beat;
use crate::beats::beats_of;
use crate::exact_lengths::ExactLengths;
use crate::hyperperiod::{hyper_limit, hyperperiod};
use crate::limit::HyperLimit;
use crate::meeting::{first_with, greatest_reaction};
use crate::start_up::{first_steady_job, last_steady_job};
use crate::walk::{backward_jobs, forward_jobs};
use crate::witness::Witness;
use cl_model::{Group, ValidModel};
use cl_time::Steps;
use std::sync::ledger::Ledger;

/// Makes the witness of the forward chain from a first job.
fn forward_witness(beats: &[Beat], first: u64) -> Witness
    requires beats { AreBeats beats.now }
    requires some { 1 ≤ first }
    requires early { read_at (beat_in beats.now 0) first ≤ EARLY }
    ensures { IsForwardWitness beats.now first result }
{
    let jobs = forward_jobs(beats, first);
    let last = beats.len() - 1;
    let from = beats[0].read(first - 1);
    let to = beats[last].write(jobs.as_slice()[last]);
    Witness {
        length: to - from,
        from,
        to,
        jobs,
    }
}

/// Makes the witness of the backward chain of a last job, up to the write of the job after it.
fn age_witness(beats: &[Beat], last: u64) -> Witness
    requires beats { AreBeats beats.now }
    requires late { start_up_of beats.now ≤ read_at (last_beat beats.now) last }
    requires early { read_at (last_beat beats.now) last ≤ EARLY }
    ensures { IsAgeWitness beats.now last result }
{
    let jobs = backward_jobs(beats, last);
    let from = beats[0].read(jobs.as_slice()[0]);
    let to = beats[beats.len() - 1].write(last + 1);
    Witness {
        length: to - from,
        from,
        to,
        jobs,
    }
}

/// Makes the witness of the same chain up to the write of its last job, a period earlier.
fn reduced_witness(age: &Witness, period: u64) -> Witness
    requires length { period ≤ age.now.length }
    requires to { period ≤ age.now.to }
    ensures { IsSameUpTo age.now period result }
{
    Witness {
        length: age.length - period,
        from: age.from,
        to: age.to - period,
        jobs: age.jobs.copy(),
    }
}

/// Finds the last job whose backward chain has the greatest age, which equals the greatest
/// reaction: the least such job among those that read at or after the start-up.
///
/// Only the very first backward chain is walked. A forward chain with the greatest reaction ends
/// one job after a backward chain with the greatest age. So the search is for the first forward
/// chain that has this reaction and begins later than the very first backward chain, and the answer
/// is the job before its last one.
fn oldest(beats: &[Beat], count: u64, age: u64) -> u64
    requires beats { AreBeats beats.now }
    requires few { count * (beat_in beats.now 0).period ≤ MOST_HYPERPERIOD }
    requires greatest { IsGreatestReaction beats.now count age }
    ensures oldest { IsOldest beats.now age result }
    ensures early { read_at (last_beat beats.now) result ≤ EARLY }
{
    let walk = backward_jobs(beats, last_steady_job(beats));
    let Some(next) = first_with(beats, walk.as_slice()[0] + 1, count, age) else {
        unreachable!();
    };
    forward_jobs(beats, next).as_slice()[beats.len() - 1] - 1
}

/// Finds the exact lengths of groups with this hyperperiod.
fn exact_lengths(beats: &[Beat], hyperperiod: u64) -> ExactLengths
    requires beats { AreBeats beats.now }
    requires hyperperiod { IsLeastMultiple beats.now hyperperiod }
    requires few { hyperperiod ≤ MOST_HYPERPERIOD }
    ensures exact { (system : System) (groups : List Group) → AreBeatsOf system groups beats.now
        → AreExactLengths system groups result }
    ensures tied { (system : System) (groups : List Group) → AreBeatsOf system groups beats.now
        → AreTied system groups result }
{
    let count = hyperperiod / beats[0].period;
    let greatest = greatest_reaction(beats, first_steady_job(beats), count);
    let age = age_witness(beats, oldest(beats, count, greatest.reaction));
    ExactLengths {
        reaction: forward_witness(beats, greatest.job),
        reduced: reduced_witness(&age, beats[beats.len() - 1].period),
        age,
    }
}

/// Finds the exact reaction, age and reduced age of groups of a valid model that follow each other,
/// a chain of it or a part of one, whose tasks are all timed and periodic, each with a witness: the
/// longest of all their job chains over the ideal moments, once all their tasks have begun. Among
/// equals the witness is the chain of the least first job, or of the least last job for an age or a
/// reduced age.
///
/// The reaction equals the age, and the reduced age is the age less the period of the last task,
/// with the same jobs. Where none of the tasks is late, each legal run reads and writes at the
/// ideal moments until its end, no complete chain of it is longer, and each witness is a complete
/// chain of each run that lasts to its end or, for the reduced age, one period of the last task
/// longer.
///
/// `HyperLimit` comes exactly where the hyperperiod of the groups exceeds the limit, which it
/// carries. The call counts one step, whatever it answers, and takes no memory. Its time grows with
/// the number of groups times the number of first jobs in the hyperperiod, at most a million. If a
/// group is 16 times or more as slow as the first, it grows with the number of groups times the
/// number of jobs of the slowest group in the hyperperiod.
pub fn exact_of_groups<L: Ledger>(
    model: &ValidModel,
    groups: &[Group],
    steps: &mut Steps<L>,
) -> Result<ExactLengths, HyperLimit>
    requires some { 0 < length groups.now }
    requires few { length groups.now ≤ MOST_STEPS }
    requires of_tasks { All (IsGroupOf model.now) groups.now }
    requires timed_periodic { are_timed_periodic (system_of model.now) groups.now ≡ true }
    ensures exact { IfOk result (AreExactLengths (system_of model.now) groups.now) }
    ensures tied { IfOk result (AreTied (system_of model.now) groups.now) }
    ensures in_runs { IfOk result (λ exact. HaveResponses (system_of model.now) groups.now
        → AreExactInRuns (system_of model.now) groups.now exact) }
    ensures ideal { HaveResponses (system_of model.now) groups.now
        → AlwaysIdealUntilTheEnd (system_of model.now) groups.now }
    ensures within { OnOk result (IsWithinLimit (system_of model.now) groups.now) }
    ensures past { OnErr result (IsPastLimit (system_of model.now) groups.now) }
    ensures limit { IfErr result
        (λ past. past.limit ≡ hyper_limit (system_of model.now) groups.now) }
    ensures steps { steps.new ≡ steps.old + 1 }
{
    steps.tick();
    let numbers = beats_of(model, groups);
    let beats = numbers.as_slice();
    let limit = hyper_limit(beats);
    match hyperperiod(beats, limit) {
        Some(hyperperiod) => Ok(exact_lengths(beats, hyperperiod)),
        None => Err(HyperLimit { limit }),
    }
}

/// Finds the exact lengths of a chain of a valid model, given by its number: `exact_of_groups` of
/// its groups. `HyperLimit` comes exactly where the hyperperiod of the chain exceeds the limit,
/// which it carries. The call counts one step, whatever it answers, and takes no memory.
pub fn exact<L: Ledger>(
    model: &ValidModel,
    chain: u32,
    steps: &mut Steps<L>,
) -> Result<ExactLengths, HyperLimit>
    requires is_chain { chain < length model.now.chains }
    requires timed_periodic { is_timed_periodic_chain model.now chain ≡ true }
    ensures exact { IfOk result
        (AreExactLengths (system_of model.now) (groups_at model.now chain)) }
    ensures tied { IfOk result (AreTied (system_of model.now) (groups_at model.now chain)) }
    ensures in_runs { IfOk result
        (λ exact. HaveResponses (system_of model.now) (groups_at model.now chain)
        → AreExactInRuns (system_of model.now) (groups_at model.now chain) exact) }
    ensures ideal { HaveResponses (system_of model.now) (groups_at model.now chain)
        → AlwaysIdealUntilTheEnd (system_of model.now) (groups_at model.now chain) }
    ensures within { OnOk result (IsWithinLimit (system_of model.now) (groups_at model.now chain)) }
    ensures past { OnErr result (IsPastLimit (system_of model.now) (groups_at model.now chain)) }
    ensures limit { IfErr result
        (λ past. past.limit ≡ hyper_limit (system_of model.now) (groups_at model.now chain)) }
    ensures steps { steps.new ≡ steps.old + 1 }
{
    exact_of_groups(model, model.groups(chain), steps)
}
