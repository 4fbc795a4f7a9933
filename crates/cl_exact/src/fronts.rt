//! The exact reactions of the front parts of groups that follow each other. Times are in ticks.
ghost use Rattle.std.specs.Prelude.{◌≡◌, ℕ, ◌+◌, ◌<◌, ◌≤◌, None, List, length, take, All, slice_index_or, IfSome, MatchOption};
ghost use Rattle.cl_model.specs.{declared.{group.Group.Group, limits.TheConstants.MOST_STEPS}, Groups.IsGroupOf};
ghost use Rattle.cl_runs.specs.{TaskTiming.System, SystemOf.system_of};
ghost use Rattle.cl_exact.specs.{Hyperperiod.{IsWithinLimit, IsPastLimit}, ExactReactions.AreFrontReactions, Inner.{Beats.{AreBeats, AreBeatsOf}, Periods.IsLeastMultiple, Found.MOST_HYPERPERIOD, Fronts.{IsGreatestSteady, IsReactionOfBeats, IsWidest, IsShared}}};

use crate::beat::Beat;
use crate::beats::{beats_of, timed_periodic_count};
use crate::front_scan::greatest_of_fronts;
use crate::hyperperiod::{hyper_limit, hyperperiod};
use crate::meeting::{even_count, greatest_reaction};
use crate::start_up::first_steady_job;
use cl_model::{Group, MOST_STEPS, ValidModel};
use cl_time::Steps;
use std::sync::ledger::Ledger;

/// A front part, by its number of groups and its hyperperiod.
#[derive(Clone, Copy)]
struct Front {
    size: usize,
    hyperperiod: u64,
}

/// The greatest reactions of the front parts of up to `size` groups.
#[derive(Clone, Copy)]
struct Scanned {
    size: usize,
    reactions: [u64; MOST_STEPS],
}

/// Computes the hyperperiod of groups, if it is within their own limit.
fn hyperperiod_within(beats: &[Beat]) -> Option<u64>
    requires { AreBeats beats.now }
    ensures least { IfSome result (IsLeastMultiple beats.now) }
    ensures few { IfSome result (λ ticks. ticks ≤ MOST_HYPERPERIOD) }
    ensures limit { (system : System) (groups : List Group) → AreBeatsOf system groups beats.now
        → MatchOption result (IsPastLimit system groups) (λ _. IsWithinLimit system groups) }
{
    hyperperiod(beats, hyper_limit(beats))
}

/// Finds the longest front part without a much slower group whose hyperperiod is within its limit.
fn widest(beats: &[Beat]) -> Option<Front>
    requires { AreBeats beats.now }
    ensures { IfSome result (IsWidest beats.now) }
{
    for size in (1..even_count(beats) + 1).rev() {
        if let Some(hyperperiod) = hyperperiod_within(&beats[..size]) {
            return Some(Front { size, hyperperiod });
        }
    }
    None
}

/// Finds the greatest reactions of all front parts without a much slower group, in one scan. There
/// are none where no such part has a hyperperiod within its limit.
fn scan_fronts(beats: &[Beat]) -> Scanned
    requires { AreBeats beats.now }
    ensures { IsShared beats.now result }
{
    match widest(beats) {
        Some(front) => Scanned {
            size: front.size,
            reactions: greatest_of_fronts(
                beats,
                front.size,
                first_steady_job(&beats[..front.size]),
                front.hyperperiod / beats[0].period,
            ),
        },
        None => Scanned {
            size: 0,
            reactions: [0; MOST_STEPS],
        },
    }
}

/// Finds the greatest reaction of groups with this hyperperiod.
fn reaction_alone(beats: &[Beat], hyperperiod: u64) -> u64
    requires beats { AreBeats beats.now }
    requires hyperperiod { IsLeastMultiple beats.now hyperperiod }
    requires few { hyperperiod ≤ MOST_HYPERPERIOD }
    ensures { IsGreatestSteady beats.now result }
{
    let count = hyperperiod / beats[0].period;
    greatest_reaction(beats, first_steady_job(beats), count).reaction
}

/// Finds the exact reaction of the front part up to a place, if its hyperperiod is within its
/// limit.
fn reaction_up_to(beats: &[Beat], place: usize, scanned: &Scanned) -> Option<u64>
    requires beats { AreBeats beats.now }
    requires place { place < length beats.now }
    requires scanned { IsShared beats.now scanned.now }
    ensures { IsReactionOfBeats (take (place + 1) beats.now) result }
{
    let front = &beats[..place + 1];
    let hyperperiod = hyperperiod_within(front)?;
    if place < scanned.size {
        Some(scanned.reactions[place])
    } else {
        Some(reaction_alone(front, hyperperiod))
    }
}

/// Returns `None` for each front part.
fn no_reactions() -> [Option<u64>; MOST_STEPS]
    ensures room { length result ≡ MOST_STEPS }
    ensures none { (place : ℕ) → slice_index_or result place None ≡ None }
{
    [None; MOST_STEPS]
}

/// Finds the exact reactions of the front parts, the shortest part first.
fn reactions_of(beats: &[Beat]) -> [Option<u64>; MOST_STEPS]
    requires { AreBeats beats.now }
    ensures fronts { (place : ℕ) → place < length beats.now
        → IsReactionOfBeats (take (place + 1) beats.now) (slice_index_or result place None) }
    ensures rest { (place : ℕ) → length beats.now ≤ place
        → slice_index_or result place None ≡ None }
{
    let mut reactions = no_reactions();
    let scanned = scan_fronts(beats);
    for place in 0..beats.len() {
        reactions[place] = reaction_up_to(beats, place, &scanned);
    }
    reactions
}

/// Finds the exact reactions of the front parts of groups of a valid model that follow each other,
/// the shortest part first. If the tasks of a part are all timed and periodic and its hyperperiod
/// is within its own limit, this is the reaction that `exact_of_groups` finds. It is `None` for
/// each other part, and past the last group.
///
/// It counts one step and takes no memory. The parts without a group 16 times or more as slow as
/// the first share one scan over first jobs, at most a million, whose time grows with the number of
/// these jobs and of the groups. Each other part whose hyperperiod is within its limit has a scan
/// over the jobs of its slowest group.
pub fn exact_reactions<L: Ledger>(
    model: &ValidModel,
    groups: &[Group],
    steps: &mut Steps<L>,
) -> [Option<u64>; MOST_STEPS]
    requires few { length groups.now ≤ MOST_STEPS }
    requires of_tasks { All (IsGroupOf model.now) groups.now }
    ensures reactions { AreFrontReactions (system_of model.now) groups.now result }
    ensures steps { steps.new ≡ steps.old + 1 }
{
    steps.tick();
    let count = timed_periodic_count(model, groups);
    if count == 0 {
        return no_reactions();
    }
    let numbers = beats_of(model, &groups[..count]);
    reactions_of(numbers.as_slice())
}
