//! The groups of a chain on its walk, and by how much each just misses what the one before it writes.
//! Times are in ticks, and moments may lie before 0.
ghost use Rattle.std.specs.Prelude.{◌≡◌, ◌+◌, ◌^◌, ◌<◌, ◌+ℤ◌, ◌-ℤ◌, ◌++◌, length, map, OnOk};
ghost use Rattle.cl_model.specs.Groups.{groups_at};
ghost use Rattle.cl_runs.specs.SystemOf.{system_of};
ghost use Rattle.cl_tight.specs.TightTimings.{tight_timing};
ghost use Rattle.cl_stim.specs.Integers.{IsIntegerWithin};
ghost use Rattle.cl_why.specs.{Hops.{missed_arrival, taken_arrival, why_group_line, missed_by_words, lag_words, why_hop_line, why_group_lines}, Shares.free_words, Inner.HasJobsOf};

use cl_explain::{put_group_words, put_hop_head, put_signed};
use cl_hop::GroupTiming;
use cl_model::ValidModel;
use cl_phase::WholeWalk;
use cl_text::Text;
use cl_time::NoMemory;

/// Returns what is said of one that isn't known by its phase.
fn free_words(by_phase: bool) -> &'static [u8]
    ensures { result.now ≡ free_words by_phase }
{
    if by_phase { b"" } else { b" free" }
}

/// Puts the line of the group at a place of a chain: what is known of it, and `free` where it doesn't
/// keep its phase.
fn put_group(
    text: &mut Text,
    model: &ValidModel,
    chain: u32,
    timings: &[GroupTiming],
    walk: &WholeWalk,
    place: u32,
) -> Result<(), NoMemory>
    requires chain { chain < length model.now.chains }
    requires timings { timings.now ≡ map (tight_timing (system_of model.now)) (groups_at model.now chain) }
    requires walk { HasJobsOf (groups_at model.now chain) walk.now }
    requires place { place < length (groups_at model.now chain) }
    ensures { OnOk result (text.new ≡ text.old ++ why_group_line model.now chain walk.now place) }
{
    put_group_words(text, model, chain, place, &timings[place as usize])?;
    text.put(free_words(walk.kept.as_slice()[place as usize]))?;
    text.put(b"\n")
}

/// Computes by how much what the job of the group at a place hands over comes too late for the job
/// of the next group that just misses it.
fn missed_by(walk: &WholeWalk, place: usize, next: usize, lag: i128) -> i128
    requires missed { next < length walk.now.missed }
    requires taken { place < length walk.now.taken }
    requires lag { IsIntegerWithin (2 ^ 64) lag }
    ensures { result ≡ (taken_arrival walk.now place +ℤ lag) -ℤ missed_arrival walk.now next }
{
    let taken = i128::from(walk.taken.as_slice()[place]);
    let missed = i128::from(walk.missed.as_slice()[next]);
    taken + lag - missed
}

/// Puts by how much a hop is missed, where both its groups keep their phases.
fn put_missed_by(
    text: &mut Text,
    walk: &WholeWalk,
    place: usize,
    next: usize,
    lag: i128,
) -> Result<(), NoMemory>
    requires place { next ≡ place + 1 }
    requires kept { next < length walk.now.kept }
    requires missed { next < length walk.now.missed }
    requires taken { next < length walk.now.taken }
    requires lag { IsIntegerWithin (2 ^ 64) lag }
    ensures { OnOk result (text.new ≡ text.old ++ missed_by_words walk.now place lag) }
{
    let kept = walk.kept.as_slice();
    if !kept[place] {
        return Ok(());
    }
    if !kept[next] {
        return Ok(());
    }
    let by = missed_by(walk, place, next, lag);
    text.put(b" missed by ")?;
    put_signed(text, by)
}

/// Puts the lag of the hop from the group at a place to the next and by how much it is missed, where
/// the two groups aren't of one task.
fn put_lag(
    text: &mut Text,
    walk: &WholeWalk,
    place: usize,
    next: usize,
    writer: &GroupTiming,
    reader: &GroupTiming,
) -> Result<(), NoMemory>
    requires place { next ≡ place + 1 }
    requires kept { next < length walk.now.kept }
    requires missed { next < length walk.now.missed }
    requires taken { next < length walk.now.taken }
    ensures { OnOk result (text.new ≡ text.old ++ lag_words walk.now place writer.now reader.now) }
{
    if writer.task() == reader.task() {
        return Ok(());
    }
    let lag = writer.lag(reader);
    text.put(b" lag ")?;
    put_signed(text, lag)?;
    put_missed_by(text, walk, place, next, lag)
}

/// Puts the line of the hop from the group at a place of a chain to the next: how it is bounded, its
/// lag and by how much it is missed.
fn put_hop(
    text: &mut Text,
    model: &ValidModel,
    chain: u32,
    timings: &[GroupTiming],
    walk: &WholeWalk,
    place: u32,
    next: u32,
) -> Result<(), NoMemory>
    requires chain { chain < length model.now.chains }
    requires timings { timings.now ≡ map (tight_timing (system_of model.now)) (groups_at model.now chain) }
    requires walk { HasJobsOf (groups_at model.now chain) walk.now }
    requires place { next ≡ place + 1 }
    requires next { next < length (groups_at model.now chain) }
    ensures { OnOk result (text.new ≡ text.old ++ why_hop_line model.now chain walk.now place) }
{
    let writer = &timings[place as usize];
    let reader = &timings[next as usize];
    put_hop_head(text, model, chain, place, next, writer, reader)?;
    put_lag(text, walk, place as usize, next as usize, writer, reader)?;
    text.put(b"\n")
}

/// Puts the lines of the groups of a chain, in order, with those of the hops between them.
pub(crate) fn put_groups(
    text: &mut Text,
    model: &ValidModel,
    chain: u32,
    timings: &[GroupTiming],
    walk: &WholeWalk,
) -> Result<(), NoMemory>
    requires chain { chain < length model.now.chains }
    requires timings { timings.now ≡ map (tight_timing (system_of model.now)) (groups_at model.now chain) }
    requires walk { HasJobsOf (groups_at model.now chain) walk.now }
    ensures { OnOk result (text.new ≡ text.old ++ why_group_lines model.now chain walk.now) }
{
    let hops = model.group_count(chain) - 1;
    put_group(text, model, chain, timings, walk, 0)?;
    for place in 0..hops {
        let next = place + 1;
        put_hop(text, model, chain, timings, walk, place, next)?;
        put_group(text, model, chain, timings, walk, next)?;
    }
    Ok(())
}
