//! The jobs of a chain on its walk, and from where to where the walk lasts. Times are in ticks, and
//! moments may lie before 0.
ghost use Rattle.std.specs.Prelude.{◌≡◌, ◌<◌, ◌++◌, length, map, OnOk};
ghost use Rattle.cl_model.specs.Groups.{groups_at};
ghost use Rattle.cl_runs.specs.SystemOf.{system_of};
ghost use Rattle.cl_tight.specs.TightTimings.{tight_timing};
ghost use Rattle.cl_why.specs.{Walks.{first_missed, walk_from, walk_to, job_line, missed_lines, taken_lines, why_length_line, why_walk_lines}, Inner.HasJobsOf};

use cl_explain::{put_arrival_words, put_signed};
use cl_hop::GroupTiming;
use cl_model::{RequirementKind, ValidModel};
use cl_phase::WholeWalk;
use cl_report::put_chain_name;
use cl_text::Text;
use cl_time::NoMemory;

/// Puts the line of a job of the group at a place of a chain: when it arrives, and when it reads or
/// writes, so many ticks after that.
fn put_job(
    text: &mut Text,
    model: &ValidModel,
    chain: u32,
    word: &[u8],
    does: &[u8],
    place: u32,
    arrival: i64,
    after: u64,
) -> Result<(), NoMemory>
    requires chain { chain < length model.now.chains }
    requires place { place < length (groups_at model.now chain) }
    ensures { OnOk result (text.new
        ≡ text.old ++ job_line word.now does.now model.now chain place arrival after) }
{
    put_arrival_words(text, model, chain, word, place, &arrival)?;
    text.put(does)?;
    put_signed(text, i128::from(arrival) + i128::from(after))?;
    text.put(b"\n")
}

/// Returns the place of the first group of which a job just misses: of a delay the second.
fn first_missed(kind: RequirementKind) -> u32
    ensures { result ≡ first_missed kind }
{
    if kind.is_delay() { 1 } else { 0 }
}

/// Puts the lines of the jobs that just miss, one for each group from a place on.
fn put_missed(
    text: &mut Text,
    model: &ValidModel,
    chain: u32,
    timings: &[GroupTiming],
    walk: &WholeWalk,
    from: u32,
) -> Result<(), NoMemory>
    requires chain { chain < length model.now.chains }
    requires timings { timings.now ≡ map (tight_timing (system_of model.now)) (groups_at model.now chain) }
    requires walk { HasJobsOf (groups_at model.now chain) walk.now }
    ensures { OnOk result (text.new ≡ text.old ++ missed_lines model.now chain walk.now from) }
{
    for place in from..model.group_count(chain) {
        let arrival = walk.missed.as_slice()[place as usize];
        let read = timings[place as usize].read();
        put_job(
            text, model, chain, b"missed ", b" read ", place, arrival, read,
        )?;
    }
    Ok(())
}

/// Puts the lines of the jobs that take, one for each group.
fn put_taken(
    text: &mut Text,
    model: &ValidModel,
    chain: u32,
    timings: &[GroupTiming],
    walk: &WholeWalk,
) -> Result<(), NoMemory>
    requires chain { chain < length model.now.chains }
    requires timings { timings.now ≡ map (tight_timing (system_of model.now)) (groups_at model.now chain) }
    requires walk { HasJobsOf (groups_at model.now chain) walk.now }
    ensures { OnOk result (text.new ≡ text.old ++ taken_lines model.now chain walk.now) }
{
    for place in 0..model.group_count(chain) {
        let arrival = walk.taken.as_slice()[place as usize];
        let write = timings[place as usize].write();
        put_job(
            text, model, chain, b"taken ", b" write ", place, arrival, write,
        )?;
    }
    Ok(())
}

/// Finds from when a walk lasts: from the first read that just misses or, of a delay, from the first
/// arrival that is taken.
fn walk_from(walk: &WholeWalk, kind: RequirementKind, read: u64) -> i128
    requires missed { 0 < length walk.now.missed }
    requires taken { 0 < length walk.now.taken }
    ensures { result ≡ walk_from walk.now kind read }
{
    if kind.is_delay() {
        i128::from(walk.taken.as_slice()[0])
    } else {
        i128::from(walk.missed.as_slice()[0]) + i128::from(read)
    }
}

/// Finds to when a walk lasts: to the last write that is taken.
fn walk_to(walk: &WholeWalk, write: u64) -> i128
    requires { 0 < length walk.now.taken }
    ensures { result ≡ walk_to walk.now write }
{
    let last = walk.taken.len() - 1;
    i128::from(walk.taken.as_slice()[last]) + i128::from(write)
}

/// Puts the line that says from when to when a walk lasts.
fn put_length(
    text: &mut Text,
    model: &ValidModel,
    chain: u32,
    from: i128,
    to: i128,
) -> Result<(), NoMemory>
    requires { chain < length model.now.chains }
    ensures { OnOk result (text.new ≡ text.old ++ why_length_line model.now chain from to) }
{
    text.put(b"length ")?;
    put_chain_name(text, model, chain)?;
    text.put(b" from ")?;
    put_signed(text, from)?;
    text.put(b" to ")?;
    put_signed(text, to)?;
    text.put(b"\n")
}

/// Puts the lines of the jobs on a walk of a chain, and of how long it lasts.
pub(crate) fn put_walk(
    text: &mut Text,
    model: &ValidModel,
    chain: u32,
    timings: &[GroupTiming],
    walk: &WholeWalk,
    kind: RequirementKind,
) -> Result<(), NoMemory>
    requires chain { chain < length model.now.chains }
    requires timings { timings.now ≡ map (tight_timing (system_of model.now)) (groups_at model.now chain) }
    requires walk { HasJobsOf (groups_at model.now chain) walk.now }
    ensures { OnOk result (text.new ≡ text.old ++ why_walk_lines model.now chain walk.now kind) }
{
    let last = model.group_count(chain) - 1;
    put_missed(text, model, chain, timings, walk, first_missed(kind))?;
    put_taken(text, model, chain, timings, walk)?;
    let from = walk_from(walk, kind, timings[0].read());
    let to = walk_to(walk, timings[last as usize].write());
    put_length(text, model, chain, from, to)
}
