//! The tight bounds of a chain, and a walk that lasts as long as the tight bound on its reaction.
//! Times are in ticks.
ghost use Rattle.std.specs.Prelude.{◌≡◌, ◌+◌, ◌<◌, ◌≤◌, ◌++◌, length, map, All, OnOk};
ghost use Rattle.cl_model.specs.{ByNumber.chain_at, declared.limits.TheConstants.MOST_STEPS, Groups.groups_at, Validity.IsValid};
ghost use Rattle.cl_runs.specs.SystemOf.{system_of};
ghost use Rattle.cl_hop.specs.Hops.{IsNear};
ghost use Rattle.cl_bound.specs.Answers.{NoneIsLate};
ghost use Rattle.cl_phase.specs.TightBounds.{tight_bounds};
ghost use Rattle.cl_analyse.specs.declared.findings.ChainAnswer.TheVariants as answers;
ghost use Rattle.cl_tight.specs.{TightAnswers.tight_answers_of, TightTimings.tight_timing, TightFindings.tight_chain_answer_of, Found.AreWindowsOf};
ghost use Rattle.cl_explain.specs.Explanation.{walk_arrival_text, arrival_line, arrival_lines, walk_lines, tight_line, tight_lines};

use crate::groups::put_task_of_group;
use crate::numbers::put_signed;
use cl_analyse::first_late;
use cl_bound::TaskAnswer;
use cl_hop::{Bounds, GroupTiming};
use cl_model::{List, ValidModel};
use cl_phase::{tight_bounds, walk_lasting};
use cl_report::{put_bounds, put_chain_name};
use cl_text::Text;
use cl_tight::AccessWindows;
use cl_time::NoMemory;
use std::alloc::Global;

/// Puts an arrival of the group at a place of a chain. After `NoMemory` the text ends with a prefix
/// of it.
pub fn put_arrival_words(
    text: &mut Text,
    model: &ValidModel,
    chain: u32,
    word: &[u8],
    place: u32,
    arrival: &i64,
) -> Result<(), NoMemory>
    requires chain { chain < length model.now.chains }
    requires place { place < length (groups_at model.now chain) }
    ensures { OnOk result
        (text.new ≡ text.old ++ walk_arrival_text word.now model.now chain place arrival.now) }
{
    text.put(word)?;
    put_chain_name(text, model, chain)?;
    text.put(b" ")?;
    put_task_of_group(text, model, chain, place)?;
    text.put(b" arrival ")?;
    put_signed(text, i128::from(*arrival))
}

/// Puts the line of an arrival of the group at a place of a chain.
fn put_arrival(
    text: &mut Text,
    model: &ValidModel,
    chain: u32,
    word: &[u8],
    place: u32,
    arrival: &i64,
) -> Result<(), NoMemory>
    requires chain { chain < length model.now.chains }
    requires place { place < length (groups_at model.now chain) }
    ensures { OnOk result
        (text.new ≡ text.old ++ arrival_line word.now model.now chain place arrival.now) }
{
    put_arrival_words(text, model, chain, word, place, arrival)?;
    text.put(b"\n")
}

/// Puts the lines of the arrivals of the groups of a chain from a place on, one for each of these
/// arrivals.
fn put_arrivals(
    text: &mut Text,
    model: &ValidModel,
    chain: u32,
    word: &[u8],
    from: u32,
    arrivals: &[i64],
) -> Result<(), NoMemory>
    requires chain { chain < length model.now.chains }
    requires within { from + length arrivals.now ≤ length (groups_at model.now chain) }
    requires few { from + length arrivals.now ≤ MOST_STEPS }
    ensures { OnOk result
        (text.new ≡ text.old ++ arrival_lines word.now model.now chain from arrivals.now) }
{
    let mut place = from;
    for arrival in arrivals {
        put_arrival(text, model, chain, word, place, arrival)?;
        place += 1;
    }
    Ok(())
}

/// Puts the lines of the walk that `walk_lasting` finds for `reaction` ticks, along a chain none of
/// whose tasks is late by phases, from what is known of its groups: the arrivals of the jobs that
/// just miss the input, then those of the jobs that take it.
fn put_walk(
    alloc: Global,
    text: &mut Text,
    model: &ValidModel,
    chain: u32,
    timings: &[GroupTiming],
    reaction: u64,
) -> Result<(), NoMemory>
    requires valid { IsValid model.now }
    requires chain { chain < length model.now.chains }
    requires timings { timings.now
        ≡ map (tight_timing (system_of model.now)) (groups_at model.now chain) }
    requires near { All IsNear timings.now }
    ensures { OnOk result (text.new ≡ text.old ++ walk_lines model.now chain reaction) }
{
    let walk = walk_lasting(alloc, model, model.groups(chain), timings, reaction)?;
    let place = walk.place as u32;
    put_arrivals(text, model, chain, b"missed ", 0, walk.missed.as_slice())?;
    put_arrivals(text, model, chain, b"taken ", place, walk.taken.as_slice())
}

/// Puts the line of the tight bounds of a chain.
fn put_tight_bounds(
    text: &mut Text,
    model: &ValidModel,
    chain: u32,
    bounds: &Bounds,
) -> Result<(), NoMemory>
    requires { chain < length model.now.chains }
    ensures { OnOk result (text.new ≡ text.old ++ tight_line model.now chain bounds.now) }
{
    text.put(b"tight ")?;
    put_chain_name(text, model, chain)?;
    put_bounds(text, bounds)?;
    text.put(b"\n")
}

/// Puts the lines of the tight bounds of a chain none of whose tasks is late by phases, and those
/// of a walk that lasts as long as the bound on its reaction.
fn put_bounded(
    alloc: Global,
    text: &mut Text,
    model: &ValidModel,
    chain: u32,
    tight: &List<TaskAnswer>,
    windows: &mut AccessWindows,
) -> Result<(), NoMemory>
    requires valid { IsValid model.now }
    requires chain { chain < length model.now.chains }
    requires answers { tight.now ≡ tight_answers_of (system_of model.now) }
    requires not_late { NoneIsLate tight.now (groups_at model.now chain) }
    requires windows { AreWindowsOf (system_of model.now) windows.old }
    ensures text { OnOk result (text.new ≡ text.old ++ tight_lines model.now chain
        (answers.Bounds (tight_bounds (system_of model.now) (tight_timing (system_of model.now)) (groups_at model.now chain)))) }
    ensures windows { AreWindowsOf (system_of model.now) windows.new }
{
    let groups = model.groups(chain);
    let timings = windows.timings(alloc, model, groups, tight)?;
    let bounds = tight_bounds(model, groups, timings.as_slice());
    put_tight_bounds(text, model, chain, &bounds)?;
    put_walk(
        alloc,
        text,
        model,
        chain,
        timings.as_slice(),
        bounds.reaction(),
    )
}

/// Puts the lines of the tight bounds of a chain and of its walk, if none of its tasks is late by
/// phases.
pub(crate) fn put_tight(
    alloc: Global,
    text: &mut Text,
    model: &ValidModel,
    chain: u32,
    tight: &List<TaskAnswer>,
    windows: &mut AccessWindows,
) -> Result<(), NoMemory>
    requires valid { IsValid model.now }
    requires chain { chain < length model.now.chains }
    requires answers { tight.now ≡ tight_answers_of (system_of model.now) }
    requires windows { AreWindowsOf (system_of model.now) windows.old }
    ensures text { OnOk result (text.new
        ≡ text.old ++ tight_lines model.now chain (tight_chain_answer_of model.now (chain_at model.now chain))) }
    ensures windows { AreWindowsOf (system_of model.now) windows.new }
{
    match first_late(model, chain, tight) {
        Some(_) => Ok(()),
        None => put_bounded(alloc, text, model, chain, tight, windows),
    }
}
