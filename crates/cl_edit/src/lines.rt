//! Reading the lines of edits. There is one function for each keyword, which reads the words after
//! it.
ghost use Rattle.std.specs.Prelude.{◌≡◌};
ghost use Rattle.std.specs.Str.{bytes_eq};
ghost use Rattle.cl_edit.specs.Inner.{Parts.{ReadsPart, ReadsUpTo}, LineReads.{range_in, whole_in, period_in, offset_in, jitter_in, distances_in, burst_in, deadline_line_in, swap_in, move_in, access_line_in, drop_task_in, drop_chain_in, chain_in, fields_in, requirement_in}};
ghost use Rattle.cl_edit.specs.Inner.LineReads.{drop_requirement_in, later_fields_in, fields_of, edit_in};

use crate::edit::Edit;
use crate::fault::Unread;
use crate::fields::{access, deadline, flag, name, names, number, requirement_kind, time};
use crate::priorities_line::priorities;
use crate::task_line::task;
use crate::version::Version;
use crate::words::Parts;
use cl_model::{
    ChainDef, LEAST_JOBS_OF_BURST, MOST_HOPS, MOST_JOBS_OF_BURST, MOST_PRIORITY, MOST_REQUIRED,
    MOST_STEPS, MOST_TICKS, RequirementDef,
};
use std::alloc::Global;

fn range(words: &mut Parts<'_>) -> Result<Edit, Unread>
    ensures { ReadsUpTo result words.new (range_in words.old) }
{
    let runnable = name(words)?;
    let least = time(words)?;
    let greatest = time(words)?;
    Ok(Edit::Range {
        runnable,
        least,
        greatest,
    })
}

fn whole(words: &mut Parts<'_>) -> Result<Edit, Unread>
    ensures { ReadsUpTo result words.new (whole_in words.old) }
{
    let runnable = name(words)?;
    let whole = flag(words)?;
    Ok(Edit::Whole { runnable, whole })
}

fn period(words: &mut Parts<'_>) -> Result<Edit, Unread>
    ensures { ReadsUpTo result words.new (period_in words.old) }
{
    let stimulus = name(words)?;
    let period = time(words)?;
    Ok(Edit::Period { stimulus, period })
}

fn offset(words: &mut Parts<'_>) -> Result<Edit, Unread>
    ensures { ReadsUpTo result words.new (offset_in words.old) }
{
    let stimulus = name(words)?;
    let offset = number(words, 0, MOST_TICKS)?;
    Ok(Edit::Offset { stimulus, offset })
}

fn jitter(words: &mut Parts<'_>) -> Result<Edit, Unread>
    ensures { ReadsUpTo result words.new (jitter_in words.old) }
{
    let stimulus = name(words)?;
    let jitter = number(words, 0, MOST_TICKS)?;
    Ok(Edit::Jitter { stimulus, jitter })
}

fn distances(words: &mut Parts<'_>) -> Result<Edit, Unread>
    ensures { ReadsUpTo result words.new (distances_in words.old) }
{
    let stimulus = name(words)?;
    let least = time(words)?;
    let greatest = time(words)?;
    Ok(Edit::Distances {
        stimulus,
        least,
        greatest,
    })
}

fn burst(words: &mut Parts<'_>) -> Result<Edit, Unread>
    ensures { ReadsUpTo result words.new (burst_in words.old) }
{
    let stimulus = name(words)?;
    let period = time(words)?;
    let count = number(words, LEAST_JOBS_OF_BURST, MOST_JOBS_OF_BURST)?;
    let distance = time(words)?;
    Ok(Edit::Burst {
        stimulus,
        period,
        count,
        distance,
    })
}

fn deadline_line(words: &mut Parts<'_>) -> Result<Edit, Unread>
    ensures { ReadsUpTo result words.new (deadline_line_in words.old) }
{
    let task = name(words)?;
    let deadline = deadline(words)?;
    Ok(Edit::Deadline { task, deadline })
}

fn swap(words: &mut Parts<'_>) -> Result<Edit, Unread>
    ensures { ReadsUpTo result words.new (swap_in words.old) }
{
    let one = name(words)?;
    let other = name(words)?;
    Ok(Edit::Swap { one, other })
}

fn move_line(words: &mut Parts<'_>) -> Result<Edit, Unread>
    ensures { ReadsUpTo result words.new (move_in words.old) }
{
    let task = name(words)?;
    let core = name(words)?;
    let priority = number(words, 0, MOST_PRIORITY)?;
    Ok(Edit::Move {
        task,
        core,
        priority,
    })
}

fn access_line(words: &mut Parts<'_>) -> Result<Edit, Unread>
    ensures { ReadsUpTo result words.new (access_line_in words.old) }
{
    let task = name(words)?;
    let access = access(words)?;
    Ok(Edit::Kind { task, access })
}

fn drop_task(words: &mut Parts<'_>) -> Result<Edit, Unread>
    ensures { ReadsUpTo result words.new (drop_task_in words.old) }
{
    let task = name(words)?;
    Ok(Edit::DropTask { task })
}

fn chain(alloc: Global, words: &mut Parts<'_>) -> Result<Edit, Unread>
    ensures { ReadsUpTo result words.new (chain_in words.old) }
{
    let name = name(words)?;
    let runnables = names(alloc, words, MOST_STEPS)?;
    let labels = names(alloc, words, MOST_HOPS)?;
    Ok(Edit::AddChain(ChainDef {
        name,
        runnables,
        labels,
    }))
}

fn drop_chain(words: &mut Parts<'_>) -> Result<Edit, Unread>
    ensures { ReadsUpTo result words.new (drop_chain_in words.old) }
{
    let chain = name(words)?;
    Ok(Edit::DropChain { chain })
}

fn requirement(words: &mut Parts<'_>) -> Result<Edit, Unread>
    ensures { ReadsUpTo result words.new (requirement_in words.old) }
{
    let requirement = name(words)?;
    let chain = name(words)?;
    let kind = requirement_kind(words)?;
    let most = number(words, 0, MOST_REQUIRED)?;
    Ok(Edit::Requirement(RequirementDef {
        name: requirement,
        chain,
        kind,
        most,
    }))
}

fn drop_requirement(words: &mut Parts<'_>) -> Result<Edit, Unread>
    ensures { ReadsUpTo result words.new (drop_requirement_in words.old) }
{
    let requirement = name(words)?;
    Ok(Edit::DropRequirement { requirement })
}

fn is_word(word: &[u8], text: &str) -> bool
    ensures { result ≡ bytes_eq word.now text.now }
{
    word == text.as_bytes()
}

/// Reads the edit of a keyword from the words after it.
fn fields(alloc: Global, keyword: &[u8], words: &mut Parts<'_>) -> Result<Edit, Unread>
    ensures { ReadsUpTo result words.new (fields_in keyword.now words.old) }
{
    if is_word(keyword, "range") {
        range(words)
    } else if is_word(keyword, "whole") {
        whole(words)
    } else if is_word(keyword, "period") {
        period(words)
    } else if is_word(keyword, "offset") {
        offset(words)
    } else if is_word(keyword, "jitter") {
        jitter(words)
    } else if is_word(keyword, "distances") {
        distances(words)
    } else if is_word(keyword, "burst") {
        burst(words)
    } else if is_word(keyword, "deadline") {
        deadline_line(words)
    } else if is_word(keyword, "swap") {
        swap(words)
    } else if is_word(keyword, "move") {
        move_line(words)
    } else if is_word(keyword, "access") {
        access_line(words)
    } else if is_word(keyword, "task") {
        task(alloc, words)
    } else if is_word(keyword, "drop-task") {
        drop_task(words)
    } else if is_word(keyword, "chain") {
        chain(alloc, words)
    } else if is_word(keyword, "drop-chain") {
        drop_chain(words)
    } else if is_word(keyword, "report") {
        Ok(Edit::Report)
    } else {
        Err(Unread::Bad)
    }
}

/// Reads the edit of a keyword of version 2 from the words after it.
fn later_fields(alloc: Global, keyword: &[u8], words: &mut Parts<'_>) -> Result<Edit, Unread>
    ensures { ReadsUpTo result words.new (later_fields_in keyword.now words.old) }
{
    if is_word(keyword, "priorities") {
        priorities(alloc, words)
    } else if is_word(keyword, "requirement") {
        requirement(words)
    } else if is_word(keyword, "drop-requirement") {
        drop_requirement(words)
    } else if is_word(keyword, "tighten") {
        Ok(Edit::Tighten)
    } else if is_word(keyword, "verify") {
        Ok(Edit::Verify)
    } else {
        fields(alloc, keyword, words)
    }
}

/// Reads the edit of a keyword of a version from the words after it.
fn fields_of(
    alloc: Global,
    version: Version,
    keyword: &[u8],
    words: &mut Parts<'_>,
) -> Result<Edit, Unread>
    ensures { ReadsUpTo result words.new (fields_of version keyword.now words.old) }
{
    match version {
        Version::One => fields(alloc, keyword, words),
        Version::Two => later_fields(alloc, keyword, words),
    }
}

/// Reads the edit of a line of a version, given without its line feed.
pub(crate) fn edit_of(alloc: Global, version: Version, line: &[u8]) -> Result<Edit, Unread>
    ensures { ReadsPart result (edit_in version line.now) }
{
    let mut words = Parts::of(line, b' ');
    let Some(keyword) = words.next() else {
        return Err(Unread::Bad);
    };
    let edit = fields_of(alloc, version, keyword, &mut words)?;
    if words.is_done() {
        Ok(edit)
    } else {
        Err(Unread::Bad)
    }
}
