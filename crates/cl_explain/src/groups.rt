//! The groups of a chain, and the hops between them. Times are in ticks.
ghost use Rattle.std.specs.Prelude.{◌≡◌, ◌+◌, ◌<◌, ◌++◌, length, OnOk};
ghost use Rattle.cl_model.specs.Groups.{groups_at};
ghost use Rattle.cl_runs.specs.SystemOf.{system_of};
ghost use Rattle.cl_bound.specs.Answers.{answers_of, NoneIsLate};
ghost use Rattle.cl_explain.specs.Explanation.{task_of_group, timing_of_group, hop_word, hop_words, hop_head, group_words, group_line, hop_line, group_lines};

use crate::numbers::put_signed;
use cl_bound::{TaskAnswer, timing_of};
use cl_hop::GroupTiming;
use cl_model::{List, ValidModel};
use cl_report::{put_chain_name, put_task_name};
use cl_text::Text;
use cl_time::NoMemory;

/// Returns what the bounds know of the group at a place of a chain none of whose tasks is late.
fn timing_at(model: &ValidModel, chain: u32, place: u32, settled: &List<TaskAnswer>) -> GroupTiming
    requires chain { chain < length model.now.chains }
    requires place { place < length (groups_at model.now chain) }
    requires answers { settled.now ≡ answers_of (system_of model.now) }
    requires not_late { NoneIsLate settled.now (groups_at model.now chain) }
    ensures { result ≡ timing_of_group model.now chain place }
{
    timing_of(model, model.group(chain, place), settled)
}

/// Puts the name of the task of the group at a place of a chain.
pub(crate) fn put_task_of_group(
    text: &mut Text,
    model: &ValidModel,
    chain: u32,
    place: u32,
) -> Result<(), NoMemory>
    requires chain { chain < length model.now.chains }
    requires place { place < length (groups_at model.now chain) }
    ensures { OnOk result (text.new ≡ text.old ++ task_of_group model.now chain place) }
{
    put_task_name(text, model, model.group(chain, place).task)
}

/// Puts what is known of the group at a place of a chain: its greatest distance between arrivals,
/// its earliest read and its latest write. After `NoMemory` the text ends with a prefix of it.
pub fn put_group_words(
    text: &mut Text,
    model: &ValidModel,
    chain: u32,
    place: u32,
    timing: &GroupTiming,
) -> Result<(), NoMemory>
    requires chain { chain < length model.now.chains }
    requires place { place < length (groups_at model.now chain) }
    ensures { OnOk result (text.new ≡ text.old ++ group_words model.now chain place timing.now) }
{
    text.put(b"group ")?;
    put_chain_name(text, model, chain)?;
    text.put(b" ")?;
    put_task_of_group(text, model, chain, place)?;
    text.put(b" distance ")?;
    text.put_number(timing.distance())?;
    text.put(b" read ")?;
    text.put_number(timing.read())?;
    text.put(b" write ")?;
    text.put_number(timing.write())
}

/// Puts the line of the group at a place of a chain.
fn put_group(
    text: &mut Text,
    model: &ValidModel,
    chain: u32,
    place: u32,
    settled: &List<TaskAnswer>,
) -> Result<(), NoMemory>
    requires chain { chain < length model.now.chains }
    requires place { place < length (groups_at model.now chain) }
    requires answers { settled.now ≡ answers_of (system_of model.now) }
    requires not_late { NoneIsLate settled.now (groups_at model.now chain) }
    ensures { OnOk result (text.new ≡ text.old ++ group_line model.now chain place) }
{
    let timing = timing_at(model, chain, place, settled);
    put_group_words(text, model, chain, place, &timing)?;
    text.put(b"\n")
}

/// Returns the word for how a hop is bounded: `same` where both groups are of one task, `saves`
/// where the hop saves the writer's time, and else `plain`.
fn hop_word(writer: &GroupTiming, reader: &GroupTiming) -> &'static [u8]
    ensures { result.now ≡ hop_word writer.now reader.now }
{
    if writer.task() == reader.task() {
        b"same"
    } else if writer.saves(reader) {
        b"saves"
    } else {
        b"plain"
    }
}

/// Puts between which groups of a chain a hop is, and the word for how it is bounded. After
/// `NoMemory` the text ends with a prefix of it.
pub fn put_hop_head(
    text: &mut Text,
    model: &ValidModel,
    chain: u32,
    place: u32,
    next: u32,
    writer: &GroupTiming,
    reader: &GroupTiming,
) -> Result<(), NoMemory>
    requires chain { chain < length model.now.chains }
    requires place { next ≡ place + 1 }
    requires next { next < length (groups_at model.now chain) }
    ensures { OnOk result (text.new ≡ text.old ++ hop_head model.now chain place writer.now reader.now) }
{
    text.put(b"hop ")?;
    put_chain_name(text, model, chain)?;
    text.put(b" ")?;
    put_task_of_group(text, model, chain, place)?;
    text.put(b" ")?;
    put_task_of_group(text, model, chain, next)?;
    text.put(b" ")?;
    text.put(hop_word(writer, reader))
}

/// Puts the hop in the forward and in the backward direction, in ticks.
fn put_hop_bounds(
    text: &mut Text,
    writer: &GroupTiming,
    reader: &GroupTiming,
) -> Result<(), NoMemory>
    ensures { OnOk result (text.new ≡ text.old ++ hop_words writer.now reader.now) }
{
    text.put(b" forward ")?;
    put_signed(text, writer.forward_hop(reader))?;
    text.put(b" backward ")?;
    put_signed(text, writer.backward_hop(reader))
}

/// Puts the line of the hop from the group at a place of a chain to the next.
fn put_hop(
    text: &mut Text,
    model: &ValidModel,
    chain: u32,
    place: u32,
    next: u32,
    settled: &List<TaskAnswer>,
) -> Result<(), NoMemory>
    requires chain { chain < length model.now.chains }
    requires place { next ≡ place + 1 }
    requires next { next < length (groups_at model.now chain) }
    requires answers { settled.now ≡ answers_of (system_of model.now) }
    requires not_late { NoneIsLate settled.now (groups_at model.now chain) }
    ensures { OnOk result (text.new ≡ text.old ++ hop_line model.now chain place) }
{
    let writer = timing_at(model, chain, place, settled);
    let reader = timing_at(model, chain, next, settled);
    put_hop_head(text, model, chain, place, next, &writer, &reader)?;
    put_hop_bounds(text, &writer, &reader)?;
    text.put(b"\n")
}

/// Puts the lines of the groups of a chain none of whose tasks is late, in order, with those of the
/// hops between them.
pub(crate) fn put_groups(
    text: &mut Text,
    model: &ValidModel,
    chain: u32,
    settled: &List<TaskAnswer>,
) -> Result<(), NoMemory>
    requires chain { chain < length model.now.chains }
    requires answers { settled.now ≡ answers_of (system_of model.now) }
    requires not_late { NoneIsLate settled.now (groups_at model.now chain) }
    ensures { OnOk result (text.new ≡ text.old ++ group_lines model.now chain) }
{
    let hops = model.group_count(chain) - 1;
    put_group(text, model, chain, 0, settled)?;
    for place in 0..hops {
        let next = place + 1;
        put_hop(text, model, chain, place, next, settled)?;
        put_group(text, model, chain, next, settled)?;
    }
    Ok(())
}
