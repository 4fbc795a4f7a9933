//! Whether a chain of one model and a chain of another have the same question. No call takes
//! memory. Times are in ticks.
ghost use Rattle.std.specs.Prelude.{◌≡◌, ◌≢◌, ◌-◌, ◌<◌, ◌↔◌, length, map, IsTrue};
ghost use Rattle.cl_model.specs.Groups.{group_at, groups_at, IsGroupOf};
ghost use Rattle.cl_runs.specs.SystemOf.{system_of};
ghost use Rattle.cl_hop.specs.Hops.{saves};
ghost use Rattle.cl_bound.specs.{Answers.{answers_of, answer_at, response_in}, Bounds.settled_timing};
ghost use Rattle.cl_incr.specs.{Questions.{group_question, hop_bounded_by, hop_lines, chain_question}, Inner.Kept.AreBothAsked};

use crate::question::{GroupQuestion, HopLine};
use cl_analyse::first_late;
use cl_bound::TaskAnswer;
use cl_comm::spot_of;
use cl_model::{Group, List, ValidModel};

/// The response of a task, or 0 where the task is late.
fn response_of(answers: &List<TaskAnswer>, task: u32) -> u64
    ensures { result ≡ response_in (answer_at answers.now task) }
{
    match answers.at(task as usize) {
        Some(TaskAnswer::Settled(settled)) => settled.response(),
        Some(TaskAnswer::Late) | None => 0,
    }
}

/// The question of a group of a chain.
fn group_question(model: &ValidModel, answers: &List<TaskAnswer>, group: Group) -> GroupQuestion
    requires { IsGroupOf model.now group }
    ensures { result ≡ group_question (system_of model.now) answers.now group }
{
    GroupQuestion {
        pattern: model.stimulus_of(group.task),
        deadline: model.deadline_of(group.task),
        access: model.task(group.task).access,
        before: spot_of(model, group.task, group.first).before,
        after: spot_of(model, group.task, group.last).after,
        response: response_of(answers, group.task),
    }
}

/// Whether two groups have the same question.
fn is_same_group(one: GroupQuestion, other: GroupQuestion) -> bool
    ensures { IsTrue result ↔ (one ≡ other) }
{
    one == other
}

/// Whether two chains with equally many groups pass tasks with different responses at some place.
/// Then their questions differ. This tells most changed chains apart without making their
/// questions.
fn have_other_responses(
    old: &ValidModel,
    old_answers: &List<TaskAnswer>,
    before: u32,
    new: &ValidModel,
    new_answers: &List<TaskAnswer>,
    chain: u32,
) -> bool
    requires before { before < length old.now.chains }
    requires chain { chain < length new.now.chains }
    requires count { length (groups_at old.now before) ≡ length (groups_at new.now chain) }
    ensures { IsTrue result → map (group_question (system_of old.now) old_answers.now) (groups_at old.now before)
        ≢ map (group_question (system_of new.now) new_answers.now) (groups_at new.now chain) }
{
    for place in 0..new.group_count(chain) {
        let old_response = response_of(old_answers, old.group(before, place).task);
        let new_response = response_of(new_answers, new.group(chain, place).task);
        if old_response != new_response {
            return true;
        }
    }
    false
}

/// Whether the groups of two chains have the same questions, in order.
fn have_same_groups(
    old: &ValidModel,
    old_answers: &List<TaskAnswer>,
    before: u32,
    new: &ValidModel,
    new_answers: &List<TaskAnswer>,
    chain: u32,
) -> bool
    requires before { before < length old.now.chains }
    requires chain { chain < length new.now.chains }
    ensures { IsTrue result ↔ (map (group_question (system_of old.now) old_answers.now) (groups_at old.now before)
        ≡ map (group_question (system_of new.now) new_answers.now) (groups_at new.now chain)) }
{
    let count = new.group_count(chain);
    if old.group_count(before) != count
        || have_other_responses(old, old_answers, before, new, new_answers, chain)
    {
        return false;
    }
    for place in 0..count {
        let old_group = group_question(old, old_answers, old.group(before, place));
        let new_group = group_question(new, new_answers, new.group(chain, place));
        if !is_same_group(old_group, new_group) {
            return false;
        }
    }
    true
}

/// Whether the time of the writer is saved in the bound on a hop: it has a higher priority on the
/// reader's core, and neither task is timed.
fn saves(model: &ValidModel, writer: Group, reader: Group) -> bool
    requires writer { IsGroupOf model.now writer }
    requires reader { IsGroupOf model.now reader }
    ensures { result ≡ saves (settled_timing (system_of model.now) writer) (settled_timing (system_of model.now) reader) }
{
    if model.core_of(writer.task) != model.core_of(reader.task) {
        return false;
    }
    let from = model.task(writer.task);
    let to = model.task(reader.task);
    if from.priority <= to.priority {
        return false;
    }
    !from.access.is_timed() && !to.access.is_timed()
}

/// How the hop from one group to the next is bounded.
fn hop_line(model: &ValidModel, writer: Group, reader: Group) -> HopLine
    requires writer { IsGroupOf model.now writer }
    requires reader { IsGroupOf model.now reader }
    ensures { result ≡ hop_bounded_by (system_of model.now) writer reader }
{
    if writer.task == reader.task {
        HopLine::SameTask
    } else if saves(model, writer, reader) {
        HopLine::Saving
    } else {
        HopLine::Plain
    }
}

/// How the hop to a group, which isn't the first, is bounded.
fn hop_line_to(model: &ValidModel, chain: u32, place: u32) -> HopLine
    requires chain { chain < length model.now.chains }
    requires some { 0 < place }
    requires place { place < length (groups_at model.now chain) }
    ensures { let groups = groups_at model.now chain in
        result ≡ hop_bounded_by (system_of model.now) (group_at groups (place - 1)) (group_at groups place) }
{
    hop_line(
        model,
        model.group(chain, place - 1),
        model.group(chain, place),
    )
}

/// Whether two hops are bounded in the same way.
fn is_same_line(one: HopLine, other: HopLine) -> bool
    ensures { IsTrue result ↔ (one ≡ other) }
{
    one == other
}

/// Whether the hops between the groups of two chains with equally many groups are bounded in the
/// same way.
fn have_same_hops(old: &ValidModel, before: u32, new: &ValidModel, chain: u32) -> bool
    requires before { before < length old.now.chains }
    requires chain { chain < length new.now.chains }
    requires count { length (groups_at old.now before) ≡ length (groups_at new.now chain) }
    ensures { IsTrue result ↔ (hop_lines (system_of old.now) (groups_at old.now before)
        ≡ hop_lines (system_of new.now) (groups_at new.now chain)) }
{
    for place in 1..new.group_count(chain) {
        let old_line = hop_line_to(old, before, place);
        let new_line = hop_line_to(new, chain, place);
        if !is_same_line(old_line, new_line) {
            return false;
        }
    }
    true
}

/// Whether two chains have the same question and no task of either is late.
pub(crate) fn ask_the_same(
    old: &ValidModel,
    old_answers: &List<TaskAnswer>,
    before: u32,
    new: &ValidModel,
    new_answers: &List<TaskAnswer>,
    chain: u32,
) -> bool
    requires before { before < length old.now.chains }
    requires chain { chain < length new.now.chains }
    requires old_answers { old_answers.now ≡ answers_of (system_of old.now) }
    requires new_answers { new_answers.now ≡ answers_of (system_of new.now) }
    ensures { IsTrue result ↔ AreBothAsked (chain_question old.now before) (chain_question new.now chain) }
{
    match (
        first_late(old, before, old_answers),
        first_late(new, chain, new_answers),
    ) {
        (None, None) => {
            have_same_groups(old, old_answers, before, new, new_answers, chain)
                && have_same_hops(old, before, new, chain)
        }
        _ => false,
    }
}
