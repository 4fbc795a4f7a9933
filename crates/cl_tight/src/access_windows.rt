//! How early the groups of a model read, and how late they have written, by the phases of their
//! cores. Times are in ticks.
ghost use Rattle.std.specs.Prelude.{◌≡◌, ◌≢◌, ℕ, ◌<◌, ◌≤◌, None, false, length, map, All, IfOk};
ghost use Rattle.cl_model.specs.{declared.limits.TheConstants.MOST_STEPS, ByNumber.task_at, Groups.IsGroupOf};
ghost use Rattle.cl_runs.specs.{SystemOf.system_of, TaskTiming.timing_at};
ghost use Rattle.cl_lead.specs.Leads.{lead_at};
ghost use Rattle.cl_hop.specs.Hops.{IsNear};
ghost use Rattle.cl_resp.specs.ByPhase.{IsSettledByPhase};
ghost use Rattle.cl_bound.specs.Answers.{answer_at, is_late, response_in, NoneIsLate};
ghost use Rattle.cl_tight.specs.{TightAnswers.{tight_answers_of, tight_response}, TightTimings.{earliest_read, part_response, latest_write, tight_timing}, Found.{number_found, AreWindowsOf}};

use crate::found::FoundNumbers;
use arrayvec::ArrayVec;
use cl_bound::TaskAnswer;
use cl_hop::GroupTiming;
use cl_lead::lead_of;
use cl_model::{AccessKind, Group, List, MOST_STEPS, ValidModel};
use cl_resp::respond_through;
use cl_time::NoMemory;
use std::alloc::Global;

/// What has been found of the runnables of a model, so that many chains through one task look for
/// it once: how long after the arrival of its job one reads at least, and within how long those up
/// to one have finished.
#[derive(Drop)]
pub struct AccessWindows {
    pub(crate) leads: FoundNumbers,
    pub(crate) parts: FoundNumbers,
}

/// Returns the response of a settled task in ticks, and 0 for a late task, which has none.
fn response_in(answer: &TaskAnswer) -> u64
    ensures { result ≡ response_in answer.now }
{
    match answer {
        TaskAnswer::Settled(settled) => settled.response(),
        TaskAnswer::Late => 0,
    }
}

/// Returns a place whose runnable reads as early as the first of a group: of explicit access its
/// own, and else the first of the task, since the job reads.
fn reading_place(model: &ValidModel, group: Group) -> u32
    requires { IsGroupOf model.now group }
    ensures in_task { result < length (task_at model.now group.task).runnables }
    ensures read { lead_at (system_of model.now) group.task result ≡ earliest_read (system_of model.now) group }
{
    match model.task(group.task).access {
        AccessKind::Explicit => group.first,
        AccessKind::Implicit => 0,
        AccessKind::Timed => 0,
    }
}

impl AccessWindows {
    /// Makes room for what will be found of each runnable of a model. `NoMemory` comes where there
    /// is none; it leaves nothing.
    pub fn new(alloc: Global, model: &ValidModel) -> Result<AccessWindows, NoMemory>
        ensures { IfOk result (AreWindowsOf (system_of model.now)) }
    {
        Ok(AccessWindows {
            leads: FoundNumbers::new(alloc, model)?,
            parts: FoundNumbers::new(alloc, model)?,
        })
    }

    /// Finds how early a group reads.
    fn read(&mut self, model: &ValidModel, group: Group) -> u64
        requires group { IsGroupOf model.now group }
        requires found { AreWindowsOf (system_of model.now) self.old }
        ensures read { result ≡ earliest_read (system_of model.now) group }
        ensures found { AreWindowsOf (system_of model.now) self.new }
    {
        let place = reading_place(model, group);
        if let Some(lead) = self.leads.number(group.task, place) {
            return lead;
        }
        let lead = lead_of(model, group.task, place);
        self.leads.keep(group.task, place, lead);
        lead
    }

    /// Finds within how long after the arrival of its job the runnables of a task up to one have
    /// finished, where the task has this response.
    fn part(
        &mut self,
        alloc: Global,
        model: &ValidModel,
        task: u32,
        place: u32,
        response: u64,
    ) -> Result<u64, NoMemory>
        requires place { place < length (timing_at (system_of model.now) task).ranges }
        requires settled { IsSettledByPhase (system_of model.now) task response }
        requires found { AreWindowsOf (system_of model.now) self.old }
        ensures part { IfOk result (λ part. part ≡ part_response (system_of model.now) task place) }
        ensures found { AreWindowsOf (system_of model.now) self.new }
    {
        if let Some(part) = self.parts.number(task, place) {
            return Ok(part);
        }
        let part = respond_through(alloc, model, task, place, response)?;
        self.parts.keep(task, place, part);
        Ok(part)
    }

    /// Finds how late a group has written, where its task has this response.
    fn write(
        &mut self,
        alloc: Global,
        model: &ValidModel,
        group: Group,
        response: u64,
    ) -> Result<u64, NoMemory>
        requires group { IsGroupOf model.now group }
        requires response { response ≡ tight_response (system_of model.now) group.task }
        requires settled { IsSettledByPhase (system_of model.now) group.task response }
        requires found { AreWindowsOf (system_of model.now) self.old }
        ensures write { IfOk result (λ write. write ≡ latest_write (system_of model.now) group) }
        ensures found { AreWindowsOf (system_of model.now) self.new }
    {
        match model.task(group.task).access {
            AccessKind::Explicit => self.part(alloc, model, group.task, group.last, response),
            AccessKind::Implicit => Ok(response),
            AccessKind::Timed => Ok(model.deadline_of(group.task)),
        }
    }

    /// Puts together what tight bounds know of a group, whose task isn't late.
    fn timing(
        &mut self,
        alloc: Global,
        model: &ValidModel,
        group: Group,
        settled: &List<TaskAnswer>,
    ) -> Result<GroupTiming, NoMemory>
        requires group { IsGroupOf model.now group }
        requires answers { settled.now ≡ tight_answers_of (system_of model.now) }
        requires not_late { is_late (answer_at settled.now group.task) ≡ false }
        requires found { AreWindowsOf (system_of model.now) self.old }
        ensures timing { IfOk result (λ timing. timing ≡ tight_timing (system_of model.now) group) }
        ensures near { IfOk result IsNear }
        ensures found { AreWindowsOf (system_of model.now) self.new }
    {
        let response = response_in(&settled.as_slice()[group.task as usize]);
        self.timing_within(alloc, model, group, response)
    }

    /// Puts together what tight bounds know of a group, whose task has this response by phases.
    pub fn timing_within(
        &mut self,
        alloc: Global,
        model: &ValidModel,
        group: Group,
        response: u64,
    ) -> Result<GroupTiming, NoMemory>
        requires group { IsGroupOf model.now group }
        requires response { response ≡ tight_response (system_of model.now) group.task }
        requires settled { IsSettledByPhase (system_of model.now) group.task response }
        requires found { AreWindowsOf (system_of model.now) self.old }
        ensures timing { IfOk result (λ timing. timing ≡ tight_timing (system_of model.now) group) }
        ensures near { IfOk result IsNear }
        ensures found { AreWindowsOf (system_of model.now) self.new }
    {
        let read = self.read(model, group);
        let write = self.write(alloc, model, group, response)?;
        Ok(GroupTiming::in_window(model, group, read, write))
    }

    /// Forgets the responses of the runnables of a task up to each, as its times or those on its core
    /// change. Leads stay: they depend on least times alone.
    pub fn forget_parts(&mut self, task: u32)
        ensures leads { self.new.leads ≡ self.old.leads }
        ensures parts { (place : ℕ) → number_found self.new.parts task place ≡ None }
        ensures others { (other place : ℕ) → other ≢ task
            → number_found self.new.parts other place ≡ number_found self.old.parts other place }
    {
        self.parts.forget(task);
    }

    /// Puts together what tight bounds know of groups of a valid model, from the answers by phases
    /// for all its tasks: how early each reads and how late it has written, which holds in every
    /// legal run. None of the groups' tasks is late.
    ///
    /// It looks for the lead and the response of a runnable where no group before needed them.
    /// `NoMemory` comes where there is no memory for a list of the tasks above one; what was found
    /// so far stays.
    pub fn timings(
        &mut self,
        alloc: Global,
        model: &ValidModel,
        groups: &[Group],
        settled: &List<TaskAnswer>,
    ) -> Result<ArrayVec<GroupTiming, MOST_STEPS>, NoMemory>
        requires few { length groups.now ≤ MOST_STEPS }
        requires of_tasks { All (IsGroupOf model.now) groups.now }
        requires answers { settled.now ≡ tight_answers_of (system_of model.now) }
        requires not_late { NoneIsLate settled.now groups.now }
        requires found { AreWindowsOf (system_of model.now) self.old }
        ensures timings { IfOk result
            (λ timings. timings.items ≡ map (tight_timing (system_of model.now)) groups.now) }
        ensures near { IfOk result (λ timings. All IsNear timings.items) }
        ensures found { AreWindowsOf (system_of model.now) self.new }
    {
        let mut timings = ArrayVec::new();
        for group in groups {
            timings.push(self.timing(alloc, model, *group, settled)?);
        }
        Ok(timings)
    }
}
