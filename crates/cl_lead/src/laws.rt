//! What leads mean: in every legal run of a sound system no runnable reads sooner.
ghost use Rattle.std.specs.Prelude.{◌≡◌, ℕ, ◌+◌, ◌<◌, ◌≤◌, Bool, length};
ghost use Rattle.cl_model.specs.{declared.model.SystemModel.SystemModel, Validity.IsValid};
ghost use Rattle.cl_runs.specs.{SystemOf.system_of, TaskTiming.{System, IsSound, timing_at}, Table.job_at, Run.{Run, jobs_of}, Legal.IsLegal, Moments.Reads};
ghost use Rattle.cl_comm.specs.Windows.{spot_at};
ghost use Rattle.cl_stim.specs.Phase.{IsPhase};
ghost use Rattle.cl_lead.specs.{Ahead.{Ahead, least_lead, IsLead}, Leads.{before_read, lead_with, lead_at, IsCommonCycle}, LeastTimes.HaveSameLeastTimes};

/// A runnable reads no earlier than its lead after the arrival of its job, whichever tasks are in
/// phase, where all of these come round with the cycle.
pub fn reads_come_after_leads()
    ensures { (system : System) → IsSound system → (in_phase : ℕ → Bool) (cycle task : ℕ)
        → IsCommonCycle system in_phase cycle task
        → (run : Run) → IsLegal system run → (job place read : ℕ)
        → Reads system run task job place read
        → (job_at (jobs_of run task) job).arrival + lead_with system in_phase cycle task place
        ≤ read }
{}

/// So it is for the tasks in phase above a task of a valid model, and its cycle.
pub fn reads_come_after_leads_of_models()
    ensures { (model : SystemModel) → IsValid model
        → (run : Run) → IsLegal (system_of model) run → (task job place read : ℕ)
        → Reads (system_of model) run task job place read
        → (job_at (jobs_of run task) job).arrival + lead_at (system_of model) task place ≤ read }
{}

/// The least lead is the least distance at which a job of a cycle may start the runnable, or the
/// deadline; and nothing else is.
pub fn least_leads_are_least()
    ensures is { (ahead : Ahead) → IsPhase ahead.arrivals → IsLead ahead (least_lead ahead) }
    ensures alone { (ahead : Ahead) → IsPhase ahead.arrivals → (lead : ℕ) → IsLead ahead lead
        → lead ≡ least_lead ahead }
{}

/// Where the least times before a runnable are at most the deadline of its task, its lead lies
/// between those before its read and the deadline.
pub fn leads_lie_between()
    ensures least { (system : System) (in_phase : ℕ → Bool) (cycle task place : ℕ)
        → (spot_at (timing_at system task) place).before ≤ (timing_at system task).deadline
        → before_read (timing_at system task).access (spot_at (timing_at system task) place).before
        ≤ lead_with system in_phase cycle task place }
    ensures most { (system : System) (in_phase : ℕ → Bool) (cycle task place : ℕ)
        → (spot_at (timing_at system task) place).before ≤ (timing_at system task).deadline
        → lead_with system in_phase cycle task place ≤ (timing_at system task).deadline }
{}

/// The leads of runnables rest on no greatest times: they are the same in two systems whose tasks
/// differ in no more than these, and in which runnables are whole.
pub fn leads_rest_on_least_times()
    ensures { (one other : System) → HaveSameLeastTimes one other
        → (task place : ℕ) → lead_at one task place ≡ lead_at other task place }
{}
