//! What holds of drawn job tables, of tables of all cores and of generated models.
ghost use Rattle.std.specs.Prelude.{◌≡◌, ◌<◌, ◌≤◌, ◌+◌, ◌-◌, ◌*◌, ◌/◌, ◌%◌, ℕ, suc, Bool, true, List, length};
ghost use Rattle.cl_model.specs.{declared.{model.SystemModel.SystemModel, stimulus.StimulusKind.{StimulusKind, TheVariants.{Periodic, Sporadic, Burst}}}, AreNamed.AreNamed, Validity.IsValid};
ghost use Rattle.cl_runs.specs.{declared.job.{Job.Job, JobTable.JobTable}, Pattern.IsPattern, Arrivals.FollowPattern, TaskTiming.{TimeRange, System, IsSound}, SystemOf.system_of, Table.IsLawful};
ghost use Rattle.cl_run_data.specs.Parts.{is_among, IsLawfulOn};
ghost use Rattle.cl_gen.specs.{Count.arrival_count, Words.draw, Drawn.{drawn_job, drawn}, DrawnByKind.IsDrawnAs, Generated.generated};

use cl_model::MOST_TASKS;

/// The job table that is drawn for a valid model is lawful, whatever the seed. A drawn table has
/// the number of ticks that was asked for.
pub fn drawn_tables_are_lawful()
    ensures lawful { (model : SystemModel) → IsValid model → (ticks seed : ℕ)
        → IsLawful (system_of model) (drawn model ticks seed) }
    ensures ticks { (model : SystemModel) (ticks seed : ℕ)
        → (drawn model ticks seed).ticks ≡ ticks }
{}

/// The words of a task begin at word `from`, and each job takes the next ones. Job `k` of a
/// periodic stimulus arrives at `offset + k * period`; its first word draws its release, and the
/// others draw its execution times. The first word of a job of a sporadic stimulus draws its
/// arrival: for job 0 a tick below the greatest gap, and for each other job the gap after the job
/// before it. It is released as it arrives, and the other words draw its execution times. Job `k`
/// of well-formed bursts arrives and is released at
/// `offset + k / count * period + k % count * distance`, and all its words draw its execution
/// times.
pub fn jobs_are_drawn_by_kind()
    // periodic: job `k` arrives at its tick, its first word draws its release, and the words behind
    // it draw its times
    ensures periodic { (word : ℕ → ℕ) (from period offset jitter : ℕ) (ranges : List TimeRange) (k : ℕ)
        → let n = from + k * (1 + length ranges) in
        IsDrawnAs word ranges (drawn_job word from (Periodic period offset jitter) ranges k)
        (offset + k * period) (draw 0 jitter (word n)) (n + 1) }
    // sporadic: the first word of a job draws its arrival, for job 0 from tick 0 on and for each
    // other job after the one before it; it is released there, and the further words draw its times
    ensures first_sporadic { (word : ℕ → ℕ) (from least greatest : ℕ) (ranges : List TimeRange)
        → IsDrawnAs word ranges (drawn_job word from (Sporadic least greatest) ranges 0)
        (draw 0 (greatest - 1) (word from)) 0 (from + 1) }
    ensures next_sporadic { (word : ℕ → ℕ) (from least greatest : ℕ) (ranges : List TimeRange) (k : ℕ)
        → let n = from + suc k * (1 + length ranges) in
        IsDrawnAs word ranges (drawn_job word from (Sporadic least greatest) ranges (suc k))
        ((drawn_job word from (Sporadic least greatest) ranges k).arrival + draw least greatest (word n)) 0 (n + 1) }
    // bursts: job `k` arrives at its tick and is released there, and all its words draw its times
    ensures bursts { (word : ℕ → ℕ) (from period offset count distance : ℕ) (ranges : List TimeRange)
        → IsPattern (Burst period offset count distance) → (k : ℕ)
        → IsDrawnAs word ranges (drawn_job word from (Burst period offset count distance) ranges k)
        (offset + k / count * period + k % count * distance) 0 (from + k * length ranges) }
{}

/// At most as many jobs follow a well-formed pattern for some ticks as are counted for these ticks
/// before anything is drawn.
pub fn counted_jobs_suffice()
    ensures { (pattern : StimulusKind) → IsPattern pattern → (ticks : ℕ) (jobs : List Job)
        → FollowPattern pattern ticks jobs
        → length jobs ≤ arrival_count pattern ticks }
{}

/// A table that is lawful on some cores is lawful where these are all cores of the system.
pub fn tables_of_all_cores_are_lawful()
    ensures { (system : System) (cores : List Bool) → ((core : ℕ) → core < system.cores → is_among cores core ≡ true)
        → IsSound system → (table : JobTable) → IsLawfulOn system cores table → IsLawful system table }
{}

/// A generated model of at most `MOST_TASKS` tasks is valid and its names are of the grammar of
/// names, whatever the seed.
pub fn generated_models_are_valid()
    ensures valid { (seed tasks : ℕ) → tasks ≤ MOST_TASKS → IsValid (generated seed tasks) }
    ensures named { (seed tasks : ℕ) → tasks ≤ MOST_TASKS → AreNamed (generated seed tasks) }
{}
