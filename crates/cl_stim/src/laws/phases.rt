//! Phases: their first and last arrivals about a moment, and how the jobs of runs keep to them.
ghost use Rattle.std.specs.Prelude.{◌≡◌, ℕ, suc, ℤ, pos, ◌+ℤ◌, ◌≤ℤ◌, ◌<◌, Some, length};
ghost use Rattle.cl_model.specs.Timing.{greatest_distance};
ghost use Rattle.cl_runs.specs.{TaskTiming.{System, IsSound, timing_at}, Table.job_at, Run.{Run, jobs_of}, Legal.IsLegal};
ghost use Rattle.cl_stim.specs.{declared.phase.Phase.Phase, Phase.{IsPhase, IsArrivalOf, AreConsecutive, phase_of, first_arrival, last_arrival}};

/// The first arrival of a phase at or after a moment is an arrival of the phase, isn't before the
/// moment, and isn't after any other arrival at or after the moment.
pub fn first_arrivals_are_first()
    ensures arrives { (phase : Phase) → IsPhase phase → (moment : ℤ)
        → IsArrivalOf phase (first_arrival phase moment) }
    ensures after { (phase : Phase) → IsPhase phase → (moment : ℤ)
        → moment ≤ℤ first_arrival phase moment }
    ensures first { (phase : Phase) → IsPhase phase → (moment arrival : ℤ)
        → IsArrivalOf phase arrival → moment ≤ℤ arrival
        → first_arrival phase moment ≤ℤ arrival }
{}

/// The last arrival of a phase at or before a moment is an arrival of the phase, isn't after the
/// moment, and isn't before any other arrival at or before the moment.
pub fn last_arrivals_are_last()
    ensures arrives { (phase : Phase) → IsPhase phase → (moment : ℤ)
        → IsArrivalOf phase (last_arrival phase moment) }
    ensures before { (phase : Phase) → IsPhase phase → (moment : ℤ)
        → last_arrival phase moment ≤ℤ moment }
    ensures last { (phase : Phase) → IsPhase phase → (moment arrival : ℤ)
        → IsArrivalOf phase arrival → arrival ≤ℤ moment
        → arrival ≤ℤ last_arrival phase moment }
{}

/// In a legal run, each job of a task that has a phase arrives at an arrival of the phase, and the
/// job before it at the arrival before. Each job of any task arrives at most the greatest distance
/// after the job before it.
pub fn arrivals_are_those_of_jobs()
    ensures arrive { (system : System) → IsSound system → (run : Run) → IsLegal system run
        → (task : ℕ) → task < length system.tasks
        → (phase : Phase) → phase_of (timing_at system task).pattern ≡ Some phase → (job : ℕ)
        → job < length (jobs_of run task)
        → IsArrivalOf phase (pos (job_at (jobs_of run task) job).arrival) }
    ensures follow { (system : System) → IsSound system → (run : Run) → IsLegal system run
        → (task : ℕ) → task < length system.tasks
        → (phase : Phase) → phase_of (timing_at system task).pattern ≡ Some phase → (job : ℕ)
        → suc job < length (jobs_of run task)
        → AreConsecutive phase (pos (job_at (jobs_of run task) job).arrival) (pos (job_at (jobs_of run task) (suc job)).arrival) }
    ensures within { (system : System) → IsSound system → (run : Run) → IsLegal system run
        → (task : ℕ) → task < length system.tasks
        → (job : ℕ) → suc job < length (jobs_of run task)
        → pos (job_at (jobs_of run task) (suc job)).arrival
        ≤ℤ (pos (job_at (jobs_of run task) job).arrival +ℤ pos (greatest_distance (timing_at system task).pattern)) }
{}
