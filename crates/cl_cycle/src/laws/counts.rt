//! How many jobs of a phase arrive in a window, and that the jobs of legal runs are no more.
ghost use Rattle.std.specs.Prelude.{◌≡◌, ℕ, ℤ, pos, ◌+◌, ◌+ℤ◌, ◌-ℤ◌, ◌≤◌, ◌<◌, false, Some, length};
ghost use Rattle.std.specs.Int.{◌∣◌};
ghost use Rattle.cl_model.specs.{declared.stimulus.StimulusKind.StimulusKind, Timing.greatest_jitter};
ghost use Rattle.cl_runs.specs.{Pattern.IsPattern, TaskTiming.{System, IsSound, timing_at}, Run.{Run, jobs_of}, Legal.IsLegal};
ghost use Rattle.cl_stim.specs.{declared.phase.Phase.Phase, Phase.{IsPhase, phase_of, arrives_at}, Releases.{releases_in, most_releases}};
ghost use Rattle.cl_cycle.specs.Counts.{arrivals_from};

/// As many jobs of a phase arrive in a window as in one that begins whole periods later.
pub fn arrivals_come_round()
    ensures { (phase : Phase) → IsPhase phase → (ticks : ℕ) → phase.period ∣ ticks
        → (from : ℤ) (width : ℕ)
        → arrivals_from phase (from +ℤ pos ticks) width ≡ arrivals_from phase from width }
{}

/// A wider window has no fewer arrivals. Nor has one that begins a tick later, where no job arrives
/// in the tick that it leaves out.
pub fn windows_have_no_fewer_arrivals()
    ensures wider { (phase : Phase) (from : ℤ) (narrow wide : ℕ) → narrow ≤ wide
        → arrivals_from phase from narrow ≤ arrivals_from phase from wide }
    ensures later { (phase : Phase) (from : ℤ) → arrives_at phase from ≡ false → (width : ℕ)
        → arrivals_from phase from width ≤ arrivals_from phase (from +ℤ pos 1) width }
{}

/// In a legal run, the jobs of a task with fixed arrivals that are released in a window are at most
/// the arrivals of its phase from the greatest jitter before the window to its end.
pub fn released_jobs_arrive_in_phase()
    ensures { (system : System) → IsSound system → (run : Run) → IsLegal system run
        → (task : ℕ) → task < length system.tasks → (phase : Phase)
        → phase_of (timing_at system task).pattern ≡ Some phase → (start width : ℕ)
        → releases_in (jobs_of run task) start width
        ≤ arrivals_from phase (pos start -ℤ pos (greatest_jitter (timing_at system task).pattern))
        (width + greatest_jitter (timing_at system task).pattern) }
{}

/// From the greatest jitter before a window to its end, no more jobs of a phase arrive than are
/// released at most in a window as wide, wherever that begins.
pub fn arrivals_are_at_most_the_most_releases()
    ensures { (kind : StimulusKind) → IsPattern kind → (phase : Phase)
        → phase_of kind ≡ Some phase → (from : ℤ) (width : ℕ)
        → arrivals_from phase from (width + greatest_jitter kind) ≤ most_releases kind width }
{}
