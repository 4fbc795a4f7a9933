//! Which of the tasks above a task are in phase, and their cycle. Times are in ticks.
ghost use Rattle.std.specs.Prelude.{◌≡◌, ℕ, ◌+◌, ◌<◌, ◌≤◌, nat_le, List, [], ◌∷◌, length, filter, fold, Some, IfSome, IfNone};
ghost use Rattle.std.specs.Option.{option_to_list};
ghost use Rattle.arrayvec.specs.ArrayVec.{array_vec_len};
ghost use Rattle.cl_model.specs.{declared.limits.TheConstants.{MOST_TICKS, MOST_TASKS_OF_CORE}, Validity.IsValid};
ghost use Rattle.cl_runs.specs.{SystemOf.system_of, TaskTiming.{System, timing_at}};
ghost use Rattle.cl_stim.specs.{declared.phase.Phase.Phase, Phase.{IsPhaseInRange, phase_of}};
ghost use Rattle.cl_cycle.specs.{declared.cycle.TheConstants.{MOST_IN_CYCLE, MOST_WORK}, Cycles.{arrivals_together, joined_by, gathered_above, is_one_of, work_with}, Promises.IsCycleOf, Inner.Gathering.{has_higher, phase_above, is_above_with, tasks_beside, AreNoneBetween, IsNextPeriod}};
ghost use Rattle.cl_cycle.specs.Inner.Gathering.{AreTogether, IsGathered};

use arrayvec::ArrayVec;
use cl_model::{MOST_TASKS_OF_CORE, MOST_TICKS, ValidModel};
use cl_stim::{AnyStimulus, Arrivals, Phase};
use cl_time::lcm_upto;

/// How many jobs of the tasks in phase, and of the task below them if its arrivals are fixed, may
/// arrive in a cycle.
pub const MOST_IN_CYCLE: u64 = 10_000;

/// How many arrivals in a cycle, times how many releases of the other tasks above within a
/// deadline, a response by phases may look at. It caps the work that a hostile file can ask.
pub const MOST_WORK: u64 = 100_000_000;

/// Which of the tasks above a task are in phase, and after how many ticks these, and the task
/// itself if its arrivals are fixed, come round together.
#[derive(Drop)]
pub struct Cycle {
    in_phase: ArrayVec<u32, MOST_TASKS_OF_CORE>,
    ticks: u64,
    arrivals: u64,
}

/// How phases come round together: after how many ticks, and how many jobs arrive until then.
#[derive(Clone, Copy)]
struct Together {
    ticks: u64,
    arrivals: u64,
}

impl Together {
    /// Begins with the phase of a task, if it has one.
    fn begin(own: Option<Phase>) -> Together
        requires { IfSome own IsPhaseInRange }
        ensures { AreTogether (option_to_list own) result.ticks result.arrivals }
    {
        match own {
            Some(phase) => Together {
                ticks: phase.period,
                arrivals: phase.count,
            },
            None => Together {
                ticks: 1,
                arrivals: 0,
            },
        }
    }

    /// Adds one more phase. `None` comes exactly where more than `MOST_IN_CYCLE` jobs would arrive
    /// until all come round.
    fn with(self, phase: &Phase) -> Option<Together>
        requires ticks { 1 ≤ self.ticks }
        requires phase { IsPhaseInRange phase.now }
        ensures some { IfSome result (λ together. 1 ≤ together.ticks) }
        ensures many { IfNone result
            ((phases : List Phase) → AreTogether phases self.ticks self.arrivals
            → MOST_IN_CYCLE < arrivals_together (phase.now ∷ phases)) }
        ensures few { IfSome result
            (λ together. (phases : List Phase) → AreTogether phases self.ticks self.arrivals
            → (arrivals_together (phase.now ∷ phases) ≤ MOST_IN_CYCLE)
            × AreTogether (phase.now ∷ phases) together.ticks together.arrivals) }
    {
        let ticks = lcm_upto(phase.period, self.ticks, MOST_IN_CYCLE * MOST_TICKS)?;
        let before = self.arrivals.saturating_mul(ticks / self.ticks);
        let arrivals = before.saturating_add(phase.arrivals_in(ticks));
        if arrivals > MOST_IN_CYCLE {
            return None;
        }
        Some(Together { ticks, arrivals })
    }
}

impl Cycle {
    /// Finds which of the tasks above a task of a valid model are in phase, and their cycle. It
    /// goes through those with fixed arrivals by their periods, the least first, and in file order
    /// where these are alike.
    ///
    /// Its time grows with the number of tasks on the core times that of the periods there.
    pub fn of(model: &ValidModel, task: u32) -> Cycle
        requires { task < length model.now.tasks }
        ensures { IsCycleOf (system_of model.now) task result }
    {
        // So that it is known that the model is valid.
        let _ = model.plain();
        let gathered = Cycle::gather(model, task);
        if gathered.is_little_work(model, task) {
            gathered
        } else {
            Cycle::alone(model, task)
        }
    }

    /// Returns after how many ticks the tasks in phase, and the task itself, come round together.
    pub fn ticks(&self) -> u64
        ensures { result ≡ self.now.ticks }
    {
        self.ticks
    }

    /// Checks whether a task is in phase.
    pub fn has(&self, other: u32) -> bool
        ensures { result ≡ is_one_of self.now.in_phase.items other }
    {
        self.in_phase.contains(&other)
    }

    /// The cycle of a task with no task in phase.
    fn alone(model: &ValidModel, task: u32) -> Cycle
        requires valid { IsValid model.now }
        requires task { task < length model.now.tasks }
        ensures empty { array_vec_len result.in_phase ≡ 0 }
        ensures gathered { IsGathered (system_of model.now) task [] result }
    {
        let together = Together::begin(Phase::of(model.stimulus_of(task)));
        Cycle {
            in_phase: ArrayVec::new(),
            ticks: together.ticks,
            arrivals: together.arrivals,
        }
    }

    /// Gathers the tasks above that come round soon, period by period.
    fn gather(model: &ValidModel, task: u32) -> Cycle
        requires valid { IsValid model.now }
        requires task { task < length model.now.tasks }
        ensures { IsGathered (system_of model.now) task (gathered_above (system_of model.now) task)
            result }
    {
        let mut cycle = Cycle::alone(model, task);
        let mut period = 0;
        while let Some(next) = next_period(model, task, period) {
            cycle.join_all(model, task, next);
            period = next;
        }
        cycle
    }

    /// Lets the tasks above that have this period join, each if it comes round soon with those that
    /// have joined before.
    fn join_all(&mut self, model: &ValidModel, task: u32, period: u64)
        requires task { task < length model.now.tasks }
        requires ticks { 1 ≤ self.old.ticks }
        requires room { array_vec_len self.old.in_phase
            + length (filter (is_above_with model.now task period) (tasks_beside model.now task))
            ≤ MOST_TASKS_OF_CORE }
        ensures ticks { 1 ≤ self.new.ticks }
        ensures room { array_vec_len self.new.in_phase ≤ array_vec_len self.old.in_phase
            + length (filter (is_above_with model.now task period) (tasks_beside model.now task)) }
        ensures gathered { (so_far : List ℕ)
            → IsGathered (system_of model.now) task so_far self.old
            → IsGathered (system_of model.now) task
            (fold (joined_by (system_of model.now) task) so_far
            (filter (is_above_with model.now task period) (tasks_beside model.now task)))
            self.new }
    {
        for other in model.tasks_of_core(model.core_of(task)) {
            if let Some(phase) = phase_above(model, task, *other) {
                if phase.period == period {
                    self.join(*other, &phase);
                }
            }
        }
    }

    /// Lets a task join if it comes round soon with those that have joined before.
    fn join(&mut self, other: u32, phase: &Phase)
        requires ticks { 1 ≤ self.old.ticks }
        requires phase { IsPhaseInRange phase.now }
        requires room { array_vec_len self.old.in_phase < MOST_TASKS_OF_CORE }
        ensures ticks { 1 ≤ self.new.ticks }
        ensures room { array_vec_len self.new.in_phase ≤ array_vec_len self.old.in_phase + 1 }
        ensures gathered { (system : System) (task : ℕ) (so_far : List ℕ)
            → phase_of (timing_at system other).pattern ≡ Some phase.now
            → IsGathered system task so_far self.old
            → IsGathered system task (joined_by system task so_far other) self.new }
    {
        let so_far = Together {
            ticks: self.ticks,
            arrivals: self.arrivals,
        };
        if let Some(together) = so_far.with(phase) {
            self.in_phase.push(other);
            self.ticks = together.ticks;
            self.arrivals = together.arrivals;
        }
    }

    /// Checks whether the responses by these phases are at most as much work as the cap allows.
    fn is_little_work(&self, model: &ValidModel, task: u32) -> bool
        requires { task < length model.now.tasks }
        ensures { (so_far : List ℕ) → IsGathered (system_of model.now) task so_far self.now
            → result ≡ nat_le (work_with (system_of model.now) task so_far) MOST_WORK }
    {
        let deadline = model.deadline_of(task);
        let mut released: u64 = 0;
        for other in model.tasks_of_core(model.core_of(task)) {
            if is_above(model, task, *other) && !self.has(*other) {
                let most = AnyStimulus::of(model.stimulus_of(*other)).most(deadline);
                released = released.saturating_add(most);
            }
        }
        self.arrivals.saturating_mul(released) <= MOST_WORK
    }
}

/// Checks whether a task of the same core has a higher priority than this one.
fn is_above(model: &ValidModel, task: u32, other: u32) -> bool
    requires task { task < length model.now.tasks }
    requires other { other < length model.now.tasks }
    ensures higher { result ≡ has_higher model.now task other }
    ensures valid { IsValid model.now }
{
    model.task(other).priority > model.task(task).priority
}

/// Returns the phase of a task of the same core, if it stands above this one and its arrivals are
/// fixed.
fn phase_above(model: &ValidModel, task: u32, other: u32) -> Option<Phase>
    requires task { task < length model.now.tasks }
    requires other { other < length model.now.tasks }
    ensures phase { result ≡ phase_above model.now task other }
    ensures in_range { IfSome result IsPhaseInRange }
{
    if is_above(model, task, other) {
        Phase::of(model.stimulus_of(other))
    } else {
        None
    }
}

/// Finds the least period after this one of the tasks above whose arrivals are fixed.
fn next_period(model: &ValidModel, task: u32, period: u64) -> Option<u64>
    requires task { task < length model.now.tasks }
    requires period { period ≤ MOST_TICKS }
    ensures next { IfSome result (IsNextPeriod model.now task period) }
    ensures none { IfNone result
        (AreNoneBetween model.now task period (MOST_TICKS + 1) (tasks_beside model.now task)) }
{
    let mut least = MOST_TICKS + 1;
    for other in model.tasks_of_core(model.core_of(task)) {
        if let Some(phase) = phase_above(model, task, *other) {
            if phase.period > period {
                least = least.min(phase.period);
            }
        }
    }
    if least > MOST_TICKS {
        None
    } else {
        Some(least)
    }
}
