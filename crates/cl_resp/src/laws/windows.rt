//! The window of a task, as the least width that holds its own demand and as the least fixpoint of
//! its demand.
ghost use Rattle.std.specs.Prelude.{◌≡◌, ℕ, ◌+◌, ◌-◌, ◌<◌, ◌≤◌, Bool, true, Some, None, length};
ghost use Rattle.cl_runs.specs.{TaskTiming.{System, timing_at, IsSound}, Priorities.is_above};
ghost use Rattle.cl_resp.specs.{declared.question.{Block.Block, Question.Question}, Question.either_question, Response.{demand, busy_window, IsWindow, IsLeastFixpoint, HasNoFixpoint, NoneServesBelow}};

/// The window of a task is the least width, from 1 tick up to the deadline less the jitter, that
/// holds its own demand. A task has no window exactly where no such width does.
pub fn windows_are_least()
    ensures found { (question : Question) (width : ℕ) → busy_window question ≡ Some width
        → IsWindow question width }
    ensures is_found { (question : Question) (width : ℕ) → IsWindow question width
        → busy_window question ≡ Some width }
    ensures none { (question : Question) → busy_window question ≡ None
        → (width : ℕ) → 1 ≤ width → width ≤ question.deadline - question.jitter
        → width < demand question width }
    ensures is_none { (question : Question)
        → ((width : ℕ) → 1 ≤ width → width ≤ question.deadline - question.jitter
        → width < demand question width)
        → busy_window question ≡ None }
{}

/// The window of a task that takes 1 tick or more, as each task of a sound system does, is the
/// least fixpoint of its demand, from 1 tick up to the deadline less the jitter. Such a task has no
/// window exactly where there is no fixpoint in this range, and then no width in this range holds
/// its own demand.
pub fn windows_are_fixpoints()
    ensures found { (question : Question) → 1 ≤ question.time → (width : ℕ)
        → busy_window question ≡ Some width → IsLeastFixpoint question width }
    ensures is_found { (question : Question) → 1 ≤ question.time → (width : ℕ)
        → IsLeastFixpoint question width → busy_window question ≡ Some width }
    ensures none { (question : Question) → busy_window question ≡ None → HasNoFixpoint question }
    ensures is_none { (question : Question) → 1 ≤ question.time → HasNoFixpoint question
        → busy_window question ≡ None }
    ensures short { (question : Question) → 1 ≤ question.time → HasNoFixpoint question
        → (width : ℕ) → 1 ≤ width → width ≤ question.deadline - question.jitter
        → width < demand question width }
{}

/// Windows never shrink from a task to one of lower priority on the same core: if no width below
/// some start holds the demand of the upper task, none holds that of the lower one, provided that
/// the block of the upper task is at most the block of the lower one plus its execution time.
pub fn windows_rise_down_a_core()
    ensures { (blocking : Block) (system : System) → IsSound system → (task higher : ℕ)
        → task < length system.tasks → higher < length system.tasks
        → is_above (timing_at system task) (timing_at system higher) ≡ true
        → (either_question blocking system (timing_at system higher)).block
        ≤ (either_question blocking system (timing_at system task)).block + (either_question blocking system (timing_at system task)).time
        → (start : ℕ) → NoneServesBelow (either_question blocking system (timing_at system higher)) start
        → NoneServesBelow (either_question blocking system (timing_at system task)) start }
{}

/// The demand never falls as the window grows.
pub fn demand_never_falls()
    ensures { (question : Question) (narrow wide : ℕ) → narrow ≤ wide
        → demand question narrow ≤ demand question wide }
{}
