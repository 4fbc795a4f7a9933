//! What holds of the best orders and of the headroom of a model.
ghost use Rattle.std.specs.Prelude.{◌≡◌, ℕ, ◌<◌, ◌≤◌, false, List, length, All, Option, slice_index};
ghost use Rattle.cl_model.specs.{declared.model.SystemModel.SystemModel, Ranges.IsInRange, Validity.IsValid};
ghost use Rattle.cl_runs.specs.{SystemOf.system_of, Requirements.{MeetsDeadlines, IsInTime}};
ghost use Rattle.cl_bound.specs.{declared.answer.TaskAnswer.TaskAnswer, Answers.{answers_of, is_late}};
ghost use Rattle.cl_scale.specs.Scaled.{scaled};
ghost use Rattle.cl_tune.specs.{declared.answer.OrderAnswer.OrderAnswer, BestOrders.{IsBestOrder, AreBestPriorities, IsOrderAnswer}, Headroom.{Keeps, IsHeadroom}, Orders.IsPassing, Priorities.{with_all_priorities, HasPriorities}};

/// A core has at most one best order.
pub fn best_orders_are_unique()
    ensures { (model : SystemModel) (core : ℕ) (one other : List ℕ) → IsBestOrder model core one
        → IsBestOrder model core other
        → one ≡ other }
{}

/// A valid model has exactly one answer on its orders: its best priorities, or the first core of
/// which no order passes.
pub fn orders_are_unique()
    ensures some { (model : SystemModel) → IsValid model
        → (answer : OrderAnswer) × IsOrderAnswer model answer }
    ensures one { (model : SystemModel) → IsValid model → (one other : OrderAnswer)
        → IsOrderAnswer model one → IsOrderAnswer model other → one ≡ other }
{}

/// Where all tasks of a valid model have their best priorities at once, each task passes: it isn't
/// late, and its deadline doesn't span too many least distances of a task of higher priority on its
/// core.
pub fn best_orders_pass_together()
    ensures { (model : SystemModel) → IsValid model → (priorities : List ℕ)
        → AreBestPriorities model priorities
        → (task : ℕ) → task < length model.tasks
        → IsPassing (system_of (with_all_priorities model (slice_index priorities))) task }
{}

/// A valid model with its best priorities is valid. The system of a model whose tasks get other
/// priorities is the system of the model but for these priorities.
pub fn reordered_models_are_valid()
    ensures valid { (model : SystemModel) → IsValid model → (priorities : List ℕ)
        → AreBestPriorities model priorities
        → IsValid (with_all_priorities model (slice_index priorities)) }
    ensures system { (model : SystemModel) (priority : ℕ → ℕ)
        → HasPriorities (system_of model) (system_of (with_all_priorities model priority)) priority }
{}

/// No task of a valid model with its best priorities is late, and its deadlines are met in every
/// legal run.
pub fn reordered_models_are_in_time()
    ensures timely { (model : SystemModel) → IsValid model → (priorities : List ℕ)
        → AreBestPriorities model priorities
        → All (λ (answer : TaskAnswer). is_late answer ≡ false)
        (answers_of (system_of (with_all_priorities model (slice_index priorities)))) }
    ensures deadlines { (model : SystemModel) → IsValid model → (priorities : List ℕ)
        → AreBestPriorities model priorities
        → MeetsDeadlines (with_all_priorities model (slice_index priorities)) }
{}

/// A valid model that is scaled by a percentage that keeps is in time: in every legal run its
/// deadlines are met and each requirement is kept.
pub fn kept_percentages_are_in_time()
    ensures { (model : SystemModel) → IsValid model → (percent : ℕ)
        → Keeps model percent → IsInTime (scaled model percent) }
{}

/// A valid model whose greatest execution times are scaled is valid where it is in range.
pub fn scaled_models_are_valid()
    ensures { (model : SystemModel) → IsValid model → (percent : ℕ)
        → IsInRange (scaled model percent)
        → IsValid (scaled model percent) }
{}

/// Where a valid model scaled by a percentage is in range, has no late task and meets each
/// requirement, so does the model scaled by each smaller percentage.
pub fn smaller_percentages_keep()
    ensures { (model : SystemModel) → IsValid model → (less more : ℕ) → less ≤ more
        → Keeps model more → Keeps model less }
{}

/// A valid model has exactly one answer on its headroom: the greatest percentage that keeps, or
/// that 1 percent doesn't keep.
pub fn headrooms_are_unique()
    ensures some { (model : SystemModel) → IsValid model
        → (percent : Option ℕ) × IsHeadroom model percent }
    ensures one { (model : SystemModel) → IsValid model → (one other : Option ℕ)
        → IsHeadroom model one → IsHeadroom model other → one ≡ other }
{}
