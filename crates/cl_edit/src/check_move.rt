//! Whether a task of a valid model may be moved to another core and priority, checked before any
//! change.
ghost use Rattle.std.specs.Prelude.{◌≡◌, ℕ, ◌<◌, ◌++◌, nat_lt, if◌then◌else◌, length};
ghost use Rattle.cl_model.specs.{Answers.{Answers, Passes}, Changes.with_place, ValidTasks.deadline_checks, Validity.{IsValid, refusals_of}};
ghost use Rattle.cl_model.specs.ValidTasks as keys;
ghost use Rattle.cl_edit.specs.{declared.pace.Retiming.TheVariants.Move, Inner.{Paces.with_retiming, Places.{place_checks, IsFirstBeyond, first_checks}}};

use crate::check_new_task::task_key;
use crate::pace::Retiming;
use crate::pairs::PairFault;
use cl_model::{Code, Key, MOST_TASKS_OF_CORE, ModelFault, Name, ValidModel};

/// The later of two tasks in file order.
fn later_of(task: u32, other: u32) -> u32
    ensures { result ≡ (if nat_lt task other then other else task) }
{
    if task < other { other } else { task }
}

/// Finds the first task that M34 refuses after a task is moved to this core: the later in file
/// order of the moved task and the last task of the core. There is none exactly where the task is
/// already on the core, or the core isn't full.
fn first_beyond(model: &ValidModel, task: u32, core: u32) -> Option<u32>
    requires valid { IsValid model.now }
    requires task { task < length model.now.tasks }
    requires core { core < length model.now.cores }
    ensures { (priority : ℕ) → IsFirstBeyond (with_retiming model.now (Move task core priority)) result }
{
    let others = model.tasks_of_core(core);
    if model.core_of(task) == core || others.len() < MOST_TASKS_OF_CORE {
        return None;
    }
    match others.last() {
        Some(last) => Some(later_of(task, *last)),
        None => None,
    }
}

/// The refusal M31 of a task.
fn taken(task: u32) -> ModelFault
    ensures { result ≡ ModelFault.Refused (record { code = Code.M31; place = keys.task_key task Key.Priority }) }
{
    ModelFault::refused(Code::M31, task_key(task as usize, Key::Priority))
}

/// The refusal M34 of a task.
fn crowded(task: u32) -> ModelFault
    ensures { result ≡ ModelFault.Refused (record { code = Code.M34; place = keys.task_key task Key.Core }) }
{
    ModelFault::refused(Code::M34, task_key(task as usize, Key::Core))
}

/// Checks M31 and M34 for all tasks, from the first task that each of the two refuses. Where both
/// refuse the same task, it is M31.
fn check_first(clash: Option<u32>, beyond: Option<u32>) -> Result<(), ModelFault>
    ensures { Answers result (first_checks clash beyond) tt }
{
    match (clash, beyond) {
        (None, None) => Ok(()),
        (None, Some(last)) => Err(crowded(last)),
        (Some(task), Some(last)) if last < task => Err(crowded(last)),
        (Some(task), _) => Err(taken(task)),
    }
}

/// Checks M31 and M34 for all tasks after a task is moved to a core of the model.
fn check_places(model: &ValidModel, task: u32, core: u32, priority: u64) -> Result<(), ModelFault>
    requires valid { IsValid model.now }
    requires task { task < length model.now.tasks }
    requires core { core < length model.now.cores }
    ensures { Answers result (place_checks (with_retiming model.now (Move task core priority))) tt }
{
    let change = Retiming::Move {
        task,
        core,
        priority,
    };
    let clash = change.first_refused(model, PairFault::Clash);
    check_first(clash, first_beyond(model, task, core))
}

/// Checks M31, M34 and M42 for all tasks after a task is moved to a core of the model.
#[tactic(auto, using(cl_model::proofs::FirstRefusals::faults))]
fn check_moved(model: &ValidModel, task: u32, core: u32, priority: u64) -> Result<(), ModelFault>
    requires valid { IsValid model.now }
    requires task { task < length model.now.tasks }
    requires core { core < length model.now.cores }
    ensures { let changed = with_retiming model.now (Move task core priority) in Passes result
        (place_checks changed ++ deadline_checks changed) }
{
    check_places(model, task, core, priority)?;
    let change = Retiming::Move {
        task,
        core,
        priority,
    };
    change.check_pairs(model, PairFault::Outpaced)
}

/// Checks whether a task may be moved to another core and priority: M29 where no core has the name,
/// and else the first refusal of the changed model. Takes no memory.
pub(crate) fn check_move(
    model: &ValidModel,
    task: u32,
    core: &Name,
    priority: u64,
) -> Result<(), ModelFault>
    requires valid { IsValid model.now }
    requires task { task < length model.now.tasks }
    ensures { Passes result (refusals_of (with_place model.now task core.now priority)) }
{
    match model.core_named(core) {
        Some(core) => check_moved(model, task, core, priority),
        None => Err(ModelFault::refused(Code::M29, task_key(task as usize, Key::Core))),
    }
}
