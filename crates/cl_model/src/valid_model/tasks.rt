//! Tasks that are moved, added to a valid model or removed from it. The tables beside it are
//! updated, not made anew.
ghost use Rattle.std.specs.Prelude.{◌≡◌, ◌+◌, ◌<◌, ◌^◌, length, take, sum_by, IfOk};
ghost use Rattle.cl_model.specs.{ByNumber.task_at, Changes.{with_place, with_new_task, without_task}, Named.all_runnables, Validity.IsValid};

use crate::model::SystemModel;
use crate::name::Name;
use crate::task::TaskDef;
use crate::valid_model::ValidModel;
use cl_time::NoMemory;

fn count_runnables(tasks: &[TaskDef]) -> usize
    requires { sum_by (λ task. length task.runnables) tasks.now < 2 ^ 64 }
    ensures { result ≡ sum_by (λ task. length task.runnables) tasks.now }
{
    tasks.iter().map(|task| task.runnables.len()).sum()
}

/// Returns the number of the first runnable of a task, counted over all tasks, and the number after
/// that of its last one.
fn runnables_of(model: &SystemModel, task: usize) -> (usize, usize)
    requires valid { IsValid model.now }
    requires task { task < length model.now.tasks }
    ensures first { result.0 ≡ length (all_runnables (take task model.now.tasks)) }
    ensures last { result.1 ≡ result.0 + length (task_at model.now task).runnables }
{
    let tasks = model.tasks.as_slice();
    let first = count_runnables(&tasks[..task]);
    (first, first + tasks[task].runnables.len())
}

impl ValidModel {
    /// Returns the model in which a task has this core and this priority. Where memory runs out,
    /// nothing is left of the model.
    pub fn with_place(self, task: u32, core: &Name, priority: u64) -> Result<ValidModel, NoMemory>
        requires task { task < length self.tasks }
        requires valid { IsValid (with_place self task core.now priority) }
        ensures { IfOk result (λ changed. changed ≡ with_place self task core.now priority) }
    {
        let mut model = self.model;
        let mut look_ups = self.look_ups;
        let Some(number) = look_ups.names.cores.number_of(core) else {
            unreachable!();
        };
        look_ups.tasks.move_task(task, number as u32)?;
        model.set_place(task as usize, core, priority);
        Ok(ValidModel { model, look_ups })
    }

    /// Returns the model with one more task after the others. Where memory runs out, nothing is
    /// left of the model.
    pub fn with_task(self, task: TaskDef) -> Result<ValidModel, NoMemory>
        requires { IsValid (with_new_task self task) }
        ensures { IfOk result (λ changed. changed ≡ with_new_task self task) }
    {
        let mut model = self.model;
        let mut look_ups = self.look_ups;
        let Some(core) = look_ups.names.cores.number_of(&task.core) else {
            unreachable!();
        };
        let Some(stimulus) = look_ups.names.stimuli.number_of(&task.stimulus) else {
            unreachable!();
        };
        look_ups.add_task(&task, core as u32, stimulus as u32)?;
        model.tasks.push(task)?;
        Ok(ValidModel { model, look_ups })
    }

    /// Returns the model without a task, which no chain names. The others keep their order.
    pub fn without_task(self, task: u32) -> ValidModel
        requires task { task < length self.tasks }
        requires valid { IsValid (without_task self task) }
        ensures { result ≡ without_task self task }
    {
        let mut model = self.model;
        let mut look_ups = self.look_ups;
        let (first, last) = runnables_of(&model, task as usize);
        look_ups.drop_task(task, first, last);
        model.drop_task(task as usize);
        ValidModel { model, look_ups }
    }
}
