//! The cores that a run is made on, marked by their numbers.
ghost use Rattle.std.specs.Prelude.{◌≡◌, ◌<◌, true, false, length, replicate, slice_set, All, IfOk};
ghost use Rattle.cl_model.specs.{ByNumber.core_of, Groups.IsGroupOf};
ghost use Rattle.cl_run_data.specs.Parts.{is_among};
ghost use Rattle.cl_near.specs.Inner.Cores.{AreMarked};

use cl_model::{Group, List, ValidModel};
use cl_time::NoMemory;
use std::alloc::Global;

/// Lists the cores of a model, none of them marked.
fn no_cores(alloc: Global, model: &ValidModel) -> Result<List<bool>, NoMemory>
    ensures { IfOk result (λ cores. cores ≡ replicate (length model.now.cores) false) }
{
    let mut cores = List::with_room(alloc, model.cores() as usize)?;
    for _ in 0..model.cores() {
        cores.push(false)?;
    }
    Ok(cores)
}

/// Marks one more core.
fn mark(cores: &mut List<bool>, core: u32)
    requires { core < length cores.old }
    ensures { cores.new ≡ slice_set cores.old core true }
{
    *cores.item_mut(core as usize) = true;
}

/// Marks the core of a task alone. `NoMemory` comes where there is no memory for the list; it leaves
/// nothing.
pub(crate) fn core_alone(
    alloc: Global,
    model: &ValidModel,
    task: u32,
) -> Result<List<bool>, NoMemory>
    requires task { task < length model.now.tasks }
    ensures { IfOk result (λ cores. is_among cores (core_of model.now task) ≡ true) }
{
    let mut cores = no_cores(alloc, model)?;
    mark(&mut cores, model.core_of(task));
    Ok(cores)
}

/// Marks the cores of the tasks of groups. `NoMemory` comes where there is no memory for the list; it
/// leaves nothing.
pub(crate) fn cores_of(
    alloc: Global,
    model: &ValidModel,
    groups: &[Group],
) -> Result<List<bool>, NoMemory>
    requires { All (IsGroupOf model.now) groups.now }
    ensures { IfOk result (AreMarked model.now groups.now (length groups.now)) }
{
    let mut cores = no_cores(alloc, model)?;
    for group in groups {
        mark(&mut cores, model.core_of(group.task));
    }
    Ok(cores)
}
