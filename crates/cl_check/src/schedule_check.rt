//! Checking whether the cores execute what is scheduled. Times are in ticks.
ghost use Rattle.std.specs.Prelude.{◌≡◌, ◌<◌, length};
ghost use Rattle.cl_runs.specs.{Run.IsInForm, SystemOf.system_of, TaskTiming.IsSound, Table.IsLawful};
ghost use Rattle.cl_check.specs.Inner.Following.{IsFollowed, Lasts, Follows, ChecksCore};

use crate::run_fault::{Rule, RunFault};
use cl_model::ValidModel;
use cl_run_data::{RunData, Stretch};
use cl_sched::CoreProgress;
use std::alloc::Global;

/// Goes on to the end of a stretch, as long as the core executes what is scheduled. `Illegal` has
/// the first tick in which it doesn't.
fn follow(
    model: &ValidModel,
    run: &RunData,
    core: u32,
    stretch: Stretch,
    reached: &mut CoreProgress,
) -> Result<(), RunFault>
    requires core { core < length model.now.cores }
    requires sound { IsSound (system_of model.now) }
    requires in_form { IsInForm (system_of model.now) run.now }
    requires lawful { IsLawful (system_of model.now) run.now.table }
    requires followed { IsFollowed (system_of model.now) run.now core reached.old }
    requires lasts { Lasts run.now core reached.old.tick stretch }
    ensures { Follows (system_of model.now) run.now core stretch.end result reached.new }
{
    'events: while reached.tick < stretch.end {
        let next = reached.next(stretch.end);
        if next.who != stretch.who {
            return Err(RunFault::Illegal {
                rule: Rule::Schedule,
                place: core,
                tick: reached.tick,
            });
        }
        reached.advance(model, run.table(), next, next.until);
    }
    Ok(())
}

/// Goes on over all stretches of a core, as long as it executes what is scheduled. `Illegal` has
/// the first tick in which it doesn't.
fn follow_all(
    model: &ValidModel,
    run: &RunData,
    core: u32,
    reached: &mut CoreProgress,
) -> Result<(), RunFault>
    requires core { core < length model.now.cores }
    requires sound { IsSound (system_of model.now) }
    requires in_form { IsInForm (system_of model.now) run.now }
    requires lawful { IsLawful (system_of model.now) run.now.table }
    requires followed { IsFollowed (system_of model.now) run.now core reached.old }
    requires begin { reached.old.tick ≡ 0 }
    ensures { ChecksCore (system_of model.now) run.now core result }
{
    for stretch in run.stretches(core) {
        follow(model, run, core, *stretch, reached)?;
    }
    Ok(())
}

/// Checks whether a core executes in each tick what is scheduled. `Illegal` has the first tick in
/// which it doesn't, and `NoMemory` comes where there is no memory for the progress of the core.
pub fn check_core(
    alloc: Global,
    model: &ValidModel,
    run: &RunData,
    core: u32,
) -> Result<(), RunFault>
    requires core { core < length model.now.cores }
    requires sound { IsSound (system_of model.now) }
    requires in_form { IsInForm (system_of model.now) run.now }
    requires lawful { IsLawful (system_of model.now) run.now.table }
    ensures { ChecksCore (system_of model.now) run.now core result }
{
    let mut reached = CoreProgress::begin(alloc, model, run.table(), core)?;
    follow_all(model, run, core, &mut reached)
}
