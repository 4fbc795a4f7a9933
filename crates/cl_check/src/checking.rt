//! Checking whether a run is legal. Times are in ticks.
ghost use Rattle.std.specs.Prelude.{◌≢◌, IfOk, IfErr};
ghost use Rattle.cl_model.specs.Validity.{IsValid};
ghost use Rattle.cl_runs.specs.{Run.IsInForm, SystemOf.system_of, Table.IsLawful, Legal.IsLegal};
ghost use Rattle.cl_sched.specs.Continuing.{HasContinuations};
ghost use Rattle.cl_check.specs.{Legality.IsRunFaultOf, Inner.Following.{ChecksCores, ChecksRun}};

use crate::run_fault::RunFault;
use crate::schedule_check::check_core;
use crate::table_check::check_table;
use cl_model::ValidModel;
use cl_run_data::RunData;
use std::alloc::Global;

/// Checks whether each core executes in each tick what is scheduled, or finds the first fault.
fn check_cores(alloc: Global, model: &ValidModel, run: &RunData) -> Result<(), RunFault>
    requires in_form { IsInForm (system_of model.now) run.now }
    requires lawful { IsLawful (system_of model.now) run.now.table }
    ensures { ChecksCores (system_of model.now) run.now result }
{
    for core in 0..model.cores() {
        check_core(alloc, model, run, core)?;
    }
    Ok(())
}

/// Checks whether the run is legal, or finds the first broken rule.
fn check_rules(alloc: Global, model: &ValidModel, run: &RunData) -> Result<(), RunFault>
    requires { IsInForm (system_of model.now) run.now }
    ensures rules { ChecksRun (system_of model.now) run.now result }
    ensures valid { IsValid model.now }
{
    check_table(model, run.table())?;
    check_cores(alloc, model, run)?;
    Ok(())
}

/// Checks whether a run is legal: each job arrives, is released and executes as its task may, no
/// further job is due, and each core executes in each tick what is scheduled. The rules are checked
/// in order: for each task, in file order, each job by `Arrival`, `Release` and `Time`, and then
/// `Missing`; then for each core in order `Schedule`.
///
/// The run is in form, and stays as it was. A run that isn't legal gives `Illegal`, unless memory
/// runs out before: the first broken rule, with the number of its task or core, and with a tick:
/// that of the job's arrival, the latest tick at which a missing job is due, or the first tick in
/// which the core doesn't execute what is scheduled. `NoMemory` comes where there is no memory for
/// the progress of a core, and is the only other error. A legal run goes on to a legal run of every
/// greater length. The time that the check takes doesn't depend on the number of ticks.
pub fn check_run(alloc: Global, model: &ValidModel, run: &RunData) -> Result<(), RunFault>
    requires { IsInForm (system_of model.now) run.now }
    ensures legal { IfOk result (λ _. IsLegal (system_of model.now) run.now) }
    ensures first { IfErr result (IsRunFaultOf (system_of model.now) run.now) }
    ensures illegal { IfErr result (λ fault. fault ≢ RunFault.NoMemory
        → IsLegal (system_of model.now) run.now → ⊥) }
    ensures continuation { IfOk result (λ _. HasContinuations (system_of model.now) run.now) }
{
    check_rules(alloc, model, run)
}
