//! What is measured of all chains of a model.
ghost use Rattle.std.specs.Prelude.{map, IfOk};
ghost use Rattle.cl_runs.specs.{SystemOf.system_of, Legal.IsLegal};
ghost use Rattle.cl_analyse.specs.{declared.findings.Findings.Findings, Findings.AreFindings};
ghost use Rattle.cl_chain.specs.JobChains.{measured_of};
ghost use Rattle.cl_replay.specs.{Margins.HaveMargins, Replay.AreMeasured};

use cl_chain::{Measured, measure_apart};
use cl_check::tasks_apart;
use cl_model::{List, ValidModel};
use cl_run_data::RunData;
use cl_time::NoMemory;
use std::alloc::Global;

/// Measures all chains of a model in a run, in file order. No measured chain is longer than the
/// bound that is found of it, if there is one.
pub(crate) fn measure_all(
    alloc: Global,
    model: &ValidModel,
    run: &RunData,
) -> Result<List<Measured>, NoMemory>
    requires { IsLegal (system_of model.now) run.now }
    ensures measured { IfOk result
        (λ measured. AreMeasured model.now run.now (map measured_of measured)) }
    ensures margins { IfOk result
        (λ measured. (findings : Findings) → AreFindings model.now findings
        → HaveMargins model.now findings (map measured_of measured)) }
{
    let apart = tasks_apart(alloc, model, run)?;
    let mut measured = List::new(alloc);
    for chain in 0..model.chains() {
        measured.push(measure_apart(alloc, model, run, &apart, chain)?)?;
    }
    Ok(measured)
}
