//! The replay of a run, as text. Times are in ticks.
ghost use Rattle.std.specs.Prelude.{◌≡◌, length, map, IfOk};
ghost use Rattle.cl_analyse.specs.Findings.{AreFindings};
ghost use Rattle.cl_chain.specs.JobChains.{measured_of};
ghost use Rattle.cl_replay.specs.{Margins.{HaveMargins, IsReplayWithMargins}, Replay.{replay_text, IsReplayOf}};
ghost use Rattle.cl_runs.specs.{Legal.IsLegal, SystemOf.system_of};

use crate::lines::put_chains;
use crate::measuring::measure_all;
use cl_analyse::Findings;
use cl_chain::Measured;
use cl_model::ValidModel;
use cl_run_data::RunData;
use cl_text::Text;
use cl_time::NoMemory;
use std::alloc::Global;

/// Builds the replay of a run: a title, and for each chain in file order a line for each kind of
/// length. The line has the longest complete chain of the kind in the run, the number of complete
/// ones, the bound that was found, and the margin that the chain leaves to it. Where the run has no
/// complete chain of the kind, the line says so and has the bound alone; where the chain is late,
/// it says so in place of the bound and the margin. A margin is the bound minus the measured
/// length, and never negative. Times are in ticks.
///
/// The findings are those of the model, and the run is legal for it. `NoMemory` comes where there
/// is no memory for what is measured or for the text; it leaves nothing. It takes a time
/// proportional to the stretches of the run and, for each chain, to the jobs of the tasks of its
/// groups and the stretches of these tasks, whatever the number of ticks.
pub fn replay(
    alloc: Global,
    model: &ValidModel,
    findings: &Findings,
    run: &RunData,
) -> Result<Text, NoMemory>
    requires found { AreFindings model.now findings.now }
    requires legal { IsLegal (system_of model.now) run.now }
    ensures text { IfOk result (IsReplayOf model.now run.now) }
    ensures margins { IfOk result (IsReplayWithMargins model.now run.now) }
{
    let measured = measure_all(alloc, model, run)?;
    text_of(alloc, model, findings, measured.as_slice())
}

/// Builds the text of a replay from what is measured of each chain.
fn text_of(
    alloc: Global,
    model: &ValidModel,
    findings: &Findings,
    measured: &[Measured],
) -> Result<Text, NoMemory>
    requires found { AreFindings model.now findings.now }
    requires one_a_chain { length measured.now ≡ length model.now.chains }
    requires margins { HaveMargins model.now findings.now (map measured_of measured.now) }
    ensures { IfOk result
        (λ text. text ≡ replay_text model.now findings.now (map measured_of measured.now)) }
{
    let mut text = Text::new(alloc);
    text.put(b"chainlat replay 1\n")?;
    put_chains(&mut text, model, findings, measured)?;
    Ok(text)
}
