//! How far the greatest execution times of a model may be scaled.
ghost use Rattle.std.specs.Prelude.{◌≡◌, ◌≤◌, ◌↔◌, true, false, IsTrue, IsNone, IfOk, All, MatchBool};
ghost use Rattle.cl_model.specs.{Ranges.IsInRange, Validity.IsValid};
ghost use Rattle.cl_bound.specs.Answers.{is_late};
ghost use Rattle.cl_analyse.specs.Verdicts.{is_met};
ghost use Rattle.cl_scale.specs.Scaled.{scaled};
ghost use Rattle.cl_tune.specs.Headroom.{Keeps, IsHeadroom, SmallerKeep};

use crate::in_time::tasks_in_time;
use crate::times::{all_times, are_within};
use cl_analyse::{Findings, Verdict, analyse};
use cl_bound::TaskAnswer;
use cl_model::{SystemModel, ValidModel};
use cl_scale::{MOST_PERCENT, scaled};
use cl_time::{NoMemory, Steps};
use std::alloc::Global;
use std::sync::ledger::Ledger;

/// Whether a requirement is found to be met.
fn is_met(verdict: &Verdict) -> bool
    ensures { result ≡ is_met verdict.now }
{
    matches!(verdict, Verdict::Met { .. })
}

/// Whether no task is late.
fn are_in_time(answers: &[TaskAnswer]) -> bool
    ensures { IsTrue result ↔ All (λ answer. is_late answer ≡ false) answers.now }
{
    answers.iter().all(|answer| !answer.is_late())
}

/// Whether each requirement is found to be met.
fn are_met(verdicts: &[Verdict]) -> bool
    ensures { IsTrue result ↔ All (λ verdict. is_met verdict ≡ true) verdicts.now }
{
    verdicts.iter().all(|verdict| is_met(verdict))
}

/// Whether no task is late and each requirement is found to be met.
fn is_kept(findings: &Findings) -> bool
    ensures { IsTrue result ↔ ((All (λ answer. is_late answer ≡ false) findings.now.tasks)
        × (All (λ verdict. is_met verdict ≡ true) findings.now.verdicts)) }
{
    are_in_time(findings.tasks.as_slice()) && are_met(findings.verdicts.as_slice())
}

/// Makes a valid model of a plain one that is known to be valid. `NoMemory` leaves nothing of the
/// model.
fn adopted(alloc: Global, model: SystemModel) -> Result<ValidModel, NoMemory>
    requires { IsValid model }
    ensures { IfOk result (λ valid. valid ≡ model) }
{
    match ValidModel::adopt(alloc, model) {
        Ok(valid) => Ok(valid),
        Err((_, no_memory)) => Err(no_memory),
    }
}

/// Checks whether a percentage keeps, by the findings of the scaled model, which is in range.
fn keeps_by_findings<L: Ledger>(
    alloc: Global,
    model: &SystemModel,
    percent: u64,
    steps: &mut Steps<L>,
) -> Result<bool, NoMemory>
    requires valid { IsValid model.now }
    requires percent { percent ≤ MOST_PERCENT }
    requires in_range { IsInRange (scaled model.now percent) }
    ensures { IfOk result
        (λ kept. MatchBool kept (Keeps model.now percent) (Keeps model.now percent → ⊥)) }
{
    let scaled = scaled(alloc, model, percent)?;
    let scaled = adopted(alloc, scaled)?;
    let findings = analyse(alloc, &scaled, steps)?;
    Ok(is_kept(&findings))
}

/// Checks whether a percentage keeps: the scaled model is in range, none of its tasks is late, and
/// each requirement is met. Tasks are asked first, without a copy of the model, and a scaled copy
/// is analysed only where there are requirements.
fn keeps<L: Ledger>(
    alloc: Global,
    model: &ValidModel,
    percent: u64,
    steps: &mut Steps<L>,
) -> Result<bool, NoMemory>
    requires { percent ≤ MOST_PERCENT }
    ensures { IfOk result
        (λ kept. MatchBool kept (Keeps model.now percent) (Keeps model.now percent → ⊥)) }
{
    let plain = model.plain();
    let tasks = plain.tasks.as_slice();
    if !are_within(tasks, percent) {
        return Ok(false);
    }
    let times = all_times(alloc, tasks, percent)?;
    let timely = tasks_in_time(alloc, model, times.as_slice(), steps)?;
    if !timely {
        return Ok(false);
    }
    if plain.requirements.is_empty() {
        return Ok(true);
    }
    keeps_by_findings(alloc, plain, percent, steps)
}

/// Finds the greatest percentage that keeps, by halving the range that is left. There is none
/// exactly where 1 percent doesn't keep.
fn greatest_kept<L: Ledger>(
    alloc: Global,
    model: &ValidModel,
    steps: &mut Steps<L>,
) -> Result<Option<u64>, NoMemory>
    requires { IsValid model.now }
    ensures { IfOk result (IsHeadroom model.now) }
{
    // `kept` is 0 or a percentage that keeps, and no percentage from `end` to `MOST_PERCENT` keeps
    let mut kept = 0;
    let mut end = MOST_PERCENT + 1;
    while end - kept > 1 {
        let middle = (kept + end) / 2;
        if keeps(alloc, model, middle, steps)? {
            kept = middle;
        } else {
            end = middle;
        }
    }
    if kept == 0 {
        return Ok(None);
    }
    Ok(Some(kept))
}

/// Finds the headroom of a model: the greatest percentage from 1 to 1,000 that keeps. A percentage
/// keeps if the model stays in range, no task is late and each requirement is met when all greatest
/// execution times are scaled by it, each rounded down, but to no less than the least time. Each
/// smaller percentage keeps, too. `None` comes exactly where 1 percent doesn't keep.
///
/// The only error is `NoMemory`, where memory ran out; it leaves nothing. The tasks are asked for
/// at most ten percentages. Where there are requirements, a copy of the model is analysed for each
/// of these that leaves no task late. Each question to a task counts a step, and each analysis
/// counts its own.
pub fn headroom<L: Ledger>(
    alloc: Global,
    model: &ValidModel,
    steps: &mut Steps<L>,
) -> Result<Option<u64>, NoMemory>
    ensures greatest { IfOk result (IsHeadroom model.now) }
    ensures smaller { IfOk result (SmallerKeep model.now) }
    ensures none { IfOk result (λ percent. IsNone percent ↔ (Keeps model.now 1 → ⊥)) }
{
    let _valid = model.plain();
    greatest_kept(alloc, model, steps)
}
