//! The few checks of changes that set something of a valid model, made before the change. Times are
//! in ticks.
ghost use Rattle.std.specs.Prelude.{◌<◌, ◌++◌, length};
ghost use Rattle.cl_model.specs.{Answers.{Answers, Passes}, Changes.{with_range, with_kind, with_deadline}, Groups.IsStepOf, ValidTasks.deadline_checks, Validity.{IsValid, refusals_of}};
ghost use Rattle.cl_edit.specs.{FewChecks.{range_refusals, number_refusals}, Inner.Paces.all_limits_on};

use crate::pace::Retiming;
use cl_model::{Code, Key, ModelFault, Part, Step, StimulusKind, ValidModel, refuse_when};
use cl_valid::{has_late_offset, has_long_burst, has_no_distance};

/// Checks M36 for a runnable that gets other execution times.
fn check_times(step: Step, least: u64, greatest: u64) -> Result<(), ModelFault>
    ensures { Answers result (range_refusals step least greatest) tt }
{
    let place = Part::Task
        .section_place()
        .at_item(step.task)
        .at_sub(step.place);
    refuse_when(greatest < least, Code::M36, place.at_key(Key::Greatest))
}

/// Checks whether a runnable may get other execution times.
pub(crate) fn check_range(
    model: &ValidModel,
    step: Step,
    least: u64,
    greatest: u64,
) -> Result<(), ModelFault>
    requires valid { IsValid model.now }
    requires step { IsStepOf model.now step }
    ensures { Passes result (refusals_of (with_range model.now step least greatest)) }
{
    check_times(step, least, greatest)
}

/// Checks whether a task may get another deadline, or none of its own.
pub(crate) fn check_deadline(
    model: &ValidModel,
    task: u32,
    deadline: Option<u64>,
) -> Result<(), ModelFault>
    requires valid { IsValid model.now }
    requires task { task < length model.now.tasks }
    ensures { Passes result (refusals_of (with_deadline model.now task deadline)) }
{
    let change = Retiming::Deadline { task, deadline };
    change.check_task(model, task)
}

/// Checks M27, M28 and M47 for a stimulus that becomes one of this kind.
#[tactic(auto, using(cl_model::proofs::FirstRefusals::faults))]
fn check_numbers(stimulus: u32, kind: StimulusKind) -> Result<(), ModelFault>
    ensures { Answers result (number_refusals stimulus kind) tt }
{
    let place = Part::Stimulus.section_place().at_item(stimulus);
    refuse_when(has_late_offset(kind), Code::M27, place.at_key(Key::Offset))?;
    refuse_when(
        has_no_distance(kind),
        Code::M28,
        place.at_key(Key::Greatest),
    )?;
    refuse_when(has_long_burst(kind), Code::M47, place.at_key(Key::Distance))?;
    Ok(())
}

/// Checks M27, M28 and M47 for a stimulus that becomes one of this kind, then M32 and M33 for each
/// task that names it, and then M42 for all tasks.
#[tactic(auto, using(cl_model::proofs::FirstRefusals::faults))]
fn check_kind_parts(model: &ValidModel, stimulus: u32, kind: StimulusKind) -> Result<(), ModelFault>
    requires valid { IsValid model.now }
    requires stimulus { stimulus < length model.now.stimuli }
    ensures { Passes result
        (number_refusals stimulus kind ++ (all_limits_on model.now (Retiming.Kind stimulus kind) stimulus ++ deadline_checks (with_kind model.now stimulus (λ _. kind)))) }
{
    check_numbers(stimulus, kind)?;
    let change = Retiming::Kind { stimulus, kind };
    change.check_stimulus(model, stimulus)
}

/// Checks whether a stimulus may become one of this kind.
pub(crate) fn check_kind(
    model: &ValidModel,
    stimulus: u32,
    kind: StimulusKind,
) -> Result<(), ModelFault>
    requires valid { IsValid model.now }
    requires stimulus { stimulus < length model.now.stimuli }
    ensures { Passes result (refusals_of (with_kind model.now stimulus (λ _. kind))) }
{
    check_kind_parts(model, stimulus, kind)
}
