//! The checks of stimuli.
ghost use Rattle.std.specs.Prelude.{◌≡◌, ◌*◌, ◌<◌, ◌^◌, nat_lt, length};
ghost use Rattle.cl_model.specs.{Answers.Answers, Ranges.IsInRange, Refusals.each, ValidNames.{has_late_offset, has_no_distance, has_long_burst, offset_check, distance_check, burst_check, stimulus_checks}};

use crate::places::entry_of;
use cl_model::{
    Code, Key, ModelFault, Part, Place, StimulusDef, StimulusKind, SystemModel, refuse_when,
};

/// Whether the kind has an offset, and that isn't less than the period.
pub fn has_late_offset(kind: StimulusKind) -> bool
    ensures { result ≡ has_late_offset kind }
{
    match kind {
        StimulusKind::Periodic { period, offset, .. }
        | StimulusKind::Burst { period, offset, .. } => period <= offset,
        StimulusKind::Sporadic { .. } => false,
    }
}

/// Whether the kind is sporadic, and its least distance exceeds the greatest.
pub fn has_no_distance(kind: StimulusKind) -> bool
    ensures { result ≡ has_no_distance kind }
{
    match kind {
        StimulusKind::Periodic { .. } | StimulusKind::Burst { .. } => false,
        StimulusKind::Sporadic { least, greatest } => greatest < least,
    }
}

/// Whether `count` distances exceed the period. A product of more than 64 bits exceeds any period.
fn is_longer(count: u64, distance: u64, period: u64) -> bool
    ensures { result ≡ nat_lt period (count * distance) }
{
    match count.checked_mul(distance) {
        Some(length) => period < length,
        None => true,
    }
}

/// Whether the kind is a burst that doesn't fit its period: `count` distances exceed it.
pub fn has_long_burst(kind: StimulusKind) -> bool
    ensures { result ≡ has_long_burst kind }
{
    match kind {
        StimulusKind::Periodic { .. } | StimulusKind::Sporadic { .. } => false,
        StimulusKind::Burst {
            period,
            count,
            distance,
            ..
        } => is_longer(count, distance, period),
    }
}

fn check_offset(i: usize, stimulus: &StimulusDef) -> Result<(), ModelFault>
    requires { i < 2 ^ 32 }
    ensures { Answers result (offset_check i stimulus.now) tt }
{
    let place = entry_of(Part::Stimulus, i).at_key(Key::Offset);
    refuse_when(has_late_offset(stimulus.kind), Code::M27, place)
}

fn check_distance(i: usize, stimulus: &StimulusDef) -> Result<(), ModelFault>
    requires { i < 2 ^ 32 }
    ensures { Answers result (distance_check i stimulus.now) tt }
{
    let place = entry_of(Part::Stimulus, i).at_key(Key::Greatest);
    refuse_when(has_no_distance(stimulus.kind), Code::M28, place)
}

fn check_burst(i: usize, stimulus: &StimulusDef) -> Result<(), ModelFault>
    requires { i < 2 ^ 32 }
    ensures { Answers result (burst_check i stimulus.now) tt }
{
    let place = entry_of(Part::Stimulus, i).at_key(Key::Distance);
    refuse_when(has_long_burst(stimulus.kind), Code::M47, place)
}

#[tactic(auto, using(cl_model::proofs::FirstRefusals::loop_faults))]
fn check_offsets(stimuli: &[StimulusDef]) -> Result<(), ModelFault>
    requires { length stimuli.now < 2 ^ 32 }
    ensures { Answers result (each offset_check stimuli.now) tt }
{
    for (i, stimulus) in stimuli.iter().enumerate() {
        check_offset(i, stimulus)?;
    }
    Ok(())
}

#[tactic(auto, using(cl_model::proofs::FirstRefusals::loop_faults))]
fn check_distances(stimuli: &[StimulusDef]) -> Result<(), ModelFault>
    requires { length stimuli.now < 2 ^ 32 }
    ensures { Answers result (each distance_check stimuli.now) tt }
{
    for (i, stimulus) in stimuli.iter().enumerate() {
        check_distance(i, stimulus)?;
    }
    Ok(())
}

#[tactic(auto, using(cl_model::proofs::FirstRefusals::loop_faults))]
fn check_bursts(stimuli: &[StimulusDef]) -> Result<(), ModelFault>
    requires { length stimuli.now < 2 ^ 32 }
    ensures { Answers result (each burst_check stimuli.now) tt }
{
    for (i, stimulus) in stimuli.iter().enumerate() {
        check_burst(i, stimulus)?;
    }
    Ok(())
}

/// Checks M27 for each stimulus, then M28 for each, and then M47 for each. Fails with the first
/// refusal.
#[tactic(auto, using(cl_model::proofs::FirstRefusals::faults), unfolding(cl_model::specs::ValidNames::stimulus_checks))]
pub fn check_stimuli(model: &SystemModel) -> Result<(), ModelFault>
    requires { IsInRange model.now }
    ensures { Answers result (stimulus_checks model.now) tt }
{
    check_offsets(model.stimuli.as_slice())?;
    check_distances(model.stimuli.as_slice())?;
    check_bursts(model.stimuli.as_slice())?;
    Ok(())
}
