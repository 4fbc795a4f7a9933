//! Kinds of stimuli with the numbers of an edit. Times are in ticks.
ghost use Rattle.std.specs.Prelude.{◌≡◌, if◌then◌else◌, Some, None};
ghost use Rattle.cl_model.specs.{Kinds.is_periodic, Changes.{with_period, with_offset, with_jitter, with_distances, with_burst}};
ghost use Rattle.cl_edit.specs.{Edited.{is_sporadic, is_burst, has_offset}, Inner.Kinds.{sets, with_numbers}};

use crate::edit::Edit;
use cl_model::StimulusKind;

fn with_period(kind: StimulusKind, period: u64) -> Option<StimulusKind>
    ensures { result ≡ (if is_periodic kind then Some (with_period period kind) else None) }
{
    match kind {
        StimulusKind::Periodic { offset, jitter, .. } => Some(StimulusKind::Periodic {
            period,
            offset,
            jitter,
        }),
        StimulusKind::Sporadic { .. } | StimulusKind::Burst { .. } => None,
    }
}

fn with_offset(kind: StimulusKind, offset: u64) -> Option<StimulusKind>
    ensures { result ≡ (if has_offset kind then Some (with_offset offset kind) else None) }
{
    match kind {
        StimulusKind::Periodic { period, jitter, .. } => Some(StimulusKind::Periodic {
            period,
            offset,
            jitter,
        }),
        StimulusKind::Sporadic { .. } => None,
        StimulusKind::Burst {
            period,
            count,
            distance,
            ..
        } => Some(StimulusKind::Burst {
            period,
            offset,
            count,
            distance,
        }),
    }
}

fn with_jitter(kind: StimulusKind, jitter: u64) -> Option<StimulusKind>
    ensures { result ≡ (if is_periodic kind then Some (with_jitter jitter kind) else None) }
{
    match kind {
        StimulusKind::Periodic { period, offset, .. } => Some(StimulusKind::Periodic {
            period,
            offset,
            jitter,
        }),
        StimulusKind::Sporadic { .. } | StimulusKind::Burst { .. } => None,
    }
}

fn with_distances(kind: StimulusKind, least: u64, greatest: u64) -> Option<StimulusKind>
    ensures { result ≡ (if is_sporadic kind then Some (with_distances least greatest kind) else None) }
{
    match kind {
        StimulusKind::Sporadic { .. } => Some(StimulusKind::Sporadic { least, greatest }),
        StimulusKind::Periodic { .. } | StimulusKind::Burst { .. } => None,
    }
}

fn with_burst(kind: StimulusKind, period: u64, count: u64, distance: u64) -> Option<StimulusKind>
    ensures { result ≡ (if is_burst kind then Some (with_burst period count distance kind) else None) }
{
    match kind {
        StimulusKind::Burst { offset, .. } => Some(StimulusKind::Burst {
            period,
            offset,
            count,
            distance,
        }),
        StimulusKind::Periodic { .. } | StimulusKind::Sporadic { .. } => None,
    }
}

/// Replaces the numbers of a kind by those of the edit. There is none exactly where the edit
/// doesn't set this kind.
pub(crate) fn kind_with(kind: StimulusKind, edit: &Edit) -> Option<StimulusKind>
    ensures { result ≡ (if sets edit.now kind then Some (with_numbers edit.now kind) else None) }
{
    match edit {
        Edit::Period { period, .. } => with_period(kind, *period),
        Edit::Offset { offset, .. } => with_offset(kind, *offset),
        Edit::Jitter { jitter, .. } => with_jitter(kind, *jitter),
        Edit::Distances {
            least,
            greatest,
            ..
        } => with_distances(kind, *least, *greatest),
        Edit::Burst {
            period,
            count,
            distance,
            ..
        } => with_burst(kind, *period, *count, *distance),
        _ => None,
    }
}
