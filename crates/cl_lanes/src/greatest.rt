ghost use Rattle.std.specs.Prelude.{◌≡◌, ℕ, ◌+◌, ◌*◌, ◌/◌, ◌<◌, ◌≤◌, ◌↔◌, length, slice_index, EachIndex, SomeIndex, IsNone, IfSome};
ghost use Rattle.cl_lanes.specs.{Gaps.{gaps, HasGap, IsGreatest}, Inner.{Chunks.AreAboveLanes, Places.{ArePaired, IsAbove, IsGap}}};

use crate::lanes::{full_chunks, lane_gaps};
use std::simd::prelude::*;

/// Finds the greatest gap between the ends and their starts, in ticks.
///
/// The slices have equal lengths, and each end is at or after its start. Returns `None` exactly
/// where they are empty. Takes no memory.
pub fn greatest_gap(ends: &[u64], starts: &[u64]) -> Option<u64>
    requires as_many { length ends.now ≡ length starts.now }
    requires in_order { EachIndex ends.now
        (λ i. slice_index starts.now i ≤ slice_index ends.now i) }
    ensures empty { IsNone result ↔ (length ends.now ≡ 0) }
    ensures greatest { IfSome result (IsGreatest (gaps ends.now starts.now)) }
    ensures attained { IfSome result (λ gap. SomeIndex ends.now (HasGap ends.now starts.now gap)) }
    ensures above_each { IfSome result (λ gap.
        EachIndex ends.now (λ i. slice_index ends.now i ≤ slice_index starts.now i + gap)) }
{
    if ends.is_empty() {
        None
    } else {
        Some(greatest_with_rest(ends, starts, greatest_in_chunks(ends, starts)))
    }
}

// Finds one of the gaps, such that none in the full chunks is greater.
fn greatest_in_chunks(ends: &[u64], starts: &[u64]) -> u64
    requires paired { ArePaired ends.now starts.now }
    requires some { 0 < length ends.now }
    ensures one_of { IsGap ends.now starts.now result }
    ensures above { IsAbove ends.now starts.now (length ends.now / 8 * 8) result }
{
    let mut greatest = ends[0] - starts[0];
    for lane in greatest_by_lane(ends, starts) {
        greatest = greatest.max(lane);
    }
    greatest
}

// Finds for each lane one of the gaps, such that none of the lane in the full chunks is greater.
// Where no chunk is full, that is the gap of the first pair.
fn greatest_by_lane(ends: &[u64], starts: &[u64]) -> [u64; 8]
    requires paired { ArePaired ends.now starts.now }
    requires some { 0 < length ends.now }
    ensures { AreAboveLanes ends.now starts.now (length ends.now / 8) result }
{
    let mut greatest = u64x8::splat(ends[0] - starts[0]);
    let end_chunks = full_chunks(ends);
    let start_chunks = full_chunks(starts);
    for i in 0..end_chunks.len() {
        greatest = greatest.simd_max(lane_gaps(&end_chunks[i], &start_chunks[i]));
    }
    greatest.to_array()
}

// Finds the greatest gap, from one that none in the full chunks exceeds.
fn greatest_with_rest(ends: &[u64], starts: &[u64], in_chunks: u64) -> u64
    requires paired { ArePaired ends.now starts.now }
    requires one_of { IsGap ends.now starts.now in_chunks }
    requires above { IsAbove ends.now starts.now (length ends.now / 8 * 8) in_chunks }
    ensures one_of { IsGap ends.now starts.now result }
    ensures above { IsAbove ends.now starts.now (length ends.now) result }
{
    let mut greatest = in_chunks;
    for i in ends.len() / 8 * 8..ends.len() {
        greatest = greatest.max(ends[i] - starts[i]);
    }
    greatest
}
