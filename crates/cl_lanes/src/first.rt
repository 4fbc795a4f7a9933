ghost use Rattle.std.specs.Prelude.{◌≡◌, ℕ, ◌*◌, ◌/◌, ◌≤◌, ◌==◌, length, slice_index, position, EachIndex, IfNone, IfSome, MatchOption};
ghost use Rattle.cl_lanes.specs.{Gaps.{gaps, HasGap, IsFirst}, Inner.Places.{ArePaired, AreWithout}};

use crate::lanes::{first_lane, full_chunks};

/// Finds the first index whose end lies exactly `gap` ticks after its start.
///
/// The slices have equal lengths, and each end is at or after its start. Returns `None` exactly
/// where no index has the gap. Takes no memory, and is faster than a plain loop.
pub fn first_gap(ends: &[u64], starts: &[u64], gap: u64) -> Option<usize>
    requires as_many { length ends.now ≡ length starts.now }
    requires in_order { EachIndex ends.now
        (λ i. slice_index starts.now i ≤ slice_index ends.now i) }
    ensures first { result ≡ position (λ found. found == gap) (gaps ends.now starts.now) }
    ensures nowhere { IfNone result (EachIndex ends.now (λ i. ¬ HasGap ends.now starts.now gap i)) }
    ensures found { IfSome result (λ place. IsFirst ends.now starts.now gap place) }
{
    match first_in_chunks(ends, starts, gap) {
        Some(place) => Some(place),
        None => first_in_rest(ends, starts, gap),
    }
}

// Finds the first index with the gap among the full chunks.
fn first_in_chunks(ends: &[u64], starts: &[u64], gap: u64) -> Option<usize>
    requires { ArePaired ends.now starts.now }
    ensures { MatchOption result (AreWithout ends.now starts.now (length ends.now / 8 * 8) gap)
        (λ place. IsFirst ends.now starts.now gap place) }
{
    let end_chunks = full_chunks(ends);
    let start_chunks = full_chunks(starts);
    for i in 0..end_chunks.len() {
        if let Some(lane) = first_lane(&end_chunks[i], &start_chunks[i], gap) {
            return Some(i * 8 + lane);
        }
    }
    None
}

// Finds the first index with the gap behind the full chunks, none of which has it.
fn first_in_rest(ends: &[u64], starts: &[u64], gap: u64) -> Option<usize>
    requires paired { ArePaired ends.now starts.now }
    requires not_before { AreWithout ends.now starts.now (length ends.now / 8 * 8) gap }
    ensures { MatchOption result (AreWithout ends.now starts.now (length ends.now) gap)
        (λ place. IsFirst ends.now starts.now gap place) }
{
    for i in ends.len() / 8 * 8..ends.len() {
        if ends[i] - starts[i] == gap {
            return Some(i);
        }
    }
    None
}
