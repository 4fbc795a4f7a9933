//! Tests of the greatest gap and of the first index with a gap, at every length around the lanes.
ghost use Rattle.std.specs.Prelude.{◌≡◌, ℕ, ◌<◌, ◌≤◌, length, slice_index, EachIndex, IsTrue};

use cl_lanes::{first_gap, greatest_gap};
use std::process::Abort;

// Checks whether there are as many ends as starts and no end is before its start, as the calls
// require.
fn are_paired(ends: &[u64], starts: &[u64]) -> bool
    ensures as_many { IsTrue result → length ends.now ≡ length starts.now }
    ensures in_order { IsTrue result → EachIndex ends.now
        (λ i. slice_index starts.now i ≤ slice_index ends.now i) }
{
    if ends.len() != starts.len() {
        return false;
    }
    for i in 0..ends.len() {
        if ends[i] < starts[i] {
            return false;
        }
    }
    true
}

/// The greatest gap, and the first index with a gap.
type Gaps = (Option<u64>, Option<usize>);

/// Finds the greatest gap of slices and the first index whose gap is `gap`, where the
/// slices are paired.
fn gaps(ends: &[u64], starts: &[u64], gap: u64) -> Option<Gaps> {
    if !are_paired(ends, starts) {
        return None;
    }
    Some((greatest_gap(ends, starts), first_gap(ends, starts, gap)))
}

#[test]
fn gaps_of_small_slices(rt: HostRuntime) {
    assert_eq!(rt; gaps(&[], &[], 0), Some((None, None)));
    assert_eq!(rt; gaps(&[5, 9, 9], &[1, 3, 4], 6), Some((Some(6), Some(1))));
    assert_eq!(rt; gaps(&[5, 9, 9], &[1, 3, 4], 7), Some((Some(6), None)));
    let ends = [5, 5, 5, 5, 5, 5, 5, 5, 9];
    assert_eq!(rt; gaps(&ends, &[5; 9], 4), Some((Some(4), Some(8))));
}

/// Asserts the gaps where the starts are 7 and the ends 10, but for the first end and the last one,
/// which are `first` and `last`: at least one of these is 16.
fn assert_gaps(rt: &impl Abort, length: usize, first: u64, last: u64)
    requires { (0 < length) × (length ≤ 130) }
{
    let mut ends = [10; 130];
    ends[length - 1] = last;
    if length > 1 || first > last {
        ends[0] = first;
    }
    let (ends, starts) = (&ends[..length], &[7; 130][..length]);
    let place = if first == 16 { 0 } else { length - 1 };
    assert_eq!(rt;
        gaps(ends, starts, 9),
        Some((Some(9), Some(place))),
        "{length}"
    );
    assert_eq!(rt; gaps(ends, starts, 8), Some((Some(9), None)), "{length}");
}

// The greatest gap stands at the first index, at the last, and at both.
#[test]
fn gaps_in_lanes_and_rests(rt: HostRuntime) {
    for length in 1..131 {
        assert_gaps(&rt, length, 16, 10);
        assert_gaps(&rt, length, 10, 16);
        assert_gaps(&rt, length, 16, 16);
    }
}
