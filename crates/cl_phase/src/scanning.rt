//! The longest walks from the arrivals of a group. Times are in ticks.
ghost use Rattle.std.specs.Prelude.{◌≡◌, ◌+◌, ◌*◌, ◌<◌, ◌≤◌, max, ℕ, List, length};
ghost use Rattle.cl_phase.specs.{declared.{pace.Pace.Pace, stop.Stop.Stop, walk.Ends.Ends}, Pace.PaceComesRound, Walks.pace_at, TightBounds.starts, Inner.{Ranges.{LONGEST_HYPERPERIOD, AreStopsInRange, AreEndsInRange}, Longest.{longer_of, longest_walk}, Scanned.AreLongestFrom}};
ghost use Rattle.cl_phase.specs.Inner.Scanned.{IsInStrides};

use crate::even::changes_evenly;
use crate::pace::Pace;
use crate::stop::Stop;
use crate::stride::stride_of;
use crate::walk::{Ends, Longest, lengths_at};
use cl_stim::Phase;

impl Longest {
    /// Starts without a walk.
    fn none() -> Longest
        ensures { (stops : List Stop) (ends : Ends) (place : ℕ)
            → AreLongestFrom stops ends place (λ (start : ℕ). ⊥) result }
    {
        Longest {
            length: 0,
            reduced: 0,
            delay: 0,
        }
    }

    /// Takes the longer walk of each kind from two.
    fn or(self, other: Longest) -> Longest
        ensures { result ≡ longer_of self other }
    {
        Longest {
            length: self.length.max(other.length),
            reduced: self.reduced.max(other.reduced),
            delay: self.delay.max(other.delay),
        }
    }
}

/// Finds how many strides to leap next, of those that are left: twice as many as walks just changed
/// evenly over, and otherwise one.
fn next_leap(leap: u64, even: bool, left: u64) -> u64
    requires some { 1 ≤ leap }
    requires few { leap ≤ LONGEST_HYPERPERIOD }
    ensures some { 1 ≤ result }
    ensures few { result ≤ 2 * leap }
    ensures within { result ≤ max 1 left }
{
    let most = if even { 2 * leap } else { 1 };
    most.min(left).max(1)
}

/// Finds the longest walks from an arrival of the group at `place` and from those up to so many
/// strides after it. It leaps over starts between which walks change evenly, since none of these is
/// longer than both the first and the last of them.
fn longest_in_strides(
    stops: &[Stop],
    ends: Ends,
    place: usize,
    first: u64,
    stride: u64,
    strides: u64,
) -> Longest
    requires stops { AreStopsInRange stops.now }
    requires ends { AreEndsInRange ends }
    requires place { place < length stops.now }
    requires round { PaceComesRound stride (pace_at stops.now place) }
    requires some { 1 ≤ stride }
    requires near { first + strides * stride ≤ LONGEST_HYPERPERIOD }
    ensures { AreLongestFrom stops.now ends place (IsInStrides first stride strides) result }
{
    let mut longest = lengths_at(stops, ends, place, first as i64);
    let mut done = 0;
    let mut leap = 1;
    while done < strides {
        let even = changes_evenly(stops, place, first + done * stride, stride, leap);
        if even || leap == 1 {
            done += leap;
            let start = (first + done * stride) as i64;
            longest = longest.or(lengths_at(stops, ends, place, start));
            leap = next_leap(leap, even, strides - done);
        } else {
            leap /= 2;
        }
    }
    longest
}

/// Finds the longest walks from the arrivals, within `ticks`, of the group at `place`, which keeps
/// this phase: from each one in the first stride, and those whole strides after it.
fn longest_of_phase(stops: &[Stop], ends: Ends, place: usize, phase: &Phase, ticks: u64) -> Longest
    requires stops { AreStopsInRange stops.now }
    requires ends { AreEndsInRange ends }
    requires place { place < length stops.now }
    requires phase { pace_at stops.now place ≡ Pace.Kept phase.now }
    requires few { ticks ≤ LONGEST_HYPERPERIOD }
    ensures { result ≡ longest_walk stops.now ends place (starts (pace_at stops.now place) ticks) }
{
    let stride = stride_of(stops, phase, ticks);
    let end = stride.min(ticks);
    let mut longest = Longest::none();
    let mut arrival = phase.first_arrival(0) as u64;
    while arrival < end {
        let strides = (ticks - 1 - arrival) / stride;
        longest = longest.or(longest_in_strides(stops, ends, place, arrival, stride, strides));
        arrival = phase.first_arrival(arrival as i64 + 1) as u64;
    }
    longest
}

/// Finds the longest walks from the starts, within `ticks`, of the group at `place`. If it keeps no
/// phase, there is one start, at 0.
pub(crate) fn longest(stops: &[Stop], ends: Ends, place: usize, ticks: u64) -> Longest
    requires stops { AreStopsInRange stops.now }
    requires ends { AreEndsInRange ends }
    requires place { place < length stops.now }
    requires few { ticks ≤ LONGEST_HYPERPERIOD }
    ensures { result ≡ longest_walk stops.now ends place (starts (pace_at stops.now place) ticks) }
{
    match &stops[place].pace {
        Pace::Kept(phase) => longest_of_phase(stops, ends, place, phase, ticks),
        Pace::Free { .. } => lengths_at(stops, ends, place, 0),
    }
}
