//! Walks that change evenly from start to start. Times are in ticks.
ghost use Rattle.std.specs.Prelude.{◌≡◌, ◌+◌, ◌*◌, ◌<◌, ◌≤◌, ℤ, true, length};
ghost use Rattle.cl_phase.specs.{Pace.PaceComesRound, Walks.{pace_at, last_place, arrival_at_first, arrival_at_last}, Inner.{Even.{AreEvenTurns, LeadsEvenly}, Ranges.{LONGEST_HYPERPERIOD, IsPaceInRange, AreStopsInRange}}};

use crate::pace::Pace;
use crate::stop::Stop;

impl Pace {
    /// Checks whether so many ticks are whole turns of a kept phase, as many each of so many times.
    /// Without a phase they always are.
    fn turns_evenly(&self, ticks: u64, times: u64) -> bool
        requires pace { IsPaceInRange self.now }
        requires times { 1 ≤ times }
        ensures { result ≡ true → AreEvenTurns self.now ticks times }
    {
        match self {
            Pace::Kept(phase) => { ticks % phase.period == 0 && ticks / phase.period % times == 0 }
            Pace::Free { .. } => true,
        }
    }
}

/// Checks whether the walks onward from two arrivals of the group at `place`, so many strides
/// apart, lead to arrivals of each group that lie as many turns apart for each stride. The walks
/// from the arrivals between them then lead on evenly.
fn leads_evenly_onward(
    stops: &[Stop],
    place: usize,
    arrival: u64,
    stride: u64,
    strides: u64,
) -> bool
    requires stops { AreStopsInRange stops.now }
    requires place { place < length stops.now }
    requires round { PaceComesRound stride (pace_at stops.now place) }
    requires some { 1 ≤ strides }
    requires near { arrival + strides * stride ≤ LONGEST_HYPERPERIOD }
    ensures { result ≡ true → LeadsEvenly (pace_at stops.now (last_place stops.now))
        (λ (from : ℤ). arrival_at_last stops.now place from) arrival stride strides }
{
    let mut one = arrival as i64;
    let mut other = (arrival + strides * stride) as i64;
    for i in place + 1..stops.len() {
        one = stops[i].pace.first_from(one + stops[i - 1].lag);
        other = stops[i].pace.first_from(other + stops[i - 1].lag);
        if !stops[i].pace.turns_evenly(other.abs_diff(one), strides) {
            return false;
        }
    }
    true
}

/// Checks whether the walks back from the arrivals before two of the group at `place`, so many
/// strides apart, lead to arrivals of each group that lie as many turns apart for each stride. The
/// walks back from between them then lead evenly too.
fn leads_evenly_back(stops: &[Stop], place: usize, arrival: u64, stride: u64, strides: u64) -> bool
    requires stops { AreStopsInRange stops.now }
    requires place { place < length stops.now }
    requires round { PaceComesRound stride (pace_at stops.now place) }
    requires some { 1 ≤ strides }
    requires near { arrival + strides * stride ≤ LONGEST_HYPERPERIOD }
    ensures { result ≡ true → LeadsEvenly (pace_at stops.now 0)
        (λ (from : ℤ). arrival_at_first stops.now place from) arrival stride strides }
{
    let mut one = stops[place].pace.previous(arrival as i64);
    let mut other = stops[place]
        .pace
        .previous((arrival + strides * stride) as i64);
    let mut here = place;
    while here > 0 {
        here -= 1;
        one = stops[here].pace.last_by(one - stops[here].lag);
        other = stops[here].pace.last_by(other - stops[here].lag);
        if !stops[here].pace.turns_evenly(other.abs_diff(one), strides) {
            return false;
        }
    }
    true
}

/// Checks whether the walks from an arrival of the group at `place`, and from those so many strides
/// after it, change evenly from stride to stride. None from between is then longer than both the
/// first and the last of them.
pub(crate) fn changes_evenly(
    stops: &[Stop],
    place: usize,
    arrival: u64,
    stride: u64,
    strides: u64,
) -> bool
    requires stops { AreStopsInRange stops.now }
    requires place { place < length stops.now }
    requires round { PaceComesRound stride (pace_at stops.now place) }
    requires some { 1 ≤ strides }
    requires near { arrival + strides * stride ≤ LONGEST_HYPERPERIOD }
    ensures onward { result ≡ true → LeadsEvenly (pace_at stops.now (last_place stops.now))
        (λ (from : ℤ). arrival_at_last stops.now place from) arrival stride strides }
    ensures back { result ≡ true → LeadsEvenly (pace_at stops.now 0)
        (λ (from : ℤ). arrival_at_first stops.now place from) arrival stride strides }
{
    leads_evenly_onward(stops, place, arrival, stride, strides)
        && leads_evenly_back(stops, place, arrival, stride, strides)
}
