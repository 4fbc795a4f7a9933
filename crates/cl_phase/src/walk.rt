//! Walks along a chain from an arrival of one of its groups. Times are in ticks.
ghost use Rattle.std.specs.Prelude.{◌≡◌, ◌<◌, ◌≤◌, ◌-◌, length};
ghost use Rattle.cl_stim.specs.Integers.{IsIntegerWithin};
ghost use Rattle.cl_phase.specs.{Pace.previous, Walks.{pace_at, onward, back, arrival_at_last, arrival_at_first}, TightBounds.ticks_or_none, Inner.{Ranges.{FARTHEST_START, FARTHEST_WALKED, AreStopsInRange, AreEndsInRange}, Longest.lengths_at}};

use crate::stop::Stop;

/// The ends of a chain: the earliest read of the first group and the latest write of the last, each
/// counted from the arrival of its job.
#[derive(Clone, Copy)]
pub(crate) struct Ends {
    pub(crate) read: u64,
    pub(crate) write: u64,
}

/// How long walks last: up to the write of the last group's job that takes, and up to the write of
/// the job before it, both from the read of the first group's job that just misses; and from the
/// arrival of the job after that one.
#[derive(Clone, Copy)]
pub(crate) struct Longest {
    pub(crate) length: u64,
    pub(crate) reduced: u64,
    pub(crate) delay: u64,
}

/// Follows the walk onward from an arrival of the group at `place`, and returns the moment that it
/// reaches at the group at `to`.
pub(crate) fn arrival_onward(stops: &[Stop], place: usize, arrival: i64, to: usize) -> i64
    requires stops { AreStopsInRange stops.now }
    requires place { place ≤ to }
    requires to { to < length stops.now }
    requires arrival { IsIntegerWithin FARTHEST_START arrival }
    ensures leads { result ≡ onward stops.now place arrival (to - place) }
    ensures near { IsIntegerWithin FARTHEST_WALKED result }
{
    let mut moment = arrival;
    for i in place + 1..to + 1 {
        moment = stops[i].pace.first_from(moment + stops[i - 1].lag);
    }
    moment
}

/// Follows the walk back from the arrival before this one of the group at `place`, and returns the
/// moment that it reaches at the group at `to`.
pub(crate) fn arrival_back(stops: &[Stop], place: usize, arrival: i64, to: usize) -> i64
    requires stops { AreStopsInRange stops.now }
    requires to { to ≤ place }
    requires place { place < length stops.now }
    requires arrival { IsIntegerWithin FARTHEST_START arrival }
    ensures leads { result ≡ back stops.now place (previous (pace_at stops.now place) arrival) (place - to) }
    ensures near { IsIntegerWithin FARTHEST_WALKED result }
{
    let mut moment = stops[place].pace.previous(arrival);
    let mut here = place;
    while here > to {
        here -= 1;
        moment = stops[here].pace.last_by(moment - stops[here].lag);
    }
    moment
}

/// Finds the arrival of the last group to which the walk onward from an arrival of the group at
/// `place` leads.
fn arrival_at_last(stops: &[Stop], place: usize, arrival: i64) -> i64
    requires stops { AreStopsInRange stops.now }
    requires place { place < length stops.now }
    requires arrival { IsIntegerWithin FARTHEST_START arrival }
    ensures leads { result ≡ arrival_at_last stops.now place arrival }
    ensures near { IsIntegerWithin FARTHEST_WALKED result }
{
    arrival_onward(stops, place, arrival, stops.len() - 1)
}

/// Finds the arrival of the first group to which the walk back from the arrival before this one of
/// the group at `place` leads.
fn arrival_at_first(stops: &[Stop], place: usize, arrival: i64) -> i64
    requires stops { AreStopsInRange stops.now }
    requires place { place < length stops.now }
    requires arrival { IsIntegerWithin FARTHEST_START arrival }
    ensures leads { result ≡ arrival_at_first stops.now place arrival }
    ensures near { IsIntegerWithin FARTHEST_WALKED result }
{
    arrival_back(stops, place, arrival, 0)
}

/// Returns a number of ticks as it is, and 0 for a negative one.
fn ticks_or_none(ticks: i64) -> u64
    ensures { result ≡ ticks_or_none ticks }
{
    ticks.max(0) as u64
}

/// Computes how long the walks from an arrival of the group at `place` last.
pub(crate) fn lengths_at(stops: &[Stop], ends: Ends, place: usize, arrival: i64) -> Longest
    requires stops { AreStopsInRange stops.now }
    requires ends { AreEndsInRange ends }
    requires place { place < length stops.now }
    requires arrival { IsIntegerWithin FARTHEST_START arrival }
    ensures { result ≡ lengths_at stops.now ends place arrival }
{
    let first = arrival_at_first(stops, place, arrival);
    let last = arrival_at_last(stops, place, arrival);
    let before = stops[stops.len() - 1].pace.previous(last);
    let next = stops[0].pace.next(first);
    let write = ends.write as i64;
    let span = write - ends.read as i64;
    Longest {
        length: ticks_or_none(last - first + span),
        reduced: ticks_or_none(before - first + span),
        delay: ticks_or_none(last - next + write),
    }
}
