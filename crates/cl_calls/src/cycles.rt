//! Tests of counted arrivals: from any moment on, before 0 too.
ghost use Rattle.cl_stim.specs.Phase.{IsPhaseInRange};

use cl_cycle::{arrivals_from, arrivals_of};
use cl_model::StimulusKind;
use cl_stim::{MOST_WIDTH, Phase};
use std::process::Abort;

/// Counts the arrivals from a moment on, where it is near to 0 and the window is in range.
fn counted(stimulus: &Phase, from: i64, width: u64) -> Option<u64>
    requires { IsPhaseInRange stimulus.now }
{
    if -1_000 <= from && from <= 1_000 && width <= MOST_WIDTH {
        Some(arrivals_from(stimulus, from, width))
    } else {
        None
    }
}

/// Asserts how many arrivals there are from each moment on in each window.
fn assert_arrivals(rt: &impl Abort, stimulus: &Phase, cases: &[(i64, u64, u64)])
    requires { IsPhaseInRange stimulus.now }
{
    for (from, width, arrivals) in cases {
        let found = counted(stimulus, *from, *width);
        assert_eq!(rt; found, Some(*arrivals), "from {from} in {width} ticks");
    }
}

#[test]
fn counts_the_arrivals_of_a_burst_that_wraps(rt: HostRuntime) {
    let bursts = arrivals_of(StimulusKind::Burst {
        period: 40,
        offset: 35,
        count: 2,
        distance: 15,
    });
    let cases = [
        (0, 0, 0),
        (0, 10, 0),
        (0, 11, 1),
        (10, 1, 1),
        (11, 24, 0),
        (11, 25, 1),
        (35, 15, 1),
        (35, 16, 2),
        (-5, 0, 0),
        (-5, 1, 1),
        (-5, 5, 1),
        (-30, 25, 1),
        (-30, 26, 2),
        (-31, 26, 1),
        (-45, 41, 3),
        (-46, 41, 2),
        (-46, 120, 6),
        (-1_000, 1_010, 50),
        (-1_000, 1_011, 51),
    ];
    assert_arrivals(&rt, &bursts, &cases);
}

#[test]
fn counts_the_arrivals_of_single_jobs(rt: HostRuntime) {
    let singles = arrivals_of(StimulusKind::Periodic {
        period: 10,
        offset: 4,
        jitter: 3,
    });
    let cases = [
        (0, 0, 0),
        (0, 4, 0),
        (0, 5, 1),
        (4, 1, 1),
        (4, 10, 1),
        (4, 11, 2),
        (5, 9, 0),
        (5, 10, 1),
        (-6, 0, 0),
        (-6, 1, 1),
        (-6, 11, 2),
        (-7, 1, 0),
        (-7, 2, 1),
        (-16, 11, 2),
        (-15, 10, 1),
        (-100, 1_000, 100),
        (-6, MOST_WIDTH, 200_000_000_000),
    ];
    assert_arrivals(&rt, &singles, &cases);
}

#[test]
fn counts_an_arrival_each_tick_where_none_is_fixed(rt: HostRuntime) {
    let each_moment = arrivals_of(StimulusKind::Sporadic {
        least: 5,
        greatest: 8,
    });
    assert_eq!(rt; arrivals_from(&each_moment, -3, 0), 0);
    assert_eq!(rt; arrivals_from(&each_moment, -3, 7), 7);
}
