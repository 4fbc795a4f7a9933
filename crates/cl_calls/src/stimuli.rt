//! Tests of arrivals: how many releases a window holds, gaps and jitter.
use cl_model::StimulusKind;
use cl_stim::{AnyStimulus, Arrivals, MOST_WIDTH};

#[test]
fn counts_the_releases_of_a_window(rt: HostRuntime) {
    let late = AnyStimulus::of(StimulusKind::Periodic {
        period: 10,
        offset: 4,
        jitter: 3,
    });
    let prompt = AnyStimulus::of(StimulusKind::Periodic {
        period: 10,
        offset: 0,
        jitter: 0,
    });
    let sporadic = AnyStimulus::of(StimulusKind::Sporadic {
        least: 5,
        greatest: 8,
    });
    let cases = [
        (0, (1, 0, 0)),
        (1, (1, 1, 1)),
        (5, (1, 1, 1)),
        (6, (1, 1, 2)),
        (7, (1, 1, 2)),
        (8, (2, 1, 2)),
        (10, (2, 1, 2)),
        (11, (2, 2, 3)),
        (17, (2, 2, 4)),
        (18, (3, 2, 4)),
        (
            MOST_WIDTH,
            (200_000_000_001, 200_000_000_000, 400_000_000_000),
        ),
    ];
    for (width, most) in cases {
        assert!(rt; width <= MOST_WIDTH);
        assert_eq!(rt;
            (late.most(width), prompt.most(width), sporadic.most(width)),
            most,
            "in {width} ticks"
        );
    }
}

#[test]
fn counts_the_releases_of_bursts(rt: HostRuntime) {
    let bursts = AnyStimulus::of(StimulusKind::Burst {
        period: 20,
        offset: 3,
        count: 2,
        distance: 5,
    });
    let cases = [
        (0, 0),
        (1, 1),
        (5, 1),
        (6, 2),
        (20, 2),
        (21, 3),
        (25, 3),
        (26, 4),
        (1_000_001, 100_001),
    ];
    for (width, most) in cases {
        assert!(rt; width <= MOST_WIDTH);
        assert_eq!(rt; bursts.most(width), most, "in {width} ticks");
    }
    assert_eq!(rt;
        (bursts.least_gap(), bursts.greatest_gap(), bursts.jitter()),
        (5, 15, 0)
    );
}

#[test]
fn tells_gaps_and_jitter(rt: HostRuntime) {
    let periodic = AnyStimulus::of(StimulusKind::Periodic {
        period: 10,
        offset: 4,
        jitter: 30,
    });
    assert_eq!(rt;
        (
            periodic.least_gap(),
            periodic.greatest_gap(),
            periodic.jitter()
        ),
        (10, 10, 30)
    );
    let sporadic = AnyStimulus::of(StimulusKind::Sporadic {
        least: 5,
        greatest: 8,
    });
    assert_eq!(rt;
        (
            sporadic.least_gap(),
            sporadic.greatest_gap(),
            sporadic.jitter()
        ),
        (5, 8, 0)
    );
}
