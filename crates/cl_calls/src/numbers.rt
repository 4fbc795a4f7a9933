//! Tests of rounding up, of divisors and multiples, and of the counter of steps.
ghost use Rattle.std.specs.Prelude.{◌≡◌, ◌+◌, ◌<◌};

use cl_time::{Steps, ceil_div, gcd, lcm_upto};
use std::marker::Brand;
use std::sync::ledger::{Blank, Ledger};

#[test]
fn rounds_up(rt: HostRuntime) {
    let cases = [
        (0, 1, 0),
        (0, 7, 0),
        (1, 7, 1),
        (7, 7, 1),
        (8, 7, 2),
        (1000, 300, 4),
        (u64::MAX, 1, u64::MAX),
        (u64::MAX, 2, 9_223_372_036_854_775_808),
        (u64::MAX, u64::MAX, 1),
        (u64::MAX - 1, u64::MAX, 1),
    ];
    for (a, b, quotient) in cases {
        assert!(rt; b > 0);
        assert_eq!(rt; ceil_div(a, b), quotient, "{a} by {b}");
    }
}

#[test]
fn greatest_common_divisors(rt: HostRuntime) {
    let cases = [
        (1071, 462, 21),
        (462, 1071, 21),
        (17, 13, 1),
        (0, 0, 0),
        (0, 5, 5),
        (5, 0, 5),
        (u64::MAX, u64::MAX, u64::MAX),
        (u64::MAX, 4_294_967_297, 4_294_967_297),
    ];
    for (a, b, divisor) in cases {
        assert_eq!(rt; gcd(a, b), divisor, "of {a} and {b}");
    }
}

#[test]
fn least_common_multiples(rt: HostRuntime) {
    let cases = [
        (21, 6, 42, Some(42)),
        (21, 6, 41, None),
        (6, 21, 42, Some(42)),
        (1, 1, 0, None),
        (5000, 7000, u64::MAX, Some(35_000)),
        (
            4_294_967_296,
            4_294_967_295,
            u64::MAX,
            Some(18_446_744_069_414_584_320),
        ),
        (4_294_967_296, 4_294_967_297, u64::MAX, None),
        (u64::MAX, u64::MAX - 1, u64::MAX, None),
        (u64::MAX, 4_294_967_297, u64::MAX, Some(u64::MAX)),
        (u64::MAX, 4_294_967_297, u64::MAX - 1, None),
    ];
    for (a, b, limit, multiple) in cases {
        assert!(rt; a > 0 && b > 0);
        assert_eq!(rt;
            lcm_upto(a, b, limit),
            multiple,
            "of {a} and {b} up to {limit}"
        );
    }
}

fn tick_twice<L: Ledger>(steps: &mut Steps<L>)
    ensures { steps.new ≡ steps.old + 2 }
{
    steps.tick();
    steps.tick();
}

// Returns the size of a counter that was made and raised, in bytes.
fn bytes_of_a_counter<L: Ledger>(blank: Blank) -> usize
    requires name { blank.name ≡ L.name }
    requires parts { blank.parts ≡ L.parts }
    requires a_part { 0 < blank.parts }
{
    let mut steps = Steps::<L>::open(blank);
    tick_twice(&mut steps);
    size_of_val(&steps)
}

#[test]
fn a_counter_takes_no_bytes(rt: HostRuntime) {
    assert_eq!(rt; bytes_of_a_counter::<Brand>(Blank::new(1)), 0);
    assert_eq!(rt; size_of::<Steps<Brand>>(), 0);
}
