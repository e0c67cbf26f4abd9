//! Gauges moved on over stretches: the expected lengths are counted by hand.
use duty_events::Gauge;

// Where a gauge begins: it asks about the minutes from one on, or starts at one.
#[derive(Clone, Copy)]
enum Start {
    From(u64),
    Starting(u64),
}

// Passes that each go to a minute and are of the kind or not, and the longest stretch after them.
const STRETCHES: [(Start, &[(u64, bool)], u64); 17] = [
    (Start::From(0), &[], 0),
    (Start::From(0), &[(10, true)], 10),
    (Start::From(0), &[(10, false)], 0),
    // it counts from the first minute on only
    (Start::From(4), &[(10, true)], 6),
    (Start::From(10), &[(10, true)], 0),
    (Start::From(20), &[(10, true)], 0),
    (Start::From(20), &[(10, true), (30, false), (34, true)], 4),
    // a pass of no minutes breaks nothing, nor does one back
    (Start::From(0), &[(5, true), (5, false), (9, true)], 9),
    (Start::From(0), &[(5, true), (3, false), (9, true)], 9),
    // two passes are one stretch; one that isn't of the kind breaks it
    (Start::From(0), &[(3, true), (7, true)], 7),
    (Start::From(0), &[(3, true), (4, false), (9, true)], 5),
    (Start::From(0), &[(6, true), (7, false), (9, true)], 6),
    (
        Start::From(2),
        &[(3, true), (4, false), (5, true), (8, false)],
        1,
    ),
    // one that starts at a minute
    (Start::Starting(4), &[], 0),
    (Start::Starting(4), &[(3, true)], 0),
    (Start::Starting(4), &[(10, true)], 6),
    (Start::Starting(4), &[(6, false), (9, true)], 3),
];

// The longest stretch after the passes.
fn longest(start: &Start, passes: &[(u64, bool)]) -> u64 {
    let mut gauge = match start {
        Start::From(minute) => Gauge::new(*minute),
        Start::Starting(minute) => Gauge::starting(*minute),
    };
    for (to, are_asked) in passes {
        gauge = gauge.pass(*to, *are_asked);
    }
    gauge.longest()
}

// The place of the first that is answered otherwise.
fn wrong() -> Option<usize> {
    for (place, (start, passes, wanted)) in STRETCHES.iter().enumerate() {
        if longest(start, passes) != *wanted {
            return Some(place);
        }
    }
    None
}

#[test]
fn longest_stretches(rt: HostRuntime) {
    assert_eq!(rt; wrong(), None);
}
