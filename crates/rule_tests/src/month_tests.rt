//! Tables worked by hand: the used and the capped minutes of a month.
use crate::asks::{Asks, Case};
use crate::cases;
use crate::told::At::{March, Text};
use crate::told::Does;
use duty_events::Kind;

const OVER_ENDS_OF_MONTHS: [Case; 8] = [
    // Tours over the ends of days and months.
    // a tour of no minutes
    (
        &[],
        &[
            (Text(b"2024-03-04 08:00"), Does::Duty),
            (Text(b"2024-03-04 08:00"), Does::Final(b"HOM")),
        ],
        &[Asks::Hours(b"2024-03", 0, 0)],
    ),
    // over midnight
    (
        &[],
        &[
            (Text(b"2024-03-04 22:00"), Does::Duty),
            (Text(b"2024-03-05 04:00"), Does::Final(b"HOM")),
        ],
        &[Asks::Hours(b"2024-03", 360, 0)],
    ),
    // over the end of a leap February
    (
        &[],
        &[
            (Text(b"2024-02-29 22:00"), Does::Duty),
            (Text(b"2024-03-01 04:00"), Does::Final(b"HOM")),
        ],
        &[
            Asks::Hours(b"2024-02", 120, 0),
            Asks::Hours(b"2024-03", 240, 0),
        ],
    ),
    // over its last midnight but one
    (
        &[],
        &[
            (Text(b"2024-02-28 22:00"), Does::Duty),
            (Text(b"2024-02-29 04:00"), Does::Final(b"HOM")),
        ],
        &[
            Asks::Hours(b"2024-02", 360, 0),
            Asks::Hours(b"2024-03", 0, 0),
        ],
    ),
    // over the end of another February
    (
        &[],
        &[
            (Text(b"2023-02-28 22:00"), Does::Duty),
            (Text(b"2023-03-01 04:00"), Does::Final(b"HOM")),
        ],
        &[
            Asks::Hours(b"2023-02", 120, 0),
            Asks::Hours(b"2023-03", 240, 0),
        ],
    ),
    // a whole month within a tour
    (
        &[],
        &[
            (Text(b"2024-01-31 00:00"), Does::Duty),
            (Text(b"2024-03-02 00:00"), Does::Final(b"HOM")),
        ],
        &[Asks::Hours(b"2024-02", 41_760, 0)],
    ),
    // Other service to the end of a month and over it.
    // in both months
    (
        &[],
        &[(
            Text(b"2024-03-31 23:00"),
            Does::Other(Text(b"2024-04-01 02:00"), b"AWAY"),
        )],
        &[
            Asks::Hours(b"2024-03", 60, 0),
            Asks::Hours(b"2024-04", 120, 0),
        ],
    ),
    // in the first alone
    (
        &[],
        &[(
            Text(b"2024-03-31 23:00"),
            Does::Other(Text(b"2024-04-01 00:00"), b"AWAY"),
        )],
        &[Asks::Hours(b"2024-04", 0, 0)],
    ),
];

// The used and the capped minutes of February, and those of March.
macro_rules! of_two_months {
    ($used:expr, $capped:expr; $used_in_march:expr, $capped_in_march:expr) => {
        &[
            Asks::Hours(b"2024-02", $used, $capped),
            Asks::Hours(b"2024-03", $used_in_march, $capped_in_march),
        ]
    };
}

// A tour from one minute on with a wait for the ride home from the next to the last, and the minutes of both months.
macro_rules! waits {
    ($from:expr, $relieved:expr, $home:expr; $($minutes:tt)+) => {
        (
            &[],
            &[
                ($from, Does::Duty),
                ($relieved, Does::Relieve),
                ($home, Does::Final(b"HOM")),
            ],
            of_two_months!($($minutes)+),
        )
    };
}

// Of February and March, for which a window of these two months is enough.
const OF_TWO_MONTHS: [Case; 13] = [
    // A wait for the ride home before and behind the 720th minute of a tour.
    // thirty hours of waiting behind twelve on duty
    waits!(March(1, 0_00), March(1, 12_00), March(2, 18_00); 0, 0; 2_520, 1_800),
    // of two minutes the second is the 721st
    waits!(March(1, 0_00), March(1, 11_59), March(1, 12_01); 0, 0; 721, 1),
    // the 720th is none
    waits!(March(1, 0_00), March(1, 11_59), March(1, 12_00); 0, 0; 720, 0),
    // nor are two hours before it
    waits!(March(1, 0_00), March(1, 10_00), March(1, 12_00); 0, 0; 720, 0),
    // and of three hours the third counts
    waits!(March(1, 0_00), March(1, 10_00), March(1, 13_00); 0, 0; 780, 60),
    // over the end of a month: two hours in each
    waits!(March(0, 10_00), March(0, 22_00), March(1, 2_00); 840, 120; 120, 120),
    // over the end of a month: all in the second
    waits!(March(0, 20_00), March(0, 22_00), March(1, 10_00); 240, 0; 600, 120),
    // Sums of tours.
    // rides to duty and home: 720 minutes are summed at 12:00, an hour before the end
    (
        &[],
        &[
            (March(1, 0_00), Does::Ride),
            (March(1, 2_00), Does::Duty),
            (March(1, 11_00), Does::Relieve),
            (March(1, 11_30), Does::RideHome),
            (March(1, 13_00), Does::Final(b"HOM")),
        ],
        of_two_months!(0, 0; 780, 60),
    ),
    // four hours off in the midst of a tour are not summed: 720 minutes are reached at 16:00
    (
        &[],
        &[
            (March(1, 0_00), Does::Duty),
            (March(1, 2_00), Does::Interim(Kind::D, b"HOM")),
            (March(1, 6_00), Does::Resume),
            (March(1, 15_00), Does::RideHome),
            (March(1, 17_00), Does::Final(b"HOM")),
        ],
        of_two_months!(0, 0; 780, 60),
    ),
    // a second tour sums its own minutes only
    (
        &[],
        &[
            (March(1, 0_00), Does::Duty),
            (March(1, 11_00), Does::Final(b"HOM")),
            (March(2, 0_00), Does::Duty),
            (March(2, 11_00), Does::Relieve),
            (March(2, 12_30), Does::Final(b"HOM")),
        ],
        of_two_months!(0, 0; 660 + 750, 30),
    ),
    // What has not ended is counted nowhere.
    // nothing is told
    (&[], &[], &[Asks::Hours(b"2024-03", 0, 0)]),
    // an interim
    (
        &[],
        &[
            (March(4, 8_00), Does::Duty),
            (March(4, 10_00), Does::Interim(Kind::O, b"HOM")),
        ],
        of_two_months!(0, 0; 120, 0),
    ),
    // a wait
    (
        &[],
        &[
            (March(4, 8_00), Does::Duty),
            (March(4, 21_00), Does::Relieve),
        ],
        of_two_months!(0, 0; 780, 0),
    ),
];

#[test]
fn used_and_capped_minutes(rt: HostRuntime) {
    assert_eq!(rt;
        cases::wrong(rt.alloc(), b"2023-01", 24, &OVER_ENDS_OF_MONTHS),
        None
    );
    assert_eq!(rt;
        cases::wrong(rt.alloc(), b"2024-02", 2, &OF_TWO_MONTHS),
        None
    );
}
