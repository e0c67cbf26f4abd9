//! Tables worked by hand: days in a row, and reports after them.
use crate::asks::{Asks, Case, Wanted};
use crate::cases;
use crate::told::At::March;
use crate::told::{Does, FIVE_DAYS, Stands};
use consecutive_days::{need, next_run};

const RUNS: [Case; 16] = [
    // Days in a row.
    // no tour
    (&[], &[], &[Asks::Days(0), Asks::MoreToSix(4, 6)]),
    // five days
    (&FIVE_DAYS, &[], &[Asks::Days(5), Asks::MoreToSix(9, 1)]),
    // one free day
    (
        &[
            (March(4, 8_00), Does::Duty),
            (March(4, 16_00), Does::Final(b"HOM")),
            (March(6, 8_00), Does::Duty),
            (March(6, 16_00), Does::Final(b"HOM")),
        ],
        &[],
        &[Asks::Days(1)],
    ),
    // and six more days behind a free one
    (
        &[
            (March(4, 8_00), Does::Duty),
            (March(4, 16_00), Does::Final(b"HOM")),
        ],
        &[],
        &[Asks::MoreToSix(6, 6)],
    ),
    // two starts on a day
    (
        &[
            (March(4, 8_00), Does::Duty),
            (March(4, 10_00), Does::Final(b"HOM")),
            (March(5, 8_00), Does::Duty),
            (March(5, 10_00), Does::Final(b"HOM")),
            (March(5, 12_00), Does::Duty),
            (March(5, 14_00), Does::Final(b"HOM")),
        ],
        &[],
        &[Asks::Days(2), Asks::MoreToSix(6, 4)],
    ),
    // a start right before midnight and one right after
    (
        &[
            (March(4, 23_59), Does::Duty),
            (March(4, 24_00), Does::Final(b"HOM")),
            (March(5, 0_00), Does::Duty),
            (March(5, 8_00), Does::Final(b"HOM")),
        ],
        &[],
        &[Asks::Days(2), Asks::MoreToSix(6, 4)],
    ),
    // and both before it
    (
        &[
            (March(4, 23_58), Does::Duty),
            (March(4, 23_59), Does::Final(b"HOM")),
            (March(4, 23_59), Does::Duty),
            (March(4, 24_10), Does::Final(b"HOM")),
        ],
        &[],
        &[Asks::Days(1), Asks::MoreToSix(5, 5)],
    ),
    // a tour over midnight is a start on its first day only
    (
        &[
            (March(4, 20_00), Does::Duty),
            (March(4, 28_00), Does::Final(b"HOM")),
            (March(6, 0_00), Does::Duty),
            (March(6, 8_00), Does::Final(b"HOM")),
        ],
        &[],
        &[Asks::Days(1), Asks::MoreToSix(7, 5)],
    ),
    // a tour of no minutes is a start
    (
        &[
            (March(4, 8_00), Does::Duty),
            (March(4, 16_00), Does::Final(b"HOM")),
            (March(5, 8_00), Does::Duty),
            (March(5, 8_00), Does::Final(b"HOM")),
            (March(6, 8_00), Does::Duty),
            (March(6, 16_00), Does::Final(b"HOM")),
        ],
        &[],
        &[Asks::Days(3), Asks::MoreToSix(7, 3)],
    ),
    // only the days to the last start
    (
        &[
            (March(4, 8_00), Does::Duty),
            (March(4, 16_00), Does::Final(b"HOM")),
            (March(5, 8_00), Does::Duty),
            (March(5, 16_00), Does::Final(b"HOM")),
            (March(9, 8_00), Does::Duty),
            (March(9, 16_00), Does::Final(b"HOM")),
            (March(10, 8_00), Does::Duty),
            (March(10, 16_00), Does::Final(b"HOM")),
        ],
        &[],
        &[Asks::Days(2), Asks::MoreToSix(11, 4)],
    ),
    // Starts of tours.
    // a tour that has not ended has started, with its ride
    (
        &FIVE_DAYS,
        &[(March(9, 23_00), Does::Ride), (March(10, 1_00), Does::Duty)],
        &[Asks::Days(6)],
    ),
    // service is no start of a tour
    (
        &FIVE_DAYS,
        &[
            (March(9, 8_00), Does::Other(March(9, 16_00), b"HOM")),
            (March(10, 8_00), Does::Other(March(10, 16_00), b"HOM")),
        ],
        &[Asks::Days(5)],
    ),
    // and a ride is one, after a day of service: on duty still
    (
        &FIVE_DAYS,
        &[
            (March(9, 8_00), Does::Other(March(9, 16_00), b"HOM")),
            (March(10, 23_00), Does::Ride),
            (March(11, 1_00), Does::Duty),
        ],
        &[Asks::Stands(Stands::Duty), Asks::Last(March(11, 1_00))],
    ),
    // and released
    (
        &FIVE_DAYS,
        &[
            (March(9, 8_00), Does::Other(March(9, 16_00), b"HOM")),
            (March(10, 23_00), Does::Ride),
            (March(11, 1_00), Does::Duty),
            (March(11, 8_00), Does::Final(b"HOM")),
        ],
        &[Asks::Report(March(11, 18_00), Wanted::Free)],
    ),
    // Six and seven days.
    // six days that end away
    (
        &FIVE_DAYS,
        &[
            (March(9, 8_00), Does::Duty),
            (March(9, 16_00), Does::Final(b"ALT")),
        ],
        &[
            Asks::Days(6),
            Asks::MayReport(March(8, 0_00), false),
            Asks::MayReport(March(9, 20_00), false),
            Asks::MayReport(March(10, 0_00), true),
            Asks::MayReport(March(10, 8_00), true),
            Asks::MayReport(March(10, 23_59), true),
            Asks::MayReport(March(11, 0_00), false),
            Asks::MayReport(March(11, 8_00), false),
            Asks::MayReport(March(11, 16_00), false),
            Asks::MayReport(March(20, 8_00), false),
            // by whether the last day ended away, and the minutes off at home in a row
            Asks::MayReportBy(March(10, 8_00), true, 0, true),
            Asks::MayReportBy(March(10, 8_00), false, 0, false),
            Asks::MayReportBy(March(10, 8_00), false, 2_879, false),
            Asks::MayReportBy(March(10, 8_00), false, 2_880, true),
            Asks::MayReportBy(March(11, 8_00), true, 2_879, false),
            Asks::MayReportBy(March(11, 8_00), true, 2_880, true),
            Asks::Stands(Stands::Off),
            Asks::Place(March(9, 16_00), b"ALT"),
            Asks::Hours(b"2024-03", 2_880, 0),
            Asks::RestEnds(March(10, 2_00)),
            Asks::Report(March(10, 0_00), Wanted::Rest(March(10, 2_00))),
            Asks::Report(March(10, 8_00), Wanted::Free),
            Asks::Report(March(10, 23_59), Wanted::Free),
            Asks::Report(March(11, 0_00), Wanted::SixDays),
            Asks::Report(March(11, 16_00), Wanted::SixDays),
            Asks::Report(March(20, 8_00), Wanted::SixDays),
            Asks::Law(March(10, 3_00), March(10, 8_00), 600, 0, Wanted::Free),
        ],
    ),
    // and a seventh
    (
        &FIVE_DAYS,
        &[
            (March(9, 8_00), Does::Duty),
            (March(9, 16_00), Does::Final(b"ALT")),
            (March(10, 8_00), Does::Duty),
            (March(10, 16_00), Does::Final(b"HOM")),
        ],
        &[
            Asks::Days(7),
            Asks::MayReport(March(11, 8_00), false),
            Asks::MayReport(March(12, 16_00), false),
            Asks::MayReport(March(13, 15_59), false),
            Asks::MayReport(March(13, 16_00), true),
            Asks::Stands(Stands::Off),
            Asks::Place(March(10, 16_00), b"HOM"),
            Asks::Hours(b"2024-03", 3_360, 0),
            Asks::RestEnds(March(11, 2_00)),
            Asks::Report(March(11, 8_00), Wanted::SevenDays),
            Asks::Report(March(12, 16_00), Wanted::SevenDays),
            Asks::Report(March(13, 15_59), Wanted::SevenDays),
            Asks::Report(March(13, 16_00), Wanted::Free),
        ],
    ),
];

#[test]
fn days_in_a_row(rt: HostRuntime) {
    assert_eq!(rt; cases::wrong(rt.alloc(), b"2024-03", 1, &RUNS), None);
}

// The days in a row, and the minutes off that they need.
const NEEDS: [(u32, u32); 7] = [
    (0, 0),
    (1, 0),
    (5, 0),
    (6, 2_880),
    (7, 4_320),
    (8, 4_320),
    (100, 4_320),
];

// So many days in a row up to a day, the day on which a tour begins, and how many there are then.
const NEXT: [(u32, u32, u32, u32); 4] = [
    (5, 100, 100, 5),
    (5, 100, 101, 6),
    (5, 100, 102, 1),
    (0, 0, 0, 1),
];

// The places of the first rows that are answered otherwise.
fn wrong_need() -> Option<usize> {
    for (place, (run, wanted)) in NEEDS.iter().enumerate() {
        if need(*run) != *wanted {
            return Some(place);
        }
    }
    None
}

fn wrong_next() -> Option<usize> {
    for (place, (days, last, day, wanted)) in NEXT.iter().enumerate() {
        if next_run(*days, *last, *day) != *wanted {
            return Some(place);
        }
    }
    None
}

#[test]
fn days_by_their_numbers(rt: HostRuntime) {
    assert_eq!(rt; wrong_need(), None);
    assert_eq!(rt; wrong_next(), None);
}
