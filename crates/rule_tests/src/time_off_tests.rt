//! Tables worked by hand: time off at home after days in a row.
use crate::asks::{Asks, Case, Wanted};
use crate::cases;
use crate::told::At::March;
use crate::told::{Does, FIVE_DAYS, FOUR_DAYS, Stands};
use duty_events::Kind;

const TIME_OFF: [Case; 15] = [
    // Six days that end at home.
    // one tour on the sixth day
    (
        &FIVE_DAYS,
        &[
            (March(9, 8_00), Does::Duty),
            (March(9, 16_00), Does::Final(b"HOM")),
        ],
        &[
            Asks::MayReport(March(10, 8_00), false),
            Asks::MayReport(March(11, 15_59), false),
            Asks::MayReport(March(11, 16_00), true),
            Asks::Stands(Stands::Off),
            Asks::Place(March(9, 16_00), b"HOM"),
            Asks::Hours(b"2024-03", 2_880, 0),
            Asks::RestEnds(March(10, 2_00)),
            Asks::Report(March(10, 8_00), Wanted::SixDays),
            Asks::Report(March(11, 15_59), Wanted::SixDays),
            Asks::Report(March(11, 16_00), Wanted::Free),
        ],
    ),
    // two tours on the sixth day
    (
        &FIVE_DAYS,
        &[
            (March(9, 8_00), Does::Duty),
            (March(9, 16_00), Does::Final(b"HOM")),
            (March(9, 18_00), Does::Duty),
            (March(9, 20_00), Does::Final(b"HOM")),
        ],
        &[
            Asks::MayReport(March(10, 8_00), false),
            Asks::MayReport(March(11, 19_59), false),
            Asks::MayReport(March(11, 20_00), true),
            Asks::Stands(Stands::Off),
            Asks::Place(March(9, 20_00), b"HOM"),
            Asks::Hours(b"2024-03", 3_000, 0),
            Asks::RestEnds(March(10, 6_00)),
            Asks::Report(March(10, 8_00), Wanted::SixDays),
            Asks::Report(March(11, 19_59), Wanted::SixDays),
            Asks::Report(March(11, 20_00), Wanted::Free),
        ],
    ),
    // a free week, and a start after it
    (
        &FIVE_DAYS,
        &[
            (March(9, 8_00), Does::Duty),
            (March(9, 16_00), Does::Final(b"HOM")),
            (March(17, 8_00), Does::Duty),
        ],
        &[Asks::MayReport(March(17, 9_00), true)],
    ),
    // A second tour on the sixth day.
    // The last tour that has ended decides whether the sixth day ended away.
    // out
    (
        &FIVE_DAYS,
        &[
            (March(9, 8_00), Does::Duty),
            (March(9, 16_00), Does::Final(b"HOM")),
            (March(9, 18_00), Does::Duty),
            (March(9, 20_00), Does::Final(b"ALT")),
        ],
        &[
            Asks::MayReport(March(10, 8_00), true),
            Asks::Stands(Stands::Off),
            Asks::Place(March(9, 20_00), b"ALT"),
            Asks::Hours(b"2024-03", 3_000, 0),
            Asks::RestEnds(March(10, 6_00)),
            Asks::Report(March(10, 8_00), Wanted::Free),
        ],
    ),
    // and back
    (
        &FIVE_DAYS,
        &[
            (March(9, 8_00), Does::Duty),
            (March(9, 16_00), Does::Final(b"ALT")),
            (March(9, 18_00), Does::Duty),
            (March(9, 20_00), Does::Final(b"HOM")),
        ],
        &[
            Asks::MayReport(March(10, 8_00), false),
            Asks::Stands(Stands::Off),
            Asks::Place(March(9, 20_00), b"HOM"),
            Asks::Hours(b"2024-03", 3_000, 0),
            Asks::RestEnds(March(10, 6_00)),
            Asks::Report(March(10, 8_00), Wanted::SixDays),
        ],
    ),
    // Time off that other service breaks, or not.
    // other service breaks the time off
    (
        &FIVE_DAYS,
        &[
            (March(9, 8_00), Does::Duty),
            (March(9, 16_00), Does::Final(b"HOM")),
            (March(11, 10_00), Does::Other(March(11, 11_00), b"HOM")),
        ],
        &[
            Asks::MayReport(March(11, 16_00), false),
            Asks::MayReport(March(13, 10_59), false),
            Asks::MayReport(March(13, 11_00), true),
            Asks::Stands(Stands::Off),
            Asks::Place(March(11, 11_00), b"HOM"),
            Asks::Hours(b"2024-03", 2_940, 0),
            Asks::RestEnds(March(11, 21_00)),
            Asks::Report(March(11, 16_00), Wanted::Rest(March(11, 21_00))),
            Asks::Report(March(13, 10_59), Wanted::SixDays),
            Asks::Report(March(13, 11_00), Wanted::Free),
        ],
    ),
    // and may end away
    (
        &FIVE_DAYS,
        &[
            (March(9, 8_00), Does::Duty),
            (March(9, 16_00), Does::Final(b"HOM")),
            (March(11, 10_00), Does::Other(March(11, 11_00), b"ALT")),
        ],
        &[
            Asks::MayReport(March(11, 16_00), false),
            Asks::MayReport(March(14, 16_00), false),
            Asks::Stands(Stands::Off),
            Asks::Place(March(11, 11_00), b"ALT"),
            Asks::Hours(b"2024-03", 2_940, 0),
            Asks::RestEnds(March(11, 21_00)),
            Asks::Report(March(14, 16_00), Wanted::SixDays),
        ],
    ),
    // service behind the time off breaks nothing, whether the report is before that or after
    (
        &FIVE_DAYS,
        &[
            (March(9, 8_00), Does::Duty),
            (March(9, 16_00), Does::Final(b"HOM")),
            (March(11, 16_00), Does::Other(March(11, 17_00), b"ALT")),
        ],
        &[
            Asks::MayReport(March(11, 15_59), false),
            Asks::MayReport(March(11, 16_00), true),
            Asks::MayReport(March(11, 17_30), true),
            Asks::Stands(Stands::Off),
            Asks::Place(March(11, 17_00), b"ALT"),
            Asks::Hours(b"2024-03", 2_940, 0),
            Asks::RestEnds(March(12, 3_00)),
            Asks::Report(March(11, 17_30), Wanted::Rest(March(12, 3_00))),
            Asks::Report(March(12, 3_00), Wanted::Free),
        ],
    ),
    // off since 16:00 of the ninth, but back at home, by service, only at 17:00 of the tenth
    (
        &FIVE_DAYS,
        &[
            (March(9, 8_00), Does::Duty),
            (March(9, 16_00), Does::Final(b"ALT")),
            (March(10, 16_00), Does::Other(March(10, 17_00), b"HOM")),
        ],
        &[
            Asks::MayReport(March(11, 16_00), false),
            Asks::MayReport(March(12, 16_59), false),
            Asks::MayReport(March(12, 17_00), true),
            Asks::Stands(Stands::Off),
            Asks::Place(March(10, 17_00), b"HOM"),
            Asks::Hours(b"2024-03", 2_940, 0),
            Asks::RestEnds(March(11, 3_00)),
            Asks::Report(March(11, 16_00), Wanted::SixDays),
            Asks::Report(March(12, 16_59), Wanted::SixDays),
            Asks::Report(March(12, 17_00), Wanted::Free),
        ],
    ),
    // A sixth tour that has not ended.
    // The last tour that has ended is the fifth.
    // of a tour that was told no further than its start its minutes are off, since no more is known of them
    (
        &FIVE_DAYS,
        &[(March(9, 8_00), Does::Duty)],
        &[
            Asks::MayReport(March(8, 20_00), false),
            Asks::MayReport(March(10, 15_59), false),
            Asks::MayReport(March(10, 16_00), true),
        ],
    ),
    // an interim that has not ended is not off
    (
        &FIVE_DAYS,
        &[
            (March(9, 8_00), Does::Duty),
            (March(9, 12_00), Does::Interim(Kind::O, b"HOM")),
        ],
        &[
            Asks::MayReport(March(10, 8_00), false),
            Asks::MayReport(March(13, 8_00), false),
        ],
    ),
    // Releases during an interim.
    // A final release during an interim ends the tour, and moves the person, to where that began; they came from elsewhere.
    // at home, after a fifth tour that ended near
    (
        &FOUR_DAYS,
        &[
            (March(8, 8_00), Does::Duty),
            (March(8, 16_00), Does::Final(b"NEAR")),
            (March(9, 8_00), Does::Duty),
            (March(9, 12_00), Does::Interim(Kind::O, b"HOM")),
            (March(9, 16_00), Does::Final(b"HOM")),
        ],
        &[
            Asks::MayReport(March(10, 8_00), false),
            Asks::MayReport(March(11, 11_59), false),
            Asks::MayReport(March(11, 12_00), true),
        ],
    ),
    // away, after such a tour
    (
        &FOUR_DAYS,
        &[
            (March(8, 8_00), Does::Duty),
            (March(8, 16_00), Does::Final(b"NEAR")),
            (March(9, 8_00), Does::Duty),
            (March(9, 12_00), Does::Interim(Kind::O, b"ALT")),
            (March(9, 16_00), Does::Final(b"ALT")),
        ],
        &[
            Asks::MayReport(March(10, 8_00), true),
            Asks::MayReport(March(11, 8_00), false),
            Asks::MayReport(March(11, 16_00), false),
        ],
    ),
    // at home, after service that ended near
    (
        &FIVE_DAYS,
        &[
            (March(8, 20_00), Does::Other(March(8, 21_00), b"NEAR")),
            (March(9, 8_00), Does::Duty),
            (March(9, 12_00), Does::Interim(Kind::O, b"HOM")),
            (March(9, 16_00), Does::Final(b"HOM")),
        ],
        &[
            Asks::Stands(Stands::Off),
            Asks::Place(March(9, 16_00), b"HOM"),
            Asks::Hours(b"2024-03", 2_700, 0),
            Asks::RestEnds(March(9, 22_00)),
            Asks::Report(March(10, 8_00), Wanted::SixDays),
            Asks::Report(March(11, 11_59), Wanted::SixDays),
            Asks::Report(March(11, 12_00), Wanted::Free),
        ],
    ),
    // away, after such service
    (
        &FIVE_DAYS,
        &[
            (March(8, 20_00), Does::Other(March(8, 21_00), b"NEAR")),
            (March(9, 8_00), Does::Duty),
            (March(9, 12_00), Does::Interim(Kind::O, b"ALT")),
            (March(9, 16_00), Does::Final(b"ALT")),
        ],
        &[
            Asks::Stands(Stands::Off),
            Asks::Place(March(9, 16_00), b"ALT"),
            Asks::Hours(b"2024-03", 2_700, 0),
            Asks::RestEnds(March(9, 22_00)),
            Asks::Report(March(10, 8_00), Wanted::Free),
            Asks::Report(March(11, 8_00), Wanted::SixDays),
            Asks::Report(March(11, 16_00), Wanted::SixDays),
        ],
    ),
];

#[test]
fn time_off_after_days_in_a_row(rt: HostRuntime) {
    assert_eq!(rt; cases::wrong(rt.alloc(), b"2024-03", 1, &TIME_OFF), None);
}
