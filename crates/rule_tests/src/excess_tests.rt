//! Worked by hand: what someone's last tour had over twelve hours, and when they have rested for ten hours and that excess.
use crate::asks::{Asks, Case, Wanted};
use crate::cases;
use crate::told::At::March;
use crate::told::{Does, Stands, Step};
use duty_events::Kind;

// Twelve hours on duty and 90 minutes in limbo.
const LONG: [Step; 3] = [
    (March(4, 8_00), Does::Duty),
    (March(4, 20_00), Does::Relieve),
    (March(4, 21_30), Does::Final(b"HOM")),
];

const EXCESS: [Case; 6] = [
    // Ten hours and the excess.
    (
        &LONG,
        &[],
        &[
            Asks::Stands(Stands::Off),
            Asks::Place(March(4, 21_30), b"HOM"),
            Asks::Last(March(4, 21_30)),
            Asks::Hours(b"2024-03", 810, 90),
            Asks::OffFrom(March(4, 21_30), 90),
            Asks::RestEnds(March(5, 9_00)),
            Asks::Rested(March(4, 8_00), 0, false),
            Asks::Rested(March(5, 7_29), 0, false),
            Asks::Rested(March(5, 7_30), 0, true),
            Asks::Rested(March(5, 7_30), 90, false),
            Asks::Rested(March(5, 8_59), 90, false),
            Asks::Rested(March(5, 9_00), 90, true),
            Asks::Rested(March(5, 9_00), 91, false),
            Asks::Rested(March(31, 0_00), u32::MAX, false),
            Asks::Report(March(5, 7_29), Wanted::Rest(March(5, 7_30))),
            Asks::Report(March(5, 7_30), Wanted::MoreRest(March(5, 9_00))),
            Asks::Report(March(5, 8_59), Wanted::MoreRest(March(5, 9_00))),
            Asks::Report(March(5, 9_00), Wanted::Free),
            Asks::Law(
                March(4, 22_02),
                March(5, 7_00),
                600,
                0,
                Wanted::Rest(March(5, 7_30)),
            ),
            Asks::Law(
                March(4, 22_02),
                March(5, 8_30),
                600,
                0,
                Wanted::MoreRest(March(5, 9_00)),
            ),
            Asks::Law(
                March(5, 8_59),
                March(5, 10_30),
                600,
                0,
                Wanted::Undisturbed(March(5, 9_00)),
            ),
            Asks::Law(March(5, 9_00), March(5, 10_30), 600, 0, Wanted::Free),
        ],
    ),
    // The excess before other service.
    // Eleven and a half hours are owed after a long tour, and taken or not before other service comes.
    // eleven and a half hours are taken
    (
        &LONG,
        &[(March(5, 9_00), Does::Other(March(5, 10_00), b"HOM"))],
        &[
            Asks::Stands(Stands::Off),
            Asks::Place(March(5, 10_00), b"HOM"),
            Asks::Last(March(5, 10_00)),
            Asks::Hours(b"2024-03", 870, 90),
            Asks::OffFrom(March(5, 10_00), 90),
            Asks::RestEnds(March(5, 20_00)),
            Asks::Rested(March(5, 19_59), 90, false),
            Asks::Rested(March(5, 20_00), 90, true),
            Asks::Report(March(5, 19_59), Wanted::Rest(March(5, 20_00))),
            Asks::Report(March(5, 20_00), Wanted::Free),
        ],
    ),
    // a minute less is owed still
    (
        &LONG,
        &[(March(5, 8_59), Does::Other(March(5, 10_00), b"HOM"))],
        &[
            Asks::Stands(Stands::Off),
            Asks::Place(March(5, 10_00), b"HOM"),
            Asks::Last(March(5, 10_00)),
            Asks::Hours(b"2024-03", 871, 90),
            Asks::OffFrom(March(5, 10_00), 90),
            Asks::RestEnds(March(5, 21_30)),
            Asks::Rested(March(5, 20_00), 0, true),
            Asks::Rested(March(5, 21_29), 90, false),
            Asks::Rested(March(5, 21_30), 90, true),
            Asks::Report(March(5, 20_00), Wanted::MoreRest(March(5, 21_30))),
            Asks::Report(March(5, 21_29), Wanted::MoreRest(March(5, 21_30))),
            Asks::Report(March(5, 21_30), Wanted::Free),
        ],
    ),
    // a week is more than enough
    (
        &LONG,
        &[(March(11, 10_00), Does::Other(March(11, 12_00), b"HOM"))],
        &[
            Asks::Stands(Stands::Off),
            Asks::Place(March(11, 12_00), b"HOM"),
            Asks::Last(March(11, 12_00)),
            Asks::Hours(b"2024-03", 930, 90),
            Asks::OffFrom(March(11, 12_00), 90),
            Asks::RestEnds(March(11, 22_00)),
            Asks::Report(March(11, 21_59), Wanted::Rest(March(11, 22_00))),
            Asks::Report(March(11, 22_00), Wanted::Free),
        ],
    ),
    // The excess of the last tour.
    // a short tour after a long one and a day off has none
    (
        &LONG,
        &[
            (March(6, 8_00), Does::Duty),
            (March(6, 12_00), Does::Final(b"HOM")),
        ],
        &[
            Asks::Stands(Stands::Off),
            Asks::Place(March(6, 12_00), b"HOM"),
            Asks::Last(March(6, 12_00)),
            Asks::Hours(b"2024-03", 1_050, 90),
            Asks::OffFrom(March(6, 12_00), 0),
            Asks::RestEnds(March(6, 22_00)),
            Asks::Report(March(6, 21_59), Wanted::Rest(March(6, 22_00))),
            Asks::Report(March(6, 22_00), Wanted::Free),
        ],
    ),
    // two hours of an interim count: fourteen hours in all, of which one in limbo
    (
        &[
            (March(4, 0_00), Does::Duty),
            (March(4, 6_00), Does::Interim(Kind::O, b"HOM")),
            (March(4, 8_00), Does::Resume),
            (March(4, 13_00), Does::Relieve),
            (March(4, 14_00), Does::Final(b"HOM")),
        ],
        &[],
        &[
            Asks::Stands(Stands::Off),
            Asks::Place(March(4, 14_00), b"HOM"),
            Asks::Last(March(4, 14_00)),
            Asks::Hours(b"2024-03", 840, 60),
            Asks::OffFrom(March(4, 14_00), 120),
            Asks::RestEnds(March(5, 2_00)),
            Asks::Report(March(4, 23_59), Wanted::Rest(March(5, 0_00))),
            Asks::Report(March(5, 1_59), Wanted::MoreRest(March(5, 2_00))),
            Asks::Report(March(5, 2_00), Wanted::Free),
        ],
    ),
];

#[test]
fn ten_hours_and_the_excess(rt: HostRuntime) {
    assert_eq!(rt; cases::wrong(rt.alloc(), b"2024-03", 1, &EXCESS), None);
}
