//! The sections of the law by cases worked by hand: which one is the first, with what it keeps.
use crate::asks::{Asks, Case, Wanted};
use crate::cases;
use crate::told::At::March;
use crate::told::{Does, FIVE_DAYS};

const LAW: [Case; 7] = [
    // Sections of rest.
    // nothing is told
    (
        &[],
        &[],
        &[Asks::Law(March(4, 22_00), March(4, 22_00), 720, 999, Wanted::Free)],
    ),
    // twelve hours on duty and 90 minutes in limbo: rest ends on 5 March at 07:30, and with the excess at 09:00
    (
        &[
            (March(4, 8_00), Does::Duty),
            (March(4, 20_00), Does::Relieve),
            (March(4, 21_30), Does::Final(b"HOM")),
        ],
        &[],
        &[
            Asks::Law(
                March(4, 22_00),
                March(5, 7_29),
                600,
                0,
                Wanted::Rest(March(5, 7_30)),
            ),
            Asks::Law(
                March(4, 22_00),
                March(5, 7_30),
                600,
                0,
                Wanted::MoreRest(March(5, 9_00)),
            ),
            Asks::Law(
                March(4, 22_00),
                March(5, 8_59),
                600,
                0,
                Wanted::MoreRest(March(5, 9_00)),
            ),
            Asks::Law(
                March(4, 22_00),
                March(5, 9_00),
                600,
                0,
                Wanted::Undisturbed(March(5, 9_00)),
            ),
            Asks::Law(
                March(5, 8_59),
                March(6, 9_00),
                600,
                0,
                Wanted::Undisturbed(March(5, 9_00)),
            ),
            Asks::Law(March(5, 9_00), March(5, 9_00), 600, 0, Wanted::Free),
        ],
    ),
    // Sections of a month, and the first of two sections.
    // other service for 15,960 minutes, to 12 March 02:00
    (
        &[(March(1, 0_00), Does::Other(March(12, 2_00), b"HOM"))],
        &[],
        &[
            Asks::Law(March(13, 12_00), March(14, 8_00), 600, 0, Wanted::Free),
            Asks::Law(
                March(13, 12_00),
                March(14, 8_00),
                601,
                0,
                Wanted::MonthHours(b"2024-03", 16_561),
            ),
            Asks::Law(
                March(13, 12_00),
                March(14, 8_00),
                600,
                1,
                Wanted::MonthHours(b"2024-03", 16_561),
            ),
            // the rest comes before the hours
            Asks::Law(
                March(12, 2_00),
                March(12, 11_59),
                720,
                0,
                Wanted::Rest(March(12, 12_00)),
            ),
            Asks::Law(
                March(12, 11_59),
                March(14, 8_00),
                720,
                0,
                Wanted::Undisturbed(March(12, 12_00)),
            ),
        ],
    ),
    // thirty hours of limbo, all capped, to 2 March 18:00; rest ends on 4 March at 10:00
    (
        &[
            (March(1, 0_00), Does::Duty),
            (March(1, 12_00), Does::Relieve),
            (March(2, 18_00), Does::Final(b"HOM")),
        ],
        &[],
        &[
            Asks::Hours(b"2024-03", 2_520, 1_800),
            Asks::RestEnds(March(4, 10_00)),
            Asks::Law(March(4, 12_00), March(5, 8_00), 600, 120, Wanted::Free),
            Asks::Law(
                March(4, 12_00),
                March(5, 8_00),
                600,
                121,
                Wanted::LimboHours(b"2024-03", 1_801),
            ),
        ],
    ),
    // and then other service for ten days: the hours come before the limbo
    (
        &[
            (March(1, 0_00), Does::Duty),
            (March(1, 12_00), Does::Relieve),
            (March(2, 18_00), Does::Final(b"HOM")),
            (March(5, 0_00), Does::Other(March(15, 6_00), b"HOM")),
        ],
        &[],
        &[Asks::Law(
            March(16, 0_00),
            March(16, 8_00),
            600,
            121,
            Wanted::MonthHours(b"2024-03", 18_001),
        )],
    ),
    // Sections of days.
    // a sixth tour that ends away, and a seventh
    (
        &FIVE_DAYS,
        &[
            (March(9, 8_00), Does::Duty),
            (March(9, 16_00), Does::Final(b"ALT")),
            (March(10, 8_00), Does::Duty),
            (March(10, 16_00), Does::Final(b"HOM")),
        ],
        &[
            Asks::Law(
                March(12, 12_00),
                March(13, 15_59),
                600,
                0,
                Wanted::SevenDays,
            ),
            Asks::Law(March(12, 12_00), March(13, 16_00), 600, 0, Wanted::Free),
            // the rest comes before the days
            Asks::Law(
                March(10, 17_00),
                March(11, 1_59),
                600,
                0,
                Wanted::Rest(March(11, 2_00)),
            ),
        ],
    ),
    // a sixth tour that ends at home
    (
        &FIVE_DAYS,
        &[
            (March(9, 8_00), Does::Duty),
            (March(9, 16_00), Does::Final(b"HOM")),
        ],
        &[
            Asks::Law(March(10, 12_00), March(10, 13_00), 600, 0, Wanted::SixDays),
            Asks::Law(March(10, 12_00), March(11, 15_59), 600, 0, Wanted::SixDays),
            Asks::Law(March(10, 12_00), March(11, 16_00), 600, 0, Wanted::Free),
        ],
    ),
];

#[test]
fn the_first_section(rt: HostRuntime) {
    assert_eq!(rt; cases::wrong(rt.alloc(), b"2024-03", 1, &LAW), None);
}
