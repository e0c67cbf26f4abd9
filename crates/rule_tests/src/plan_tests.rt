//! Tables worked by hand: the first month that a plan would bring over a limit.
use crate::asks::{Asks, Case, Wanted};
use crate::cases;
use crate::told::At::{March, Text};
use crate::told::{Does, Step};
use month_hours::Limit;

// Other service for 15,960 minutes, to 12 March 02:00, which ends at home or away.
const AT_HOME: [Step; 1] = [(March(1, 0_00), Does::Other(March(12, 2_00), b"HOM"))];

const AWAY: [Step; 1] = [(March(1, 0_00), Does::Other(March(12, 2_00), b"AWAY"))];

// 44,640 minutes of March and 43,200 of April are worked, and none of February and of May.
const TWO_MONTHS: [Step; 1] = [(
    March(1, 0_00),
    Does::Other(Text(b"2024-05-01 00:00"), b"AWAY"),
)];

// A minute over 276 hours, and the bar of it.
const HOURS_OVER: Option<(&[u8], u32)> = Some((b"2024-03", 16_561));

const HOURS_BAR: Wanted = Wanted::MonthHours(b"2024-03", 16_561);

// They lie in a window of three months.
const PLANS: [Case; 6] = [
    // Plans at 276 hours.
    (
        &AWAY,
        &[],
        &[
            Asks::Over(Limit::Hours, March(14, 8_00), 600, 0, None),
            Asks::Over(Limit::Hours, March(14, 8_00), 601, 0, HOURS_OVER),
            Asks::Over(Limit::Hours, March(14, 8_00), 500, 100, None),
            Asks::Over(Limit::Hours, March(14, 8_00), 500, 101, HOURS_OVER),
            Asks::Over(Limit::Hours, March(31, 14_00), 700, 0, None),
            Asks::Over(Limit::Hours, March(31, 13_59), 700, 0, HOURS_OVER),
            Asks::Over(Limit::Hours, March(0, 23_00), 660, 0, None),
            Asks::Over(Limit::Hours, March(0, 23_00), 661, 0, HOURS_OVER),
            Asks::Over(Limit::Hours, March(0, 23_00), 600, 61, HOURS_OVER),
        ],
    ),
    // and the bar of the law for a call at the report
    (
        &AT_HOME,
        &[],
        &[
            Asks::Plan(March(14, 8_00), 600, 0, Wanted::Free),
            Asks::Plan(March(14, 8_00), 601, 0, HOURS_BAR),
            Asks::Plan(March(14, 8_00), 500, 100, Wanted::Free),
            Asks::Plan(March(14, 8_00), 500, 101, HOURS_BAR),
            Asks::Plan(March(31, 14_00), 700, 0, Wanted::Free),
            Asks::Plan(March(31, 13_59), 700, 0, HOURS_BAR),
        ],
    ),
    // Plans at thirty hours of limbo.
    (
        &WAITED,
        &[],
        &[
            Asks::Last(March(2, 18_00)),
            Asks::Over(Limit::Limbo, March(5, 8_00), 600, 120, None),
            Asks::Over(Limit::Limbo, March(5, 8_00), 600, 121, LIMBO_OVER),
            Asks::Over(Limit::Limbo, March(5, 8_00), 720, 0, None),
            Asks::Over(Limit::Limbo, March(5, 8_00), 720, 1, LIMBO_OVER),
            Asks::Over(Limit::Limbo, March(5, 8_00), 721, 1, LIMBO_OVER),
            Asks::Over(Limit::Limbo, March(5, 8_00), 0, 720, None),
            Asks::Over(
                Limit::Limbo,
                March(5, 8_00),
                0,
                725,
                Some((b"2024-03", 1_805)),
            ),
            Asks::Over(Limit::Limbo, March(5, 8_00), 2_000, 0, None),
            Asks::Over(Limit::Limbo, March(31, 12_00), 720, 10, None),
            Asks::Over(Limit::Limbo, March(31, 11_59), 720, 10, LIMBO_OVER),
            Asks::Over(Limit::Limbo, March(0, 12_00), 720, 0, None),
            Asks::Over(Limit::Limbo, March(0, 12_00), 720, 1, LIMBO_OVER),
            Asks::Over(Limit::Limbo, March(0, 11_00), 720, 60, None),
            Asks::Over(Limit::Limbo, March(0, 11_00), 720, 61, LIMBO_OVER),
            // and the bar of the law for a call at the report
            Asks::Plan(March(5, 8_00), 600, 120, Wanted::Free),
            Asks::Plan(March(5, 8_00), 600, 121, LIMBO_BAR),
            Asks::Plan(March(5, 8_00), 720, 0, Wanted::Free),
            Asks::Plan(March(5, 8_00), 720, 1, LIMBO_BAR),
            Asks::Plan(March(5, 8_00), 721, 1, LIMBO_BAR),
            Asks::Plan(March(5, 8_00), 0, 720, Wanted::Free),
            Asks::Plan(
                March(5, 8_00),
                0,
                725,
                Wanted::LimboHours(b"2024-03", 1_805),
            ),
            Asks::Plan(March(5, 8_00), 2_000, 0, Wanted::Free),
            Asks::Plan(March(31, 12_00), 720, 10, Wanted::Free),
            Asks::Plan(March(31, 11_59), 720, 10, LIMBO_BAR),
        ],
    ),
    // a month with too much limbo bars each plan that has a minute in it
    (
        &WAITED_LONGER,
        &[],
        &[
            Asks::Over(Limit::Limbo, March(5, 8_00), 1, 0, LIMBO_OVER),
            Asks::Over(Limit::Limbo, March(5, 8_00), 0, 1, LIMBO_OVER),
            Asks::Over(Limit::Limbo, March(5, 8_00), 0, 0, None),
            Asks::Over(Limit::Limbo, March(0, 23_59), 1, 0, None),
            Asks::Over(Limit::Limbo, March(0, 23_59), 2, 0, LIMBO_OVER),
            Asks::Over(Limit::Limbo, March(31, 23_59), 1, 0, LIMBO_OVER),
            Asks::Over(Limit::Limbo, March(32, 0_00), 600, 120, None),
            Asks::Plan(March(5, 8_00), 1, 0, LIMBO_BAR),
            Asks::Plan(March(5, 8_00), 0, 1, LIMBO_BAR),
            Asks::Plan(March(5, 8_00), 0, 0, Wanted::Free),
            Asks::Plan(March(31, 23_59), 1, 0, LIMBO_BAR),
            Asks::Plan(March(31, 24_00), 600, 120, Wanted::Free),
        ],
    ),
    // Plans over three months.
    // On duty from the last hour of February to the end of March, and then in limbo.
    // after a tour with 1,800 capped minutes of February
    (
        &[
            (Text(b"2024-02-01 00:00"), Does::Duty),
            (Text(b"2024-02-01 12:00"), Does::Relieve),
            (Text(b"2024-02-02 18:00"), Does::Final(b"HOM")),
        ],
        &[],
        &[
            Asks::Over(Limit::Limbo, March(0, 23_00), 44_700, 1_799, None),
            Asks::Over(Limit::Limbo, March(0, 23_00), 44_700, 1_800, None),
            Asks::Over(
                Limit::Limbo,
                March(0, 23_00),
                44_700,
                1_801,
                Some((b"2024-04", 1_801)),
            ),
        ],
    ),
    // after other service in February
    (
        &[(
            Text(b"2024-02-01 00:00"),
            Does::Other(Text(b"2024-02-12 02:00"), b"AWAY"),
        )],
        &[],
        &[Asks::Over(
            Limit::Hours,
            March(0, 23_00),
            44_700,
            1_801,
            Some((b"2024-03", 44_640)),
        )],
    ),
];

const IN_MONTHS_THAT_ARE_FULL: [Case; 1] = [(
    &TWO_MONTHS,
    &[],
    &[
        Asks::Over(Limit::Hours, March(5, 8_00), 0, 0, None),
        Asks::Over(
            Limit::Hours,
            March(5, 8_00),
            1,
            0,
            Some((b"2024-03", 44_641)),
        ),
        Asks::Over(Limit::Hours, March(0, 23_59), 1, 0, None),
        Asks::Over(
            Limit::Hours,
            March(0, 23_59),
            2,
            0,
            Some((b"2024-03", 44_641)),
        ),
        Asks::Over(
            Limit::Hours,
            March(31, 23_59),
            1,
            0,
            Some((b"2024-03", 44_641)),
        ),
        Asks::Over(
            Limit::Hours,
            March(31, 23_59),
            2,
            0,
            Some((b"2024-03", 44_641)),
        ),
        Asks::Over(Limit::Hours, March(32, 0_00), 0, 0, None),
        Asks::Over(
            Limit::Hours,
            March(32, 0_00),
            2,
            0,
            Some((b"2024-04", 43_202)),
        ),
        Asks::Over(Limit::Hours, Text(b"2024-05-01 00:00"), 600, 0, None),
        Asks::Over(
            Limit::Hours,
            March(0, 23_00),
            120,
            44_580,
            Some((b"2024-03", 89_280)),
        ),
    ],
)];

// A tour with 1,800 capped minutes.
const WAITED: [Step; 3] = [
    (March(1, 0_00), Does::Duty),
    (March(1, 12_00), Does::Relieve),
    (March(2, 18_00), Does::Final(b"HOM")),
];

// And one with a minute more.
const WAITED_LONGER: [Step; 3] = [
    (March(1, 0_00), Does::Duty),
    (March(1, 12_00), Does::Relieve),
    (March(2, 18_01), Does::Final(b"HOM")),
];

// A minute over thirty hours of limbo, and the bar of it.
const LIMBO_OVER: Option<(&[u8], u32)> = Some((b"2024-03", 1_801));

const LIMBO_BAR: Wanted = Wanted::LimboHours(b"2024-03", 1_801);

#[test]
fn plans_over_a_limit(rt: HostRuntime) {
    assert_eq!(rt; cases::wrong(rt.alloc(), b"2024-02", 3, &PLANS), None);
    assert_eq!(rt;
        cases::wrong(rt.alloc(), b"2024-02", 4, &IN_MONTHS_THAT_ARE_FULL),
        None
    );
}
