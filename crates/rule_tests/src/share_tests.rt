//! Worked by hand: the months of a plan, with the minutes that each has of it.
use crate::asks::over;
use crate::told::At::{March, Text};
use crate::told::{At, minute};
use desk_base::Month;
use month_hours::{Limit, MonthShare, Plan, PlanMonths};

// A month with so many minutes of a plan, and so many of its capped limbo.
type Share = (&'static [u8], u32, u32);

// A plan by its report and its minutes on duty and in limbo, how many months it has, the place of one, and that one.
const MONTHS: [(At, u16, u16, usize, usize, Option<Share>); 6] = [
    // on duty from the last hour of February to the end of March, and then in limbo
    (
        March(0, 23_00),
        44_700,
        1_801,
        3,
        0,
        Some((b"2024-02", 60, 0)),
    ),
    (
        March(0, 23_00),
        44_700,
        1_801,
        3,
        1,
        Some((b"2024-03", 44_640, 0)),
    ),
    (
        March(0, 23_00),
        44_700,
        1_801,
        3,
        2,
        Some((b"2024-04", 1_801, 1_801)),
    ),
    // the longest, from the last minute of a January on
    (
        Text(b"2023-01-31 23:59"),
        65_535,
        65_535,
        5,
        4,
        Some((b"2023-05", 2_909, 2_909)),
    ),
    (Text(b"2023-01-31 23:59"), 65_535, 65_535, 5, 5, None),
    // one of no minutes
    (March(1, 0_00), 0, 0, 0, 0, None),
];

// The minutes that a month has so far, and the month with its total where it would be over the limit with a plan of twelve
// hours and two of limbo from 08:00 of its fifth day.
const SO_FAR: [(Limit, u32, Option<(&'static [u8], u32)>); 4] = [
    (Limit::Hours, 15_720, None),
    (Limit::Hours, 15_721, Some((b"2024-03", 16_561))),
    (Limit::Limbo, 1_680, None),
    (Limit::Limbo, 1_681, Some((b"2024-03", 1_801))),
];

fn months_of(report: &At, duty: u16, limbo: u16) -> Option<PlanMonths> {
    let report = minute(report)?;
    if !report.is_in_years() {
        return None;
    }
    Some(PlanMonths::of(&Plan {
        report,
        duty: u32::from(duty),
        limbo: u32::from(limbo),
    }))
}

fn share(wanted: &Option<Share>) -> Option<MonthShare> {
    let (month, planned, capped) = wanted.as_ref()?;
    Some(MonthShare {
        month: Month::read(month)?,
        planned: *planned,
        capped: *capped,
    })
}

// The place of the first month that is another.
fn wrong_month() -> Option<usize> {
    for (row, (report, duty, limbo, many, place, wanted)) in MONTHS.iter().enumerate() {
        let Some(months) = months_of(report, *duty, *limbo) else {
            return Some(row);
        };
        let found = months.shares().get(*place).copied();
        let is_plan = months.plan().duty == u32::from(*duty) && months.shares().len() == *many;
        if !is_plan || found != share(wanted) {
            return Some(row);
        }
    }
    None
}

// The place of the first row that is answered otherwise.
fn wrong_so_far() -> Option<usize> {
    let Some(months) = months_of(&March(5, 8_00), 720, 120) else {
        return Some(0);
    };
    let Some(share) = months.shares().first() else {
        return Some(0);
    };
    for (row, (limit, so_far, wanted)) in SO_FAR.iter().enumerate() {
        if Some(limit.over_share(*so_far, share)) != over(wanted) {
            return Some(row);
        }
    }
    None
}

#[test]
fn months_of_a_plan(rt: HostRuntime) {
    assert_eq!(rt; wrong_month(), None);
    assert_eq!(rt; wrong_so_far(), None);
}
