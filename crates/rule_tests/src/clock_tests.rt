//! What a clock is told and what it refuses, by cases that are worked by hand, and clocks that are used again.
use crate::asks::{Asks, Case, Wanted};
use crate::clock::{new_clock, tell, wrong_answer};
use crate::told::At::{March, Number};
use crate::told::{Does, FIVE_DAYS, Stands, Step, events};
use crate::{cases, clock};
use desk_base::Code;
use duty_events::Kind;
use person_clock::PersonClock;
use std::alloc::Global;

const WHAT_IS_TOLD: [Case; 6] = [
    // the stage after each of these, and what may not come first
    (
        &[],
        &[(March(4, 8_00), Does::Ride)],
        &[Asks::Stands(Stands::Riding)],
    ),
    (
        &[],
        &[(March(4, 8_00), Does::Duty)],
        &[Asks::Stands(Stands::Duty)],
    ),
    (
        &[],
        &[(March(4, 8_00), Does::Other(March(4, 9_00), b"HOM"))],
        &[Asks::Stands(Stands::Off)],
    ),
    (
        &[],
        &[(March(4, 8_00), Does::Resume)],
        &[Asks::Lawful(false)],
    ),
    // in an interim they are where they were, and are not released finally elsewhere
    (
        &[
            (March(4, 8_00), Does::Duty),
            (March(4, 14_00), Does::Interim(Kind::D, b"ALT")),
        ],
        &[],
        &[Asks::Place(March(4, 14_00), b"HOM")],
    ),
    (
        &[
            (March(4, 8_00), Does::Duty),
            (March(4, 14_00), Does::Interim(Kind::D, b"ALT")),
        ],
        &[(March(4, 20_00), Does::Final(b"HOM"))],
        &[Asks::Lawful(false)],
    ),
];

// A tour over the end of February, in a window of that month and the next.
const IN_TWO_MONTHS: [Case; 2] = [
    (
        &[
            (March(0, 22_00), Does::Duty),
            (March(1, 4_00), Does::Final(b"HOM")),
        ],
        &[],
        &[
            Asks::Hours(b"2024-02", 120, 0),
            Asks::Hours(b"2024-03", 240, 0),
            Asks::NoMonth(b"2024-04"),
        ],
    ),
    // nothing comes behind the window
    (
        &[
            (March(0, 22_00), Does::Duty),
            (March(1, 4_00), Does::Final(b"HOM")),
        ],
        &[(March(32, 0_00), Does::Duty)],
        &[Asks::Lawful(false)],
    ),
];

#[test]
fn what_a_clock_is_told(rt: HostRuntime) {
    assert_eq!(rt;
        cases::wrong(rt.alloc(), b"2024-03", 1, &WHAT_IS_TOLD),
        None
    );
    assert_eq!(rt;
        clock::wrong(rt.alloc(), b"2024-02", 2, &IN_TWO_MONTHS),
        None
    );
}

// A sixth day that ends away.
const SIXTH_DAY: [Step; 2] = [
    (March(9, 8_00), Does::Duty),
    (March(9, 16_00), Does::Final(b"ALT")),
];

const NOTHING_OF_THE_PERSON_BEFORE: [Asks; 5] = [
    Asks::Nothing,
    Asks::Place(Number(0), b"NEW"),
    Asks::RestEnds(Number(0)),
    Asks::Hours(b"2024-03", 0, 0),
    // with no events it answers for a job before the window too
    Asks::Law(March(0, 8_00), March(0, 8_00), 600, 0, Wanted::Free),
];

const ALL_OF_THE_PERSON_BEFORE: [Asks; 2] = [
    Asks::Place(March(9, 16_00), b"ALT"),
    Asks::Hours(b"2024-03", 2_880, 0),
];

// A clock that is used again, for someone of NEW, has nothing of the person before; and a copy goes on by itself.
fn is_right_again(clock: &mut PersonClock) -> Option<bool> {
    let copy = clock.copy().ok()?;
    clock.restart(Code::read(b"NEW")?);
    let is_new = wrong_answer(clock, true, &NOTHING_OF_THE_PERSON_BEFORE).is_none();
    Some(is_new && wrong_answer(&copy, true, &ALL_OF_THE_PERSON_BEFORE).is_none())
}

fn is_right_after_six_days(alloc: Global) -> Option<bool> {
    let events = events(alloc, &FIVE_DAYS, &SIXTH_DAY)?;
    let mut clock = new_clock(b"2024-03", 1)?;
    if !tell(&mut clock, &events) {
        return None;
    }
    is_right_again(&mut clock)
}

#[test]
fn a_clock_again(rt: HostRuntime) {
    assert_eq!(rt; is_right_after_six_days(rt.alloc()), Some(true));
}
