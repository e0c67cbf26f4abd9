//! Tables worked by hand: what is allowed after what.
use crate::told::At::Number;
use crate::told::{Does, Stands, Step, event, minute, stage};
use desk_base::Code;
use duty_events::{EventFault, Kind, Stage, allowed};

// What is wanted of an event.
#[derive(Clone, Copy)]
enum Wanted {
    // It is allowed.
    Allowed,
    // It leads to this.
    Leads(Stands),
    // It is refused.
    Refused,
    // It is before the latest minute, which is this one.
    Behind(u64),
    OtherPlace(&'static [u8]),
    WrongStage(Stands),
    InterimTooLong(u32),
}

// Where someone stands, their latest minute, an event, and what is wanted of it.
type Row = (Stands, u64, Step, Wanted);

// An interim from minute 1000 on.
const IN_D: Stands = Stands::Interim(Kind::D, Number(1000), b"AWAY");

const IN_P: Stands = Stands::Interim(Kind::P, Number(1000), b"AWAY");

const IN_O: Stands = Stands::Interim(Kind::O, Number(1000), b"AWAY");

// One event of each kind, at minute 1000.
const RIDE: Step = (Number(1000), Does::Ride);

const DUTY: Step = (Number(1000), Does::Duty);

const INTERIM: Step = (Number(1000), Does::Interim(Kind::D, b"AWAY"));

const RESUME: Step = (Number(1000), Does::Resume);

const RELIEVE: Step = (Number(1000), Does::Relieve);

const RIDE_HOME: Step = (Number(1000), Does::RideHome);

const FINAL: Step = (Number(1000), Does::Final(b"AWAY"));

const OTHER: Step = (Number(1000), Does::Other(Number(1001), b"AWAY"));

// What follows each stage.
const FOLLOWS: [Row; 48] = [
    (Stands::Off, 1000, RIDE, Wanted::Allowed),
    (Stands::Off, 1000, DUTY, Wanted::Allowed),
    (Stands::Off, 1000, INTERIM, Wanted::Refused),
    (Stands::Off, 1000, RESUME, Wanted::Refused),
    (Stands::Off, 1000, RELIEVE, Wanted::Refused),
    (Stands::Off, 1000, RIDE_HOME, Wanted::Refused),
    (Stands::Off, 1000, FINAL, Wanted::Refused),
    (Stands::Off, 1000, OTHER, Wanted::Allowed),
    (Stands::Riding, 1000, RIDE, Wanted::Refused),
    (Stands::Riding, 1000, DUTY, Wanted::Allowed),
    (Stands::Riding, 1000, INTERIM, Wanted::Refused),
    (Stands::Riding, 1000, RESUME, Wanted::Refused),
    (Stands::Riding, 1000, RELIEVE, Wanted::Refused),
    (Stands::Riding, 1000, RIDE_HOME, Wanted::Refused),
    (Stands::Riding, 1000, FINAL, Wanted::Allowed),
    (Stands::Riding, 1000, OTHER, Wanted::Refused),
    (Stands::Duty, 1000, RIDE, Wanted::Refused),
    (Stands::Duty, 1000, DUTY, Wanted::Refused),
    (Stands::Duty, 1000, INTERIM, Wanted::Allowed),
    (Stands::Duty, 1000, RESUME, Wanted::Refused),
    (Stands::Duty, 1000, RELIEVE, Wanted::Allowed),
    (Stands::Duty, 1000, RIDE_HOME, Wanted::Allowed),
    (Stands::Duty, 1000, FINAL, Wanted::Allowed),
    (Stands::Duty, 1000, OTHER, Wanted::Refused),
    (IN_D, 1000, RIDE, Wanted::Refused),
    (IN_D, 1000, DUTY, Wanted::Refused),
    (IN_D, 1000, INTERIM, Wanted::Refused),
    (IN_D, 1000, RESUME, Wanted::Allowed),
    (IN_D, 1000, RELIEVE, Wanted::Refused),
    (IN_D, 1000, RIDE_HOME, Wanted::Refused),
    (IN_D, 1000, FINAL, Wanted::Allowed),
    (IN_D, 1000, OTHER, Wanted::Refused),
    (Stands::Waiting, 1000, RIDE, Wanted::Refused),
    (Stands::Waiting, 1000, DUTY, Wanted::Refused),
    (Stands::Waiting, 1000, INTERIM, Wanted::Refused),
    (Stands::Waiting, 1000, RESUME, Wanted::Refused),
    (Stands::Waiting, 1000, RELIEVE, Wanted::Refused),
    (Stands::Waiting, 1000, RIDE_HOME, Wanted::Allowed),
    (Stands::Waiting, 1000, FINAL, Wanted::Allowed),
    (Stands::Waiting, 1000, OTHER, Wanted::Refused),
    (Stands::RidingHome, 1000, RIDE, Wanted::Refused),
    (Stands::RidingHome, 1000, DUTY, Wanted::Refused),
    (Stands::RidingHome, 1000, INTERIM, Wanted::Refused),
    (Stands::RidingHome, 1000, RESUME, Wanted::Refused),
    (Stands::RidingHome, 1000, RELIEVE, Wanted::Refused),
    (Stands::RidingHome, 1000, RIDE_HOME, Wanted::Refused),
    (Stands::RidingHome, 1000, FINAL, Wanted::Allowed),
    (Stands::RidingHome, 1000, OTHER, Wanted::Refused),
];

// What each event leads to.
const LEADS: [Row; 8] = [
    (Stands::Off, 1000, RIDE, Wanted::Leads(Stands::Riding)),
    (Stands::Off, 1000, OTHER, Wanted::Leads(Stands::Off)),
    (Stands::Riding, 1000, DUTY, Wanted::Leads(Stands::Duty)),
    (Stands::Duty, 1000, INTERIM, Wanted::Leads(IN_D)),
    (Stands::Duty, 1000, RELIEVE, Wanted::Leads(Stands::Waiting)),
    (
        Stands::Waiting,
        1000,
        RIDE_HOME,
        Wanted::Leads(Stands::RidingHome),
    ),
    (IN_P, 1000, RESUME, Wanted::Leads(Stands::Duty)),
    (IN_P, 1000, FINAL, Wanted::Leads(Stands::Off)),
];

// Refusals in their order: the stage, the minute, the length of the interim, and its place.
const REFUSALS: [Row; 6] = [
    (Stands::Off, 1001, RESUME, Wanted::WrongStage(Stands::Off)),
    (Stands::Off, 1001, DUTY, Wanted::Behind(1001)),
    (
        Stands::Off,
        1000,
        (Number(999), Does::Other(Number(1001), b"AWAY")),
        Wanted::Behind(1000),
    ),
    (
        IN_D,
        1601,
        (Number(1600), Does::Resume),
        Wanted::Behind(1601),
    ),
    (
        IN_O,
        1000,
        (Number(999), Does::Final(b"HOM")),
        Wanted::Behind(1000),
    ),
    (
        IN_O,
        1000,
        (Number(1000), Does::Final(b"HOM")),
        Wanted::OtherPlace(b"AWAY"),
    ),
];

// Nobody resumes an interim of ten hours, but at another place.
const TEN_HOURS: [Row; 5] = [
    (
        IN_D,
        1000,
        (Number(1599), Does::Resume),
        Wanted::Leads(Stands::Duty),
    ),
    (
        IN_D,
        1000,
        (Number(1600), Does::Resume),
        Wanted::InterimTooLong(600),
    ),
    (
        IN_P,
        1000,
        (Number(1599), Does::Resume),
        Wanted::Leads(Stands::Duty),
    ),
    (
        IN_P,
        1000,
        (Number(1600), Does::Resume),
        Wanted::InterimTooLong(600),
    ),
    (
        IN_O,
        1000,
        (Number(1600), Does::Resume),
        Wanted::Leads(Stands::Duty),
    ),
];

// Whether the answer is the wanted one.
fn is_wanted(answer: &Result<Stage, EventFault>, wanted: &Wanted) -> Option<bool> {
    Some(match wanted {
        Wanted::Allowed => answer.is_ok(),
        Wanted::Refused => answer.is_err(),
        Wanted::Leads(stands) => *answer == Ok(stage(stands)?),
        Wanted::Behind(last) => *answer == Err(EventFault::Behind(minute(&Number(*last))?)),
        Wanted::OtherPlace(place) => *answer == Err(EventFault::OtherPlace(Code::read(place)?)),
        Wanted::WrongStage(stands) => *answer == Err(EventFault::WrongStage(stage(stands)?)),
        Wanted::InterimTooLong(minutes) => *answer == Err(EventFault::InterimTooLong(*minutes)),
    })
}

fn is_right(row: &Row) -> Option<bool> {
    let (stands, last, step, wanted) = row;
    let last = minute(&Number(*last))?;
    is_wanted(&allowed(stage(stands)?, event(step)?, Some(last)), wanted)
}

// The places of the first table, and of the row in it, that is answered otherwise.
fn wrong(tables: &[&[Row]]) -> Option<(usize, usize)> {
    for (place, rows) in tables.iter().enumerate() {
        if let Some(row) = wrong_row(rows) {
            return Some((place, row));
        }
    }
    None
}

fn wrong_row(rows: &[Row]) -> Option<usize> {
    for (place, row) in rows.iter().enumerate() {
        if is_right(row) != Some(true) {
            return Some(place);
        }
    }
    None
}

const TABLES: [&[Row]; 4] = [&FOLLOWS, &LEADS, &REFUSALS, &TEN_HOURS];

#[test]
fn what_may_come_next(rt: HostRuntime) {
    assert_eq!(rt; wrong(&TABLES), None);
}
