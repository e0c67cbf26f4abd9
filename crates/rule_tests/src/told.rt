//! What someone does, as it stands in a table, and the list of events that it makes.
use desk_base::{Code, Minute, Span};
use duty_events::{Event, Kind, Stage};
use std::alloc::Global;

/// A minute, as it stands in a table.
#[derive(Clone, Copy)]
pub(crate) enum At {
    /// A day of March 2024, where day 0 is 29 February and day 32 is 1 April, and a time on the clock, as 13_59, where 24_00 is
    /// the next midnight.
    March(u8, u16),
    /// A text as 2024-03-04 13:59.
    Text(&'static [u8]),
    /// The minute of this number.
    Number(u64),
}

/// What someone does. Other service ends at a minute.
#[derive(Clone, Copy)]
pub(crate) enum Does {
    Ride,
    Duty,
    Interim(Kind, &'static [u8]),
    Resume,
    Relieve,
    RideHome,
    Final(&'static [u8]),
    Other(At, &'static [u8]),
}

/// When someone does what.
pub(crate) type Step = (At, Does);

/// Where someone stands in a tour; an interim has its kind, its first minute and its place.
#[derive(Clone, Copy)]
pub(crate) enum Stands {
    Off,
    Riding,
    Duty,
    Interim(Kind, At, &'static [u8]),
    Waiting,
    RidingHome,
}

// 2024-02-29 00:00.
const DAY_0: u64 = 28_486_080;

/// The minute that is told; `None` where there is none.
pub(crate) fn minute(at: &At) -> Option<Minute> {
    match at {
        At::March(day, clock) => {
            let time = u64::from(60 * (clock / 100) + clock % 100);
            Minute::new(DAY_0 + 1440 * u64::from(*day) + time)
        }
        At::Text(text) => Minute::read(text),
        At::Number(number) => Minute::new(*number),
    }
}

/// The home of those of whom the tables tell.
pub(crate) fn home() -> Option<Code> {
    Code::read(b"HOM")
}

/// The event that is told.
pub(crate) fn event(step: &Step) -> Option<Event> {
    let at = minute(&step.0)?;
    Some(match step.1 {
        Does::Ride => Event::Ride(at),
        Does::Duty => Event::Duty(at),
        Does::Interim(kind, place) => Event::Interim(at, kind, Code::read(place)?),
        Does::Resume => Event::Resume(at),
        Does::Relieve => Event::Relieve(at),
        Does::RideHome => Event::RideHome(at),
        Does::Final(place) => Event::Final(at, Code::read(place)?),
        Does::Other(to, place) => Event::Other(Span::new(at, minute(&to)?)?, Code::read(place)?),
    })
}

/// Puts the events that are told behind those of the list.
fn tell(events: &mut Vec<Event>, steps: &[Step]) -> Option<()> {
    for step in steps {
        events.push(event(step)?).ok()?;
    }
    Some(())
}

/// The events that are told, of these steps and then of those.
pub(crate) fn events(alloc: Global, before: &[Step], steps: &[Step]) -> Option<Vec<Event>> {
    let mut events = Vec::new(alloc);
    tell(&mut events, before)?;
    tell(&mut events, steps)?;
    Some(events)
}

/// The stage that is told.
pub(crate) fn stage(stands: &Stands) -> Option<Stage> {
    Some(match stands {
        Stands::Off => Stage::Off,
        Stands::Riding => Stage::Riding,
        Stands::Duty => Stage::Duty,
        Stands::Interim(kind, at, place) => Stage::Interim {
            kind: *kind,
            since: minute(at)?,
            place: Code::read(place)?,
        },
        Stands::Waiting => Stage::Waiting,
        Stands::RidingHome => Stage::RidingHome,
    })
}

// A tour from 08:00 to 16:00 that ends at home, on each of these days of March.
macro_rules! day_tours {
    ($($day:literal),+) => {
        [$(
            (At::March($day, 8_00), Does::Duty),
            (At::March($day, 16_00), Does::Final(b"HOM"))
        ),+]
    };
}

/// Four days with a tour from 08:00 to 16:00 that ends at home.
pub(crate) const FOUR_DAYS: [Step; 8] = day_tours![4, 5, 6, 7];

/// Five days with a tour from 08:00 to 16:00 that ends at home.
pub(crate) const FIVE_DAYS: [Step; 10] = day_tours![4, 5, 6, 7, 8];
