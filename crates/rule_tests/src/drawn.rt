//! Clocks beside the scans, over events that are drawn.
ghost use Rattle.std.specs.Prelude.{◌<◌};

use crate::told::{At, Does, event, home};
use crate::{clock, scans};
use denial_rules::Bar;
use desk_base::{Code, Minute, Month, Window};
use duty_events::{Event, Kind, Stage, may_follow, place, stage_of};
use person_clock::PersonClock;
use std::alloc::Global;
use std::test::Fail;

// The minutes from one event to the next, and those of other service.
const GAPS: [u64; 16] = [
    0, 0, 1, 30, 119, 180, 239, 240, 241, 420, 480, 599, 600, 601, 1_200, 4_400,
];

// The minutes from the latest event to a call, and to a report.
const LEADS: [u64; 16] = [
    0, 1, 300, 599, 600, 601, 660, 900, 1_439, 1_440, 2_879, 2_880, 4_319, 4_320, 4_400, 9_000,
];

const PLACES: [&[u8]; 3] = [b"ALT", b"FAR", b"HOM"];

const KINDS: [Kind; 3] = [Kind::D, Kind::P, Kind::O];

// Numbers that are drawn, the same in each run.
#[derive(Drop)]
struct Draws {
    state: u64,
}

impl Draws {
    fn next(&mut self) -> u64 {
        self.state = self
            .state
            .wrapping_mul(6_364_136_223_846_793_005)
            .wrapping_add(1_442_695_040_888_963_407);
        self.state >> 33
    }

    // A number so much after another.
    fn after(&mut self, number: u64, table: &[u64; 16]) -> u64 {
        number.saturating_add(table[(self.next() % 16) as usize])
    }

    fn kind(&mut self) -> Kind {
        KINDS[(self.next() % 3) as usize]
    }

    // An event after a minute, which may not be allowed.
    fn event(&mut self, last: Minute) -> Option<Event> {
        let at = self.after(last.number(), &GAPS);
        let place = PLACES[(self.next() % 3) as usize];
        let does = match self.next() % 9 {
            0 => Does::Ride,
            1 => Does::Duty,
            2 => Does::Interim(self.kind(), place),
            3 => Does::Resume,
            4 => Does::Relieve,
            5 => Does::RideHome,
            6 => Does::Other(At::Number(self.after(at, &GAPS)), place),
            _ => Does::Final(place),
        };
        event(&(At::Number(at), does))
    }

    // What somebody asks about after a minute: a call and a job.
    fn job(&mut self, last: Minute) -> Option<Job> {
        let report = Minute::new(self.after(last.number(), &LEADS))?;
        let call = Minute::new(self.after(last.number(), &LEADS))?;
        Some(Job {
            call: call.min(report),
            report,
            duty: (self.next() % 721) as u16,
            limbo: (self.next() % 601) as u16,
        })
    }
}

#[derive(Drop)]
struct Job {
    call: Minute,
    report: Minute,
    duty: u16,
    limbo: u16,
}

// Whether the scans let the event come next.
fn may_come(events: &[Event], last: &Option<Minute>, window: &Window, event: &Event) -> bool {
    let in_window = window.holds(event.first_minute()) && window.holds(event.last_minute());
    in_window && may_follow(&stage_of(events), last, event)
}

// The first bar by the scans; `None` where nobody may ask.
fn scanned(events: &[Event], window: &Window, job: &Job) -> Option<Option<Bar>> {
    let duty = u32::from(job.duty);
    let limbo = u32::from(job.limbo);
    let end = job.report.number() + u64::from(duty) + u64::from(limbo);
    if end > window.end().number() {
        return None;
    }
    scans::law(events, job.call, job.report, job.duty, job.limbo)
}

// Whether a clock answers as the scans of its events, up to a last minute, by the month of that minute.
fn is_as_scanned(clock: &PersonClock, events: &[Event], home: Code, last: Minute) -> bool {
    let month = Month::of(last);
    let hours = clock::hours(clock, month);
    let rest_end = if clock.stage() == Stage::Off {
        Some(clock.rest_end())
    } else {
        None
    };
    hours.is_some()
        && hours == scans::hours(events, month)
        && rest_end == scans::rest_ends(events)
        && clock.stage() == stage_of(events)
        && clock.last() == Some(last)
        && clock.place() == place(events, home, last)
}

// The place of a bar in a list of which were seen.
fn sort(bar: &Option<Option<Bar>>) -> usize
    ensures { result < 10 }
{
    match bar {
        None => 0,
        Some(None) => 1,
        Some(Some(Bar::Rest(_))) => 2,
        Some(Some(Bar::MoreRest(_))) => 3,
        Some(Some(Bar::Undisturbed(_))) => 4,
        Some(Some(Bar::SixDays { .. })) => 5,
        Some(Some(Bar::SevenDays { .. })) => 6,
        Some(Some(Bar::MonthHours { .. })) => 7,
        Some(Some(Bar::LimboHours { .. })) => 8,
        Some(Some(_)) => 9,
    }
}

// Draws an event, which the clock takes in and which comes behind those of the list if it may. Its last minute then.
fn draw_event(
    draws: &mut Draws,
    clock: &mut PersonClock,
    events: &mut Vec<Event>,
) -> Result<Option<Minute>, Fail> {
    let window = clock.window();
    let last = clock.last();
    let Some(event) = draws.event(last.unwrap_or(window.start())) else {
        return Ok(None);
    };
    let may_take = clock.may_take(&event);
    if may_take != may_come(events, &last, &window, &event) {
        return Err("by the clock and by the scans, not the same may come".into());
    }
    if !may_take {
        return Ok(None);
    }
    clock.apply(event);
    events.push(event)?;
    Ok(Some(event.last_minute()))
}

// Draws a job after the latest minute, and asks the clock and the scans for the first bar.
fn draw_bar(
    draws: &mut Draws,
    clock: &PersonClock,
    events: &[Event],
    last: Minute,
) -> Result<Option<Option<Bar>>, Fail> {
    let job = draws.job(last).ok_or("no job")?;
    let bar = clock::law(clock, job.call, job.report, job.duty, job.limbo);
    if bar != scanned(events, &clock.window(), &job) {
        return Err("by the clock and by the scans, not the same bar".into());
    }
    Ok(bar)
}

// Draws the events of a person, and after each a job. How many events there are.
fn draw_person(
    draws: &mut Draws,
    clock: &mut PersonClock,
    home: Code,
    seen: &mut [bool; 10],
    alloc: Global,
) -> Result<u32, Fail> {
    let mut events = Vec::new(alloc);
    let mut count = 0u32;
    clock.restart(home);
    for _ in 0..600 {
        if let Some(last) = draw_event(draws, clock, &mut events)? {
            count = count.saturating_add(1);
            if !is_as_scanned(clock, &events, home, last) {
                return Err("by the clock and by the scans, not the same minutes".into());
            }
            seen[sort(&draw_bar(draws, clock, &events, last)?)] = true;
        }
    }
    Ok(count)
}

#[test]
fn a_clock_answers_as_the_scans_do(rt: HostRuntime) -> Result<(), Fail> {
    let home = home().ok_or("no code")?;
    let mut clock = clock::new_clock(b"2023-01", 24).ok_or("no clock")?;
    let mut seen = [false; 10];
    let mut count = 0u32;
    for seed in 1..17 {
        let mut draws = Draws { state: seed };
        let events = draw_person(&mut draws, &mut clock, home, &mut seen, rt.alloc())?;
        count = count.saturating_add(events);
    }
    let all = [true, true, true, true, true, true, true, true, true, false];
    assert!(rt; seen == all);
    assert!(rt; count >= 3_000);
    Ok(())
}
