//! What a clock answers that was told the events of a case.
ghost use Rattle.std.specs.Prelude.{◌≡◌, ◌≤◌, ◌<◌, ◌+◌, true};
ghost use Rattle.person_clock.specs.Clock.{last_now, minute_of};

use crate::asks::{Asks, Case, bar};
use crate::told::{At, Does, event, events, home, minute, stage};
use denial_rules::Bar;
use desk_base::{Code, Minute, Month, Window};
use duty_events::{Event, Stage};
use person_clock::PersonClock;
use std::alloc::Global;

/// A clock of someone of HOM, with a window of so many months from one on.
pub(crate) fn new_clock(first: &[u8], months: u8) -> Option<PersonClock> {
    let window = Window::new(Month::read(first)?, months)?;
    PersonClock::new(window, home()?).ok()
}

/// The place of the first case, and that of the question in it, that a clock with a window of so many months answers
/// otherwise. What only the scans can be asked is passed over.
pub(crate) fn wrong(
    alloc: Global,
    first: &[u8],
    months: u8,
    cases: &[Case],
) -> Option<(usize, usize)> {
    for (place, (before, steps, asks)) in cases.iter().enumerate() {
        let Some(events) = events(alloc, before, steps) else {
            return Some((place, 0));
        };
        if let Some(question) = wrong_question(first, months, &events, asks) {
            return Some((place, question));
        }
    }
    None
}

fn wrong_question(first: &[u8], months: u8, events: &[Event], asks: &[Asks]) -> Option<usize> {
    let Some(mut clock) = new_clock(first, months) else {
        return Some(0);
    };
    let is_told = tell(&mut clock, events);
    wrong_answer(&clock, is_told, asks)
}

/// Tells the clock the events, up to the first that may not come next. Whether all may come.
pub(crate) fn tell(clock: &mut PersonClock, events: &[Event]) -> bool {
    for event in events {
        if !clock.may_take(event) {
            return false;
        }
        clock.apply(*event);
    }
    true
}

/// The place of the first question that a clock answers otherwise, to which all that was told could be told or not.
pub(crate) fn wrong_answer(clock: &PersonClock, is_told: bool, asks: &[Asks]) -> Option<usize> {
    for (place, ask) in asks.iter().enumerate() {
        if is_so(clock, is_told, ask) != Some(true) {
            return Some(place);
        }
    }
    None
}

fn is_so(clock: &PersonClock, is_told: bool, asks: &Asks) -> Option<bool> {
    Some(match asks {
        Asks::Lawful(wanted) => is_told == *wanted,
        _ if !is_told => false,
        Asks::Stands(wanted) => clock.stage() == stage(wanted)?,
        Asks::Last(at) => clock.last() == minute(at),
        Asks::Nothing => clock.last().is_none(),
        Asks::Place(at, code) => {
            has_come(clock, minute(at)?) && clock.place() == Code::read(code)?
        }
        Asks::Hours(month, used, capped) => {
            hours(clock, Month::read(month)?) == Some((*used, *capped))
        }
        Asks::MoreToSix(from, wanted) => more_to_six(clock, *from) == Some(*wanted),
        Asks::NoMonth(month) => hours(clock, Month::read(month)?).is_none(),
        Asks::RestEnds(at) => clock.rest_end() == minute(at)?,
        Asks::Law(call, report, duty, limbo, wanted) => {
            law(clock, minute(call)?, minute(report)?, *duty, *limbo) == bar(wanted)
        }
        Asks::Plan(at, duty, limbo, wanted) => {
            law(clock, minute(at)?, minute(at)?, *duty, *limbo) == bar(wanted)
        }
        Asks::Report(at, wanted) => law(clock, minute(at)?, minute(at)?, 600, 0) == bar(wanted),
        _ => true,
    })
}

// How many days more with a tour, from a day on, make six in a row.
fn more_to_six(clock: &PersonClock, from: u8) -> Option<u8> {
    let mut clock = clock.copy().ok()?;
    for more in 0..7 {
        let day = from.saturating_add(more);
        let tour = [
            event(&(At::March(day, 8_00), Does::Duty))?,
            event(&(At::March(day, 16_00), Does::Final(b"HOM")))?,
        ];
        let report = minute(&At::March(day.saturating_add(1), 8_00))?;
        if !tell(&mut clock, &tour) {
            return None;
        }
        if let Some(Bar::SixDays { .. }) = law(&clock, report, report, 600, 0)? {
            return Some(more + 1);
        }
    }
    None
}

/// Whether the month is one of the window's.
pub(crate) fn is_month_of(window: &Window, month: Month) -> bool
    ensures { result ≡ true → (window.now.first ≤ month) × (month < window.now.first + window.now.months) }
{
    window.first() <= month && month.number() < window.first().number() + u16::from(window.months())
}

/// The used and the capped minutes of a month of the window; `None` for another month.
pub(crate) fn hours(clock: &PersonClock, month: Month) -> Option<(u32, u32)> {
    if !is_month_of(&clock.window(), month) {
        return None;
    }
    Some((clock.used(month), clock.capped(month)))
}

// Whether the moment isn't before the latest minute.
fn has_come(clock: &PersonClock, moment: Minute) -> bool
    ensures { result ≡ true → minute_of (last_now clock.now) ≤ moment }
{
    match clock.last() {
        Some(last) => last <= moment,
        None => true,
    }
}

/// The first bar for a call and a report, and a plan; `None` where nobody may ask.
pub(crate) fn law(
    clock: &PersonClock,
    call: Minute,
    report: Minute,
    duty: u16,
    limbo: u16,
) -> Option<Option<Bar>> {
    let end = report.number() + u64::from(duty) + u64::from(limbo);
    if clock.stage() != Stage::Off || !has_come(clock, call) {
        return None;
    }
    if report < call || end > clock.window().end().number() {
        return None;
    }
    Some(clock.law(call, report, duty, limbo))
}
