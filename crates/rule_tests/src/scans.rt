//! What the scans of a list of events answer.
use crate::asks::{Asks, Case, bar, over, tour};
use crate::told::{At, Stands, events, home, minute, stage};
use consecutive_days::{are_days_ok, days_ok, last_run, run_days};
use denial_rules::Bar;
use desk_base::{Code, Minute, Month};
use duty_events::{
    Asked, Event, MinuteKind, Stage, Tour, between, is_lawful, kind_behind, kind_until, last_tour,
    may_follow, place, place_behind, place_until, stage_of,
};
use law_bars::law_bar;
use month_hours::{Limit, Over, capped, over_limbo, over_month, used};
use rest_rules::{excess, off_from, rest_end, rest_ok};
use std::alloc::Global;

/// The place of the first case, and that of the question in it, that the scans answer otherwise.
pub(crate) fn wrong(alloc: Global, cases: &[Case]) -> Option<(usize, usize)> {
    for (place, (before, steps, asks)) in cases.iter().enumerate() {
        let events = events(alloc, before, steps);
        if let Some(question) = wrong_answer(&events, asks) {
            return Some((place, question));
        }
    }
    None
}

fn wrong_answer(events: &Option<Vec<Event>>, asks: &[Asks]) -> Option<usize> {
    let Some(events) = events else {
        return Some(0);
    };
    for (place, ask) in asks.iter().enumerate() {
        if is_so(events, ask) != Some(true) {
            return Some(place);
        }
    }
    None
}

fn is_so(events: &[Event], asks: &Asks) -> Option<bool> {
    Some(match asks {
        Asks::Hours(month, used, capped) => {
            hours(events, Month::read(month)?) == Some((*used, *capped))
        }
        Asks::OffFrom(at, excess) => off(events) == Some((minute(at)?, *excess)),
        Asks::RestEnds(at) => rest_ends(events) == Some(minute(at)?),
        Asks::Rested(at, more, wanted) => has_rested(events, at, *more)? == *wanted,
        Asks::Days(wanted) => days(events) == Some(*wanted),
        Asks::MayReport(at, wanted) => may_report(events, at)? == *wanted,
        Asks::MayReportBy(at, away, longest, wanted) => {
            may_report_by(events, at, *away, *longest)? == *wanted
        }
        Asks::Over(limit, at, duty, limbo, wanted) => {
            over_limit(events, *limit, at, *duty, *limbo) == over(wanted)
        }
        Asks::Law(call, report, duty, limbo, wanted) => {
            law(events, minute(call)?, minute(report)?, *duty, *limbo) == bar(wanted)
        }
        Asks::Plan(at, duty, limbo, wanted) => {
            law(events, minute(at)?, minute(at)?, *duty, *limbo) == bar(wanted)
        }
        Asks::Report(at, wanted) => law(events, minute(at)?, minute(at)?, 600, 0) == bar(wanted),
        Asks::Counts(first, many, worked, in_tour) => {
            counts(events, *first, *many) == Some((*worked, *in_tour))
        }
        _ => is_so_of_any(events, asks)?,
    })
}

// Of events that need be no lawful list.
fn is_so_of_any(events: &[Event], asks: &Asks) -> Option<bool> {
    Some(match asks {
        Asks::Lawful(wanted) => is_lawful(events) == *wanted,
        Asks::Nothing => events.is_empty(),
        Asks::Stands(wanted) => stage_of(events) == stage(wanted)?,
        Asks::Last(at) => latest(events) == Some(minute(at)?),
        Asks::Place(at, code) => place(events, home()?, minute(at)?) == Code::read(code)?,
        Asks::LastTour(many, wanted, stands) => {
            tour_and_stage(events, *many) == Some((tour(wanted), stage(stands)?))
        }
        Asks::Kinds(place, until, behind) => kinds(events, *place) == Some((*until, *behind)),
        Asks::Between(wanted) => kind_between(events) == Some(*wanted),
        Asks::MayFollow(wanted) => second_may_follow(events) == Some(*wanted),
        Asks::PlaceUntil(stands, code) => {
            place_before_last(events, stands) == Some(Code::read(code)?)
        }
        Asks::PlaceBehind(code) => place_behind_last(events) == Some(Code::read(code)?),
        Asks::MoreToSix(..) | Asks::NoMonth(_) => true,
        _ => false,
    })
}

fn latest(events: &[Event]) -> Option<Minute> {
    Some(events.last()?.last_minute())
}

// The last tour that has ended by the first so many events, and the stage then.
fn tour_and_stage(events: &[Event], many: usize) -> Option<(Option<Tour>, Stage)> {
    let first = events.get(..many)?;
    Some((last_tour(first), stage_of(first)))
}

fn kind_between(events: &[Event]) -> Option<MinuteKind> {
    let [first, second] = events else {
        return None;
    };
    Some(between(first, second))
}

fn second_may_follow(events: &[Event]) -> Option<bool> {
    let [first, second] = events else {
        return None;
    };
    let last = Some(first.first_minute());
    Some(may_follow(&Stage::Duty, &last, second))
}

fn place_before_last(events: &[Event], stands: &Stands) -> Option<Code> {
    Some(place_until(&stage(stands)?, events.last()?, home()?))
}

fn place_behind_last(events: &[Event]) -> Option<Code> {
    Some(place_behind(events.last()?, home()?))
}

// What the minutes up to the event at a place count as, and those behind the event before it if that is the last.
fn kinds(events: &[Event], place: usize) -> Option<(MinuteKind, MinuteKind)> {
    let before = events.get(..place)?.last().copied();
    let until = kind_until(&before, events.get(place)?);
    Some((until, kind_behind(&before)))
}

/// The used and the capped minutes of a month; `None` where the events are not lawful, as in all that follow.
pub(crate) fn hours(events: &[Event], month: Month) -> Option<(u32, u32)> {
    if !is_lawful(events) {
        return None;
    }
    Some((used(events, month), capped(events, month)))
}

// Since when someone is off, and the excess of their last tour.
fn off(events: &[Event]) -> Option<(Minute, u32)> {
    if !is_lawful(events) {
        return None;
    }
    Some((off_from(events), excess(events)))
}

/// When rest ends; `None` where a tour runs.
pub(crate) fn rest_ends(events: &[Event]) -> Option<Minute> {
    if !is_lawful(events) || stage_of(events) != Stage::Off {
        return None;
    }
    Some(rest_end(events))
}

fn has_rested(events: &[Event], at: &At, more: u32) -> Option<bool> {
    let at = minute(at)?;
    if !is_lawful(events) {
        return None;
    }
    Some(rest_ok(events, at, more))
}

fn days(events: &[Event]) -> Option<u32> {
    if !is_lawful(events) {
        return None;
    }
    Some(run_days(events))
}

fn may_report(events: &[Event], at: &At) -> Option<bool> {
    let home = home()?;
    let report = minute(at)?;
    if !is_lawful(events) {
        return None;
    }
    Some(days_ok(events, home, report))
}

fn may_report_by(events: &[Event], at: &At, away: bool, longest: u64) -> Option<bool> {
    let report = minute(at)?;
    if !is_lawful(events) {
        return None;
    }
    Some(are_days_ok(&last_run(events), away, longest, report))
}

// The month that would be over a limit with a plan; `None` for a report outside the years.
fn over_limit(
    events: &[Event],
    limit: Limit,
    report: &At,
    duty: u16,
    limbo: u16,
) -> Option<Option<Over>> {
    let report = minute(report)?;
    if !report.is_in_years() || !is_lawful(events) {
        return None;
    }
    Some(match limit {
        Limit::Hours => over_month(events, report, u32::from(duty), u32::from(limbo)),
        Limit::Limbo => over_limbo(events, report, u32::from(duty), u32::from(limbo)),
    })
}

/// The first bar for a call and a report, and a plan; `None` where nobody may ask.
pub(crate) fn law(
    events: &[Event],
    call: Minute,
    report: Minute,
    duty: u16,
    limbo: u16,
) -> Option<Option<Bar>> {
    let home = home()?;
    if !is_lawful(events) || stage_of(events) != Stage::Off || !report.is_in_years() {
        return None;
    }
    let duty = u32::from(duty);
    let limbo = u32::from(limbo);
    Some(law_bar(events, home, call, report, duty, limbo))
}

// How many minutes are worked, and how many a tour has, among so many from one on.
fn counts(events: &[Event], first: u64, many: u32) -> Option<(u32, u32)> {
    let first = Minute::new(first)?.number();
    if !is_lawful(events) {
        return None;
    }
    let worked = Asked::Worked.count(events, first, many);
    Some((worked, Asked::InTour.count(events, first, many)))
}
