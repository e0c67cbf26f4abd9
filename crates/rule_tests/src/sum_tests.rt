//! Tours as their events come: expected minutes are counted by hand, and those of months compared with the scans too.
use crate::clock::is_month_of;
use crate::scans;
use crate::told::At::March;
use crate::told::{Does, Step, event, events};
use desk_base::{Month, Window};
use duty_events::{Event, Kind, Stage};
use std::alloc::Global;
use tour_build::RunningTour;

// What is told, and then the minutes on duty, in limbo and capped in all; used in March and in April; and capped in these.
type Row = (Step, [u32; 7]);

const ACROSS_A_MONTH_END_AND_THE_NEXT: [Row; 12] = [
    ((March(31, 20_00), Does::Duty), [0, 0, 0, 0, 0, 0, 0]),
    // 780 minutes on duty, 240 of them in March
    (
        (March(32, 9_00), Does::Relieve),
        [780, 0, 0, 240, 540, 0, 0],
    ),
    // all limbo comes behind twelve hours
    (
        (March(32, 9_30), Does::RideHome),
        [780, 30, 30, 240, 570, 0, 30],
    ),
    (
        (March(32, 11_00), Does::Final(b"HOM")),
        [780, 120, 120, 240, 660, 0, 120],
    ),
    // a tour that has ended keeps its sums until the next begins
    ((March(33, 8_00), Does::Ride), [0, 0, 0, 0, 0, 0, 0]),
    ((March(33, 9_00), Does::Duty), [60, 0, 0, 0, 60, 0, 0]),
    (
        (March(33, 12_00), Does::Interim(Kind::D, b"AWAY1")),
        [240, 0, 0, 0, 240, 0, 0],
    ),
    // four hours at a designated terminal are off
    ((March(33, 16_00), Does::Resume), [240, 0, 0, 0, 240, 0, 0]),
    (
        (March(33, 17_00), Does::Interim(Kind::P, b"AWAY1")),
        [300, 0, 0, 0, 300, 0, 0],
    ),
    // one minute less is on duty
    ((March(33, 20_59), Does::Resume), [539, 0, 0, 0, 539, 0, 0]),
    ((March(33, 22_00), Does::Relieve), [600, 0, 0, 0, 600, 0, 0]),
    // of 130 minutes in limbo the first 120 fill up the twelve hours
    (
        (March(34, 0_10), Does::Final(b"HOM")),
        [600, 130, 10, 0, 730, 0, 10],
    ),
];

const ONE_TOUR: [Step; 6] = [
    (March(30, 6_00), Does::Ride),
    (March(30, 7_30), Does::Duty),
    (March(30, 13_00), Does::Interim(Kind::O, b"HOM")),
    (March(30, 22_00), Does::Resume),
    (March(31, 23_50), Does::Relieve),
    (March(32, 2_05), Does::Final(b"HOM")),
];

// The sums of that tour.
const OF_ONE_TOUR: [u32; 7] = [2_510, 135, 135, 2_520, 125, 10, 125];

// A tour with a window of March and April.
fn new_tour() -> Option<RunningTour> {
    let window = Window::new(Month::read(b"2024-03")?, 2)?;
    Some(RunningTour::begin(window))
}

// Takes in an event. Whether it may come next.
fn take(tour: &mut RunningTour, event: &Option<Event>) -> bool {
    let Some(event) = event else {
        return false;
    };
    if !tour.may_take(event) {
        return false;
    }
    tour.apply(*event);
    true
}

// The used and the capped minutes of a month of the window.
fn of_month(tour: &RunningTour, month: Month) -> Option<(u32, u32)> {
    if !is_month_of(&tour.window(), month) {
        return None;
    }
    Some((tour.used_in(month), tour.capped_in(month)))
}

fn sums(tour: &RunningTour) -> Option<[u32; 7]> {
    let march = of_month(tour, Month::read(b"2024-03")?)?;
    let april = of_month(tour, Month::read(b"2024-04")?)?;
    Some([
        tour.on_duty(),
        tour.limbo(),
        tour.capped(),
        march.0,
        april.0,
        march.1,
        april.1,
    ])
}

// The place of the first row with other sums; that behind them where the tour has not ended then.
fn wrong_sums(rows: &[Row]) -> Option<usize> {
    let Some(mut tour) = new_tour() else {
        return Some(0);
    };
    for (place, (step, wanted)) in rows.iter().enumerate() {
        let is_taken = take(&mut tour, &event(step));
        if !is_taken || sums(&tour) != Some(*wanted) {
            return Some(place);
        }
    }
    if tour.stage() == Stage::Off {
        None
    } else {
        Some(rows.len())
    }
}

// Whether a tour has the minutes of both months that the scans of its events have.
fn is_as_scanned(tour: &RunningTour, events: &[Event]) -> bool {
    for text in [b"2024-03", b"2024-04"] {
        let Some(month) = Month::read(text) else {
            return false;
        };
        let found = of_month(tour, month);
        if found.is_none() || found != scans::hours(events, month) {
            return false;
        }
    }
    true
}

// The place of the first step after which the scans have other minutes; that behind them where the sums are others then.
fn wrong_by_the_scans(alloc: Global) -> Option<usize> {
    let Some(mut tour) = new_tour() else {
        return Some(0);
    };
    let Some(events) = events(alloc, &ONE_TOUR, &[]) else {
        return Some(0);
    };
    for (place, event) in events.iter().enumerate() {
        let is_taken = take(&mut tour, &Some(*event));
        if !is_taken || !is_as_scanned(&tour, &events[..place + 1]) {
            return Some(place);
        }
    }
    if sums(&tour) == Some(OF_ONE_TOUR) {
        None
    } else {
        Some(events.len())
    }
}

#[test]
fn tours_as_their_events_come(rt: HostRuntime) {
    assert_eq!(rt; wrong_sums(&ACROSS_A_MONTH_END_AND_THE_NEXT), None);
    assert_eq!(rt; wrong_by_the_scans(rt.alloc()), None);
}
