//! The commands of a day: boards, persons and what they did before, lists, and then commands that are drawn.
use super::at;
use super::draws::Draws;
use crate::commands::{enrol, list, set_up};
use desk_base::{Code, Minute, Month, PersonNo, Span, VacNo};
use desk_model::{Cmd, Job};
use duty_events::Event;

/// The minute of a day, and the vacancy and the person of its last offer.
#[derive(Clone, Copy)]
pub struct Day {
    pub now: u64,
    pub vac: u32,
    pub person: u32,
}

/// How many steps come before the first that is drawn.
pub const SET_UP: u32 = 98;

// The number of the vacancy that was made last before this step, from 1: each sixth step makes one.
fn newest(step: u32) -> u32 {
    (step.saturating_sub(SET_UP) / 6).saturating_add(1)
}

// A time of day so many days before the day.
fn ago(days: u64, hour: u64) -> Option<Minute> {
    let day = at(b"00:00")?.number();
    Minute::new(
        day.saturating_add(hour.saturating_mul(60))
            .saturating_sub(days.saturating_mul(1_440)),
    )
}

// Goes on duty at noon of a day, and is released at eight in the evening.
fn day_of_duty(days: u64, last: bool, place: &[u8]) -> Option<Event> {
    if last {
        Some(Event::Final(ago(days, 20)?, Code::read(place)?))
    } else {
        Some(Event::Duty(ago(days, 12)?))
    }
}

// What five persons did before: six days of duty in a row, and seven of which the sixth ended away; 298 hours of other service;
// 31 hours of limbo; and twenty hours on duty that ended two hours before the day.
fn past(number: u32) -> Option<Cmd> {
    let days = u64::from(number / 2);
    let last = number % 2 == 1;
    let home = Code::read(b"HOM")?;
    let (person, event) = match number {
        0..=11 => (1, day_of_duty(6_u64.saturating_sub(days), last, b"HOM")?),
        23 => (2, day_of_duty(2, true, b"AWY")?),
        12..=25 => (2, day_of_duty(13_u64.saturating_sub(days), last, b"HOM")?),
        26 => (3, Event::Other(Span::new(ago(13, 12)?, ago(1, 22)?)?, home)),
        27 => (4, Event::Duty(ago(3, 0)?)),
        28 => (4, Event::Relieve(ago(3, 12)?)),
        29 => (4, Event::Final(ago(2, 19)?, home)),
        30 => (5, Event::Duty(ago(1, 2)?)),
        _ => (5, Event::Final(ago(1, 22)?, home)),
    };
    let person = PersonNo::new(person)?;
    Some(Cmd::Past { person, event })
}

// One of the boards from 0, all but the fourth at HOM.
fn board_at(number: u32) -> Option<Cmd> {
    match number {
        0 => set_up(b"P1", false, b"HOM"),
        1 => set_up(b"P2", false, b"HOM"),
        2 => set_up(b"X1", true, b"HOM"),
        3 => set_up(b"X2", true, b"AWY"),
        _ => set_up(b"X3", true, b"HOM"),
    }
}

// Each of twelve persons is put on four boards.
fn list_at(number: u32) -> Option<Cmd> {
    let person = (number / 4).saturating_add(1);
    match person.saturating_add(number % 4) % 5 {
        0 => list(person, b"P1"),
        1 => list(person, b"P2"),
        2 => list(person, b"X1"),
        3 => list(person, b"X2"),
        _ => list(person, b"X3"),
    }
}

// A vacancy that reports between an hour before this minute and two days after it.
fn vacancy(draws: &mut Draws, now: u64, vac: u32) -> Option<Cmd> {
    let ahead = if draws.below(2) == 0 { 400 } else { 2_940 };
    let report = now
        .saturating_add(u64::from(draws.below(ahead)))
        .saturating_sub(60);
    let least = if draws.below(5) == 0 { 900 } else { 60 };
    let more = if least == 900 { 120 } else { 670 };
    let job = Job::new(
        VacNo::new(vac)?,
        draws.craft(),
        draws.quals()?,
        draws.place()?,
        Minute::new(report)?,
        draws.short(more).saturating_add(least),
        draws.short(100),
        draws.chain()?,
        draws.below(5) == 0,
    )?;
    Some(Cmd::Vacancy(job))
}

// The month of a minute up to 104 days before or after this one.
fn month(draws: &mut Draws, now: u64) -> Option<Month> {
    let away = u64::from(draws.below(300_000));
    let minute = now.saturating_add(150_000).saturating_sub(away);
    Some(Month::of(Minute::new(minute)?))
}

// A command about a person.
fn of_person(draws: &mut Draws, now: u64) -> Option<Cmd> {
    let person = PersonNo::new(draws.person())?;
    let cmd = match draws.below(24) {
        0 | 1 => Cmd::MarkOn { person },
        2 => Cmd::MarkOff { person },
        3 | 11 => Cmd::List {
            person,
            board: draws.board()?,
        },
        4 => Cmd::Unlist {
            person,
            board: draws.board()?,
        },
        5 => Cmd::Qualify {
            person,
            quals: draws.quals()?,
        },
        6 => Cmd::Drop { person },
        7 => Cmd::Past {
            person,
            event: draws.event(now)?,
        },
        8 | 12 => Cmd::Hours {
            person,
            month: month(draws, now)?,
        },
        9 | 13 => Cmd::At {
            board: draws.board()?,
            place: draws.short(16).saturating_add(1),
        },
        10 => Cmd::Enrol {
            person,
            craft: draws.craft(),
            home: draws.place()?,
            quals: draws.quals()?,
        },
        _ => Cmd::Happened {
            person,
            event: draws.event(now)?,
        },
    };
    Some(cmd)
}

// A command about the last offer, mostly.
fn of_offer(draws: &mut Draws, day: &Day) -> Option<Cmd> {
    let person = if draws.below(10) == 0 {
        draws.person()
    } else {
        day.person
    };
    let vac = VacNo::new(day.vac)?;
    let person = PersonNo::new(person)?;
    let cmd = match draws.below(14) {
        0..=2 => Cmd::Accept { vac, person },
        3..=6 => Cmd::Decline { vac, person },
        7 | 8 => Cmd::NoAnswer { vac, person },
        9 => Cmd::Withdraw { vac, person },
        10 => Cmd::Drop { person },
        _ => Cmd::Explain { vac, person },
    };
    Some(cmd)
}

// A command about one of the last vacancies.
fn of_vacancy(draws: &mut Draws, day: &Day, newest: u32) -> Option<Cmd> {
    let back = draws.below(8);
    let number = newest.saturating_add(1).saturating_sub(back).max(1);
    let vac = VacNo::new(number)?;
    let number = match draws.below(6) {
        0 | 1 => day.person,
        2 | 3 => draws.person(),
        _ => draws.below(5).saturating_add(1),
    };
    let person = PersonNo::new(number)?;
    let cmd = match draws.below(20) {
        0..=2 => Cmd::Next { vac },
        3..=6 => Cmd::Offer { vac, person },
        7 => Cmd::Annul { vac },
        8 => Cmd::Vac { vac },
        _ => Cmd::Explain { vac, person },
    };
    Some(cmd)
}

/// The command of a step, by a number that was drawn for it.
pub fn command(day: &Day, step: u32, state: u64) -> Option<Cmd> {
    let mut draws = Draws { state };
    match step {
        0..=4 => board_at(step),
        5..=16 => enrol(step.saturating_sub(4)),
        17..=48 => past(step.saturating_sub(17)),
        49..=96 => list_at(step.saturating_sub(49)),
        97 => set_up(b"P1", true, b"HOM"),
        _ if step % 6 == 0 => vacancy(&mut draws, day.now, newest(step)),
        _ if step % 6 == 1 => VacNo::new(newest(step)).map(|vac| Cmd::Next { vac }),
        _ if step % 6 == 2 => of_offer(&mut draws, day),
        _ => match draws.below(18) {
            0 => vacancy(&mut draws, day.now, newest(step)),
            1..=5 => of_person(&mut draws, day.now),
            6..=8 => of_offer(&mut draws, day),
            _ => of_vacancy(&mut draws, day, newest(step)),
        },
    }
}
