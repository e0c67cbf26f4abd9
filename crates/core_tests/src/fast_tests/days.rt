//! Days that are drawn, in a desk that looks up and in one that searches all that was stated.
use super::drawn::{Day, SET_UP, command};
use super::draws::Draws;
use super::kinds::{FIRST_KINDS, SECOND_KINDS, kind};
use super::{at, opening};
use crate::commands::{stated, take};
use desk_base::{Code, Minute, PersonNo, VacNo};
use desk_model::{Cmd, Edition, Reply, Stated};
use duty_events::Event;
use fast_core::FastCore;
use plain_core::PlainCore;
use std::alloc::Global;
use std::test::Fail;

// The days of each edition, and the commands of a day. Both may be raised: the time goes with the days, and with the square of
// the commands, since the plain desk searches all that was stated before.
const DAYS: u64 = 20;

const COMMANDS: u32 = 2_000;

// The vacancy that a command offers.
fn offered_vacancy(cmd: &Option<Cmd>) -> Option<VacNo> {
    match cmd {
        Some(Cmd::Next { vac }) => Some(*vac),
        Some(Cmd::Offer { vac, .. }) => Some(*vac),
        _ => None,
    }
}

// The day after a command was answered, so many minutes later.
fn day_after(day: &Day, cmd: &Option<Cmd>, minutes: u32, reply: &Reply) -> Day {
    let mut after = Day {
        now: day.now.saturating_add(u64::from(minutes)),
        vac: day.vac,
        person: day.person,
    };
    if let Reply::Offered { person, .. } = reply {
        after.person = person.number();
        if let Some(vac) = offered_vacancy(cmd) {
            after.vac = vac.number();
        }
    }
    after
}

// A day at its beginning.
fn first_day() -> Option<Day> {
    Some(Day {
        now: at(b"00:00")?.number(),
        vac: 1,
        person: 1,
    })
}

// How many minutes time goes on after a step: none while the boards are set up, few in the first hours, and then up to an hour and
// a half.
fn minutes_after(draws: &mut Draws, step: u32) -> u32 {
    let much = draws.below(3) == 0;
    if step < SET_UP {
        0
    } else if much && step > SET_UP + 45 {
        draws.below(91)
    } else {
        draws.below(9)
    }
}

// The minute at which a step is stated: now and then two years ahead, which no window holds.
fn minute_of(draws: &mut Draws, day: &Day, step: u32) -> Option<Minute> {
    let outside = draws.below(40) == 0 && step >= SET_UP;
    let ahead = if outside { 1_000_000 } else { 0 };
    Minute::new(day.now.saturating_add(ahead))
}

// The first step of a day that the desks answer otherwise, from 0; `None` where none is. The kinds of replies are added.
fn first_otherwise(
    alloc: Global,
    edition: Edition,
    seed: u64,
    kinds: &mut u64,
) -> Result<Option<u32>, Fail> {
    let mut plain = PlainCore::new(alloc, opening(edition).ok_or("no opening")?, 100_000)?;
    let mut fast = FastCore::new(alloc, opening(edition).ok_or("no opening")?, 100_000)?;
    let mut draws = Draws { state: seed };
    let mut day = first_day().ok_or("no minute")?;
    for step in 0..COMMANDS {
        let state = draws.state();
        let minute = minute_of(&mut draws, &day, step);
        let told = take(&mut plain, minute, command(&day, step, state)).ok_or("no step")?;
        let looked = take(&mut fast, minute, command(&day, step, state)).ok_or("no step")?;
        if looked != told {
            return Ok(Some(step));
        }
        *kinds |= 1_u64 << (kind(&looked.1) % 64);
        let minutes = minutes_after(&mut draws, step);
        day = day_after(&day, &command(&day, step, state), minutes, &looked.1);
    }
    Ok(None)
}

// A person ends a tour at home.
fn released(person: u32, at: Minute) -> Option<Stated> {
    let person = PersonNo::new(person)?;
    let event = Event::Final(at, Code::read(b"HOM")?);
    Stated::new(at, Cmd::Happened { person, event })
}

// The commands that end a drawn day: each of twelve persons is released, and some hours later it is asked how a vacancy stands.
fn push_end(commands: &mut Vec<Stated>, at: Minute) -> Option<()> {
    for person in 1..13 {
        commands.push(released(person, at)?).ok()?;
    }
    let later = Minute::new(at.number() + 400)?;
    let vac = VacNo::new(1)?;
    commands.push(Stated::new(later, Cmd::Vac { vac })?).ok()
}

/// The commands of a drawn day: the first so many, each as it is stated where a desk has answered those before it, and then those that
/// end the day.
pub fn drawn_commands(
    alloc: Global,
    edition: Edition,
    seed: u64,
    count: u32,
) -> Option<Vec<Stated>> {
    let mut core = FastCore::new(alloc, opening(edition)?, u64::from(count)).ok()?;
    let mut draws = Draws { state: seed };
    let mut day = first_day()?;
    let mut commands = Vec::new(alloc);
    for step in 0..count {
        let state = draws.state();
        let minute = minute_of(&mut draws, &day, step);
        let cmd = command(&day, step, state);
        let minutes = minutes_after(&mut draws, step);
        let (Some(stated), Some(answer)) = (stated(minute, cmd), take(&mut core, minute, cmd))
        else {
            return None;
        };
        if commands.push(stated).is_err() {
            return None;
        }
        day = day_after(&day, &cmd, minutes, &answer.1);
    }
    push_end(&mut commands, Minute::new(day.now)?)?;
    Some(commands)
}

// The first step of any day that the desks answer otherwise, and the kinds of replies that were reached.
fn first_of_days(alloc: Global, edition: Edition) -> Result<(Option<u32>, u64), Fail> {
    let mut kinds = 0;
    for seed in 0..DAYS {
        let step = first_otherwise(alloc, edition, seed, &mut kinds)?;
        if step.is_some() {
            return Ok((step, kinds));
        }
    }
    Ok((None, kinds))
}

#[test]
fn both_cores_answer_alike_in_the_first_edition(rt: HostRuntime) -> Result<(), Fail> {
    let (otherwise, kinds) = first_of_days(rt.alloc(), Edition::One)?;
    assert!(rt; otherwise.is_none());
    assert!(rt; kinds == FIRST_KINDS);
    Ok(())
}

#[test]
fn both_cores_answer_alike_in_the_second_edition(rt: HostRuntime) -> Result<(), Fail> {
    let (otherwise, kinds) = first_of_days(rt.alloc(), Edition::Two)?;
    assert!(rt; otherwise.is_none());
    assert!(rt; kinds == SECOND_KINDS);
    Ok(())
}
