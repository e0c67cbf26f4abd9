//! Forecasts on days that are drawn: what would be answered beside what then is, and from when on nothing bars somebody from a vacancy
//! beside what a desk that searches all that was stated says of each minute.
use super::days::drawn_commands;
use super::{at, opening};
use crate::commands::{enrol, stated, take};
use desk_base::{Minute, PersonNo, VacNo};
use desk_model::{Cmd, DeskCore, Edition, Entry, Reply, Stated};
use fast_core::FastCore;
use forecast::{Earliest, SupposeFault, suppose, when};
use plain_core::PlainCore;
use std::alloc::Global;
use std::test::Fail;

// The days of each edition, the drawn commands of a day, and how many of its last commands are supposed first.
const DAYS: u64 = 1_000;

const COMMANDS: u32 = 240;

const SUPPOSED: usize = 40;

// How many minutes behind the last moment a vacancy's report is at most: the plain desk is asked at each.
const AHEAD: u64 = 500;

// A bit for each kind of answer: the four refusals, that nothing bars the person now, or only later, and that something does
// throughout.
const ALL_KINDS: u32 = 127;

// The last three of these.
const OPEN_KINDS: u32 = 112;

fn kind(told: &Earliest, last: Minute) -> u32 {
    match told {
        Earliest::UnknownVacancy => 1,
        Earliest::UnknownPerson => 2,
        Earliest::Lapsed(_) => 4,
        Earliest::NotListed => 8,
        Earliest::Clear(minute) if *minute == last => 16,
        Earliest::Clear(_) => 32,
        Earliest::Barred(_) => 64,
    }
}

// Steps a desk through commands; the moment of the last.
fn step_all<C: DeskCore>(core: &mut C, commands: &[Stated]) -> Option<Minute> {
    let mut last = None;
    for stated in commands {
        if core.left() == 0 {
            return None;
        }
        last = Some(core.step(0, *stated).moment());
    }
    last
}

// Whether a desk answers commands just as these entries have it.
fn is_answered_so<C: DeskCore>(core: &mut C, commands: &[Stated], entries: &[Entry]) -> bool {
    if entries.len() != commands.len() {
        return false;
    }
    for (stated, entry) in commands.iter().zip(entries) {
        if core.left() == 0 {
            return false;
        }
        let next = core.step(0, *stated);
        if entry.caller() != 0
            || entry.stated() != stated
            || entry.moment() != next.moment()
            || entry.reply() != next.reply()
        {
            return false;
        }
    }
    true
}

// A vacancy that was asked for, whose report is not far ahead of the last moment; `None` where none was.
fn near_vacancy(stated: &Stated, last: Minute) -> Option<VacNo> {
    match stated.cmd() {
        Cmd::Vacancy(job) if job.report().number() <= last.number() + AHEAD => Some(job.vac()),
        _ => None,
    }
}

// A vacancy of the day and a person of whom a desk forecasts one of these kinds; `None` where there are no such two.
fn question_of(
    core: &FastCore,
    commands: &[Stated],
    kinds: u32,
    last: Minute,
) -> Option<(VacNo, PersonNo)> {
    for stated in commands {
        if let Some(vac) = near_vacancy(stated, last) {
            for number in 1..14 {
                let person = PersonNo::new(number)?;
                if kind(&when(core, vac, person), last) & kinds != 0 {
                    return Some((vac, person));
                }
            }
        }
    }
    None
}

// What a desk says at each minute from this one on, as a forecast: the first at which it says that the person is clear, or else what
// bars them at the last minute before it says that the vacancy has lapsed.
fn scanned<C: DeskCore>(
    core: &mut C,
    last: Minute,
    vac: VacNo,
    person: PersonNo,
) -> Option<Earliest> {
    let mut told = None;
    for minute in last.number()..last.number() + 4_000 {
        let (moment, reply) = take(
            core,
            Minute::new(minute),
            Some(Cmd::Explain { vac, person }),
        )?;
        told = match reply {
            Reply::UnknownVacancy => return Some(Earliest::UnknownVacancy),
            Reply::UnknownPerson => return Some(Earliest::UnknownPerson),
            Reply::NotListed => return Some(Earliest::NotListed),
            Reply::Clear { .. } => return Some(Earliest::Clear(moment)),
            Reply::Denied(bar) => Some(Earliest::Barred(bar)),
            Reply::Lapsed(report) if minute == last.number() => return Some(Earliest::Lapsed(
                report,
            )),
            _ => return told,
        };
    }
    None
}

// Whether a desk forecasts of its last commands what it then answers. It has answered all of them behind it.
fn supposes_rightly(alloc: Global, core: &mut FastCore, later: &[Stated]) -> bool {
    match suppose(alloc, core, later) {
        Ok(entries) => is_answered_so(core, later, &entries),
        Err(_) => false,
    }
}

// A desk that has answered a drawn day, whose last commands were supposed before; `None` where these were answered otherwise.
fn desk_after(alloc: Global, edition: Edition, commands: &[Stated]) -> Option<FastCore> {
    let mut core = FastCore::new(alloc, opening(edition)?, commands.len() as u64).ok()?;
    let (first, later) = commands.split_at(commands.len().saturating_sub(SUPPOSED));
    step_all(&mut core, first)?;
    if supposes_rightly(alloc, &mut core, later) {
        Some(core)
    } else {
        None
    }
}

// The kind of the forecast on a drawn day, one of each seven of a kind, where it has such; `None` where it, or what was supposed, isn't what then is.
fn forecast_kind(alloc: Global, edition: Edition, seed: u64) -> Option<u32> {
    let commands = drawn_commands(alloc, edition, seed, COMMANDS)?;
    let fast = desk_after(alloc, edition, &commands)?;
    let mut plain = PlainCore::new(alloc, opening(edition)?, 10_000).ok()?;
    let last = step_all(&mut plain, &commands)?;
    let wanted = question_of(&fast, &commands, 1 << (seed % 7), last);
    let open = question_of(&fast, &commands, OPEN_KINDS, last);
    let any = question_of(&fast, &commands, ALL_KINDS, last);
    let (vac, person) = wanted.or(open).or(any)?;
    let told = when(&fast, vac, person);
    if scanned(&mut plain, last, vac, person) == Some(told) {
        Some(kind(&told, last))
    } else {
        None
    }
}

// The first day whose forecast isn't what then is, and the kinds of answers that were reached.
fn first_wrong(alloc: Global, edition: Edition) -> (Option<u64>, u32) {
    let mut kinds = 0;
    for seed in 0..DAYS {
        match forecast_kind(alloc, edition, seed) {
            Some(kind) => kinds |= kind,
            None => return (Some(seed), kinds),
        }
    }
    (None, kinds)
}

#[test]
fn forecasts_come_true_in_the_first_edition(rt: HostRuntime) -> Result<(), Fail> {
    assert!(rt; first_wrong(rt.alloc(), Edition::One) == (None, ALL_KINDS));
    Ok(())
}

#[test]
fn forecasts_come_true_in_the_second_edition(rt: HostRuntime) -> Result<(), Fail> {
    assert!(rt; first_wrong(rt.alloc(), Edition::Two) == (None, ALL_KINDS));
    Ok(())
}

// Whether of a desk with one step left two commands are too many, and one is answered without taking it.
fn has_room_for_one(alloc: Global) -> Option<bool> {
    let core = FastCore::new(alloc, opening(Edition::One)?, 1).ok()?;
    let stated = stated(at(b"00:01"), enrol(101))?;
    let many = suppose(alloc, &core, &[stated, stated]).err()?;
    let one = suppose(alloc, &core, &[stated]).ok()?;
    Some(many == SupposeFault::TooMany { left: 1 } && one.len() == 1 && core.left() == 1)
}

#[test]
fn more_is_supposed_than_there_is_room_for(rt: HostRuntime) -> Result<(), Fail> {
    assert!(rt; has_room_for_one(rt.alloc()) == Some(true));
    Ok(())
}

// Whether a question is answered at the last moment by a desk that has no step left.
fn answers_without_a_step(alloc: Global) -> Option<bool> {
    let mut core = FastCore::new(alloc, opening(Edition::One)?, 1).ok()?;
    if take(&mut core, at(b"00:02"), enrol(101)).is_none() {
        return None;
    }
    let vac = VacNo::new(12)?;
    let question = Stated::new(at(b"00:01")?, Cmd::Vac { vac })?;
    let entry = core.ask(question);
    Some(
        core.left() == 0
            && entry.moment() == at(b"00:02")?
            && entry.reply() == Reply::UnknownVacancy,
    )
}

#[test]
fn a_question_takes_no_step(rt: HostRuntime) -> Result<(), Fail> {
    assert!(rt; answers_without_a_step(rt.alloc()) == Some(true));
    Ok(())
}
