//! The clocks of two persons, by a day worked by hand.
use crate::commands::{at, ref_of};
use desk_base::{Code, Minute, Month, PersonNo, Window};
use desk_model::{Cmd, Entry, Reply, Stated};
use desk_register::PersonIndex;
use desk_state::Duty;
use duty_events::{Event, Stage};
use qualifications::{Craft, Quals};
use std::test::Fail;

fn enrol(number: u32, home: &[u8]) -> Option<Cmd> {
    Some(Cmd::Enrol {
        person: PersonNo::new(number)?,
        craft: Craft::E,
        home: Code::read(home)?,
        quals: Quals::read(b"-")?,
    })
}

// An entry of this command, answered so.
fn entry_of(cmd: Option<Cmd>, reply: Reply) -> Option<Entry> {
    let stated = Stated::new(at(b"23:00")?, cmd?)?;
    Some(Entry::new(0, stated, at(b"23:00")?, reply))
}

// The clocks keep this command, answered so, of the person at this place; whether there is such a command.
fn keep(duty: &mut Duty, cmd: Option<Cmd>, reply: Reply, place: Option<usize>) -> Option<()> {
    let entry = entry_of(cmd, reply)?;
    duty.keep(
        &ref_of(&entry),
        place.and_then(|place| PersonIndex::new(place)),
    );
    Some(())
}

fn duty(number: u32, time: &[u8]) -> Option<Cmd> {
    Some(Cmd::Past {
        person: PersonNo::new(number)?,
        event: Event::Duty(at(time)?),
    })
}

fn release(number: u32, time: &[u8], place: &[u8]) -> Option<Cmd> {
    Some(Cmd::Happened {
        person: PersonNo::new(number)?,
        event: Event::Final(at(time)?, Code::read(place)?),
    })
}

// The stage of the person at a place, their latest minute, and where they are.
type Seen = (Stage, Option<Minute>, Code);

fn look(duty: &Duty, place: usize) -> Option<Seen> {
    let clock = duty.clock(PersonIndex::new(place)?)?;
    Some((clock.stage(), clock.last(), clock.place()))
}

fn off(last: Option<Minute>, place: &[u8]) -> Option<Seen> {
    Some((Stage::Off, last, Code::read(place)?))
}

fn on_duty(time: &[u8], place: &[u8]) -> Option<Seen> {
    Some((Stage::Duty, at(time), Code::read(place)?))
}

// What is stated and answered, of the person at which place, and what is seen then of the first and of the second.
type Step = (
    Option<Cmd>,
    Reply,
    Option<usize>,
    Option<Seen>,
    Option<Seen>,
);

// The place of the first step, from 0, after which something else is seen; `None` where none is.
fn first_wrong(duty: &mut Duty, steps: &[Step]) -> Result<Option<usize>, Fail> {
    for (i, (cmd, reply, place, one, two)) in steps.iter().enumerate() {
        keep(duty, *cmd, *reply, *place).ok_or("not stated")?;
        if look(duty, 0) != *one || look(duty, 1) != *two {
            return Ok(Some(i));
        }
    }
    Ok(None)
}

#[test]
fn each_person_has_a_clock_of_their_own(rt: HostRuntime) -> Result<(), Fail> {
    let march = Month::read(b"2024-03").ok_or("no month")?;
    let window = Window::new(march, 1).ok_or("no window")?;
    let mut duty_of_two = Duty::new(rt.alloc(), window)?;
    let done = Reply::Done;
    let steps: [Step; 8] = [
        (enrol(7, b"HOM"), done, None, off(None, b"HOM"), None),
        (enrol(7, b"HOM"), Reply::Used, None, off(None, b"HOM"), None),
        (
            enrol(3, b"AWY"),
            done,
            None,
            off(None, b"HOM"),
            off(None, b"AWY"),
        ),
        (
            duty(7, b"06:00"),
            done,
            Some(0),
            on_duty(b"06:00", b"HOM"),
            off(None, b"AWY"),
        ),
        // what is refused is not taken in
        (
            release(7, b"14:00", b"FAR"),
            Reply::OutsideWindow,
            Some(0),
            on_duty(b"06:00", b"HOM"),
            off(None, b"AWY"),
        ),
        (
            release(7, b"14:00", b"FAR"),
            done,
            Some(0),
            off(at(b"14:00"), b"FAR"),
            off(None, b"AWY"),
        ),
        (
            duty(3, b"05:00"),
            done,
            Some(1),
            off(at(b"14:00"), b"FAR"),
            on_duty(b"05:00", b"AWY"),
        ),
        (
            enrol(9, b"FAR"),
            done,
            None,
            off(at(b"14:00"), b"FAR"),
            on_duty(b"05:00", b"AWY"),
        ),
    ];
    assert_eq!(rt; first_wrong(&mut duty_of_two, &steps)?, None);
    assert_eq!(rt; look(&duty_of_two, 2), off(None, b"FAR"));
    assert_eq!(rt; look(&duty_of_two, 3), None);
    Ok(())
}
