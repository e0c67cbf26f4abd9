//! What is kept, entry by entry, of a day worked by hand.
use crate::commands::{accept, annul, decline, next, of_person, of_vacancy, offered, ref_of};
use desk_base::{Code, Minute, VacNo};
use desk_model::{Chain, Cmd, Entry, Job, Reply, Stated, VacState};
use desk_register::Register;
use duty_events::Event;
use qualifications::{Craft, Quals};
use std::alloc::Global;
use std::test::Fail;

fn noon() -> Option<Minute> {
    Minute::read(b"2024-03-04 12:00")
}

fn code(text: &[u8]) -> Option<Code> {
    Code::read(text)
}

// An entry of this command, answered so.
fn entry_of(cmd: Option<Cmd>, reply: Reply) -> Option<Entry> {
    let stated = Stated::new(noon()?, cmd?)?;
    Some(Entry::new(0, stated, noon()?, reply))
}

// The register keeps this command, answered so; whether there is such a command.
fn keep(register: &mut Register, cmd: Option<Cmd>, reply: Reply) -> Option<()> {
    let entry = entry_of(cmd, reply)?;
    register.keep(&ref_of(&entry));
    Some(())
}

fn done(register: &mut Register, cmd: Option<Cmd>) -> Option<()> {
    keep(register, cmd, Reply::Done)
}

fn enrol(number: u32) -> Option<Cmd> {
    Some(Cmd::Enrol {
        person: of_person(number)?,
        craft: Craft::E,
        home: code(b"HOM")?,
        quals: Quals::read(b"3")?,
    })
}

fn set_up(board: &[u8], extra: bool) -> Option<Cmd> {
    Some(Cmd::Board {
        board: code(board)?,
        extra,
        place: code(b"HOM")?,
    })
}

fn make(number: u32) -> Option<Cmd> {
    let job = Job::new(
        of_vacancy(number)?,
        Craft::E,
        Quals::read(b"-")?,
        code(b"HOM")?,
        noon()?,
        600,
        0,
        Chain::read(b"P1")?,
        false,
    )?;
    Some(Cmd::Vacancy(job))
}

// A register with three persons, two boards and two vacancies.
fn crew(alloc: Global) -> Result<Register, Fail> {
    let mut register = Register::new(alloc)?;
    for number in [101, 7, 9_999_999] {
        done(&mut register, enrol(number)).ok_or("nobody")?;
    }
    done(&mut register, set_up(b"P1", false)).ok_or("no board")?;
    done(&mut register, set_up(b"X1", true)).ok_or("no board")?;
    for number in [12, 3] {
        done(&mut register, make(number)).ok_or("no vacancy")?;
    }
    Ok(register)
}

// What is kept of a vacancy and of a person: how it stands, and whether they have turned it down; whether they are marked
// off, whether their past is closed, what is assigned to them, and what is on offer to them.
#[derive(Clone, Copy, PartialEq)]
struct Seen {
    state: VacState,
    turned_down: bool,
    marked_off: bool,
    closed: bool,
    assigned: Option<VacNo>,
    on_offer: Option<VacNo>,
}

fn look(register: &Register, vac: u32, person: u32) -> Option<Seen> {
    let vac = of_vacancy(vac)?;
    let person = of_person(person)?;
    let kept = register.persons().get(person)?;
    Some(Seen {
        state: register.vacancies().get(vac)?.state,
        turned_down: register.has_turned_down(vac, person),
        marked_off: kept.marked_off,
        closed: kept.closed,
        assigned: kept.assigned,
        on_offer: kept.on_offer,
    })
}

// What is stated and answered, and of which vacancy and person what is kept then.
#[derive(Drop)]
struct Step {
    cmd: Option<Cmd>,
    reply: Option<Reply>,
    vac: u32,
    person: u32,
    seen: Option<Seen>,
}

fn after(cmd: Option<Cmd>, vac: u32, person: u32, seen: Option<Seen>) -> Step {
    Step {
        cmd,
        reply: Some(Reply::Done),
        vac,
        person,
        seen,
    }
}

// The place of the first step, from 0, after which something else is kept; `None` where none is.
fn first_wrong(register: &mut Register, steps: &[Step]) -> Result<Option<usize>, Fail> {
    for (i, step) in steps.iter().enumerate() {
        let reply = step.reply.ok_or("no reply")?;
        keep(register, step.cmd, reply).ok_or("not stated")?;
        if look(register, step.vac, step.person) != step.seen {
            return Ok(Some(i));
        }
    }
    Ok(None)
}

// Nothing is so but how the vacancy stands.
fn stands(state: VacState) -> Option<Seen> {
    Some(Seen {
        state,
        turned_down: false,
        marked_off: false,
        closed: false,
        assigned: None,
        on_offer: None,
    })
}

fn turned(state: VacState) -> Option<Seen> {
    Some(Seen {
        turned_down: true,
        ..stands(state)?
    })
}

fn has(state: VacState, vac: u32) -> Option<Seen> {
    Some(Seen {
        assigned: of_vacancy(vac),
        ..stands(state)?
    })
}

fn open(vac: u32, person: u32) -> Option<Seen> {
    Some(Seen {
        on_offer: of_vacancy(vac),
        ..stands(VacState::OnOffer(of_person(person)?))?
    })
}

fn give_up(person: u32) -> Option<Cmd> {
    Some(Cmd::Drop {
        person: of_person(person)?,
    })
}

fn goes_on_duty(person: u32) -> Option<Cmd> {
    Some(Cmd::Happened {
        person: of_person(person)?,
        event: Event::Duty(noon()?),
    })
}

fn offer(vac: u32, person: u32) -> Step {
    Step {
        cmd: next(vac),
        reply: offered(person),
        vac,
        person,
        seen: open(vac, person),
    }
}

fn taken(person: u32) -> Result<VacState, Fail> {
    Ok(VacState::Taken(of_person(person).ok_or("nobody")?))
}

#[test]
fn persons_and_boards_are_found(rt: HostRuntime) -> Result<(), Fail> {
    let register = crew(rt.alloc())?;
    for (number, place) in [
        (101, Some(0)),
        (7, Some(1)),
        (9_999_999, Some(2)),
        (102, None),
    ] {
        let person = of_person(number).ok_or("no number")?;
        assert_eq!(rt;
            register.persons().index(person).map(|place| place.number()),
            place
        );
    }
    for (text, place) in [(b"P1", Some(0)), (b"X1", Some(1)), (b"Y1", None)] {
        let board = code(text).ok_or("no code")?;
        assert_eq!(rt;
            register.boards().index(&board).map(|place| place.number()),
            place
        );
    }
    Ok(())
}

#[test]
fn a_vacancy_is_declined_accepted_and_given_up(rt: HostRuntime) -> Result<(), Fail> {
    let mut register = crew(rt.alloc())?;
    let gone = Seen {
        marked_off: true,
        ..turned(VacState::Vacant).ok_or("nothing")?
    };
    let steps = [
        offer(12, 101),
        after(decline(12, 101), 12, 101, turned(VacState::Vacant)),
        after(next(3), 12, 7, stands(VacState::Vacant)),
        offer(12, 7),
        after(accept(12, 7), 12, 7, has(taken(7)?, 12)),
        after(next(3), 3, 101, stands(VacState::Vacant)),
        after(give_up(7), 12, 7, Some(gone)),
        after(next(3), 12, 9_999_999, stands(VacState::Vacant)),
        offer(3, 101),
        after(annul(3), 3, 101, stands(VacState::Annulled)),
    ];
    assert_eq!(rt; first_wrong(&mut register, &steps)?, None);
    Ok(())
}

#[test]
fn a_vacancy_is_begun_or_annulled(rt: HostRuntime) -> Result<(), Fail> {
    let mut register = crew(rt.alloc())?;
    let one = of_person(101).ok_or("nobody")?;
    let begun = Seen {
        closed: true,
        ..stands(VacState::Begun(one)).ok_or("nothing")?
    };
    let refused = Step {
        reply: Some(Reply::OutsideWindow),
        ..after(goes_on_duty(101), 12, 101, has(taken(101)?, 12))
    };
    let steps = [
        offer(12, 101),
        after(accept(12, 101), 12, 101, has(taken(101)?, 12)),
        offer(3, 7),
        after(accept(3, 7), 3, 7, has(taken(7)?, 3)),
        refused,
        after(goes_on_duty(101), 12, 101, Some(begun)),
        after(annul(3), 3, 7, stands(VacState::Annulled)),
    ];
    assert_eq!(rt; first_wrong(&mut register, &steps)?, None);
    Ok(())
}

#[test]
fn a_thousand_persons_have_their_places(rt: HostRuntime) -> Result<(), Fail> {
    let mut register = Register::new(rt.alloc())?;
    done(&mut register, make(1)).ok_or("no vacancy")?;
    for number in 1..=1_001 {
        done(&mut register, enrol(number)).ok_or("nobody")?;
    }
    assert_eq!(rt; register.persons().count(), 1_000);
    for number in 1..=1_000 {
        if number % 3 == 0 {
            done(&mut register, decline(1, number)).ok_or("no decline")?;
        }
    }
    for number in 1..=1_000 {
        let seen = look(&register, 1, number).ok_or("nobody")?;
        assert_eq!(rt; seen.turned_down, number % 3 == 0);
    }
    Ok(())
}
