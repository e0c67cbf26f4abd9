//! The commands of generated days, and what is answered to them.
use desk_base::{Code, Minute, Month, PersonNo, VacNo};
use desk_model::{Chain, Cmd, Job, Reply, Stated};
use duty_events::Event;
use qualifications::{Craft, Quals};

pub(crate) fn at(minute: &[u8], cmd: Option<Cmd>) -> Option<Stated> {
    let stated = Stated::new(Minute::read(minute)?, cmd?)?;
    Some(stated)
}

pub(crate) fn board(board: &[u8], extra: bool) -> Option<Cmd> {
    Some(Cmd::Board {
        board: Code::read(board)?,
        extra,
        place: Code::read(b"HOM")?,
    })
}

pub(crate) fn enrol(person: u32, craft: Craft) -> Option<Cmd> {
    Some(Cmd::Enrol {
        person: PersonNo::new(person)?,
        craft,
        home: Code::read(b"HOM")?,
        quals: Quals::read(b"-")?,
    })
}

pub(crate) fn list(person: u32, board: &[u8]) -> Option<Cmd> {
    Some(Cmd::List {
        person: PersonNo::new(person)?,
        board: Code::read(board)?,
    })
}

pub(crate) fn hours(person: u32) -> Option<Cmd> {
    Some(Cmd::Hours {
        person: PersonNo::new(person)?,
        month: Month::read(b"2024-01")?,
    })
}

pub(crate) fn place(place: u16) -> Option<Cmd> {
    Some(Cmd::At {
        board: Code::read(b"PE")?,
        place,
    })
}

pub(crate) fn job(
    vac: u32,
    craft: Craft,
    report: &[u8],
    duty: u16,
    chain: &[u8],
    relief: bool,
) -> Option<Cmd> {
    Some(Cmd::Vacancy(Job::new(
        VacNo::new(vac)?,
        craft,
        Quals::read(b"-")?,
        Code::read(b"HOM")?,
        Minute::read(report)?,
        duty,
        0,
        Chain::read(chain)?,
        relief,
    )?))
}

pub(crate) fn next(vac: u32) -> Option<Cmd> {
    Some(Cmd::Next {
        vac: VacNo::new(vac)?,
    })
}

pub(crate) fn accept(vac: u32, person: u32) -> Option<Cmd> {
    Some(Cmd::Accept {
        vac: VacNo::new(vac)?,
        person: PersonNo::new(person)?,
    })
}

pub(crate) fn decline(vac: u32, person: u32) -> Option<Cmd> {
    Some(Cmd::Decline {
        vac: VacNo::new(vac)?,
        person: PersonNo::new(person)?,
    })
}

pub(crate) fn withdraw(vac: u32, person: u32) -> Option<Cmd> {
    Some(Cmd::Withdraw {
        vac: VacNo::new(vac)?,
        person: PersonNo::new(person)?,
    })
}

pub(crate) fn duty(person: u32, minute: &[u8]) -> Option<Cmd> {
    Some(Cmd::Happened {
        person: PersonNo::new(person)?,
        event: Event::Duty(Minute::read(minute)?),
    })
}

pub(crate) fn release(person: u32, minute: &[u8]) -> Option<Cmd> {
    Some(Cmd::Happened {
        person: PersonNo::new(person)?,
        event: Event::Final(Minute::read(minute)?, Code::read(b"HOM")?),
    })
}

pub(crate) fn offered(person: u32) -> Option<Reply> {
    Some(Reply::Offered {
        person: PersonNo::new(person)?,
        board: Code::read(b"PE")?,
        position: 1,
    })
}
