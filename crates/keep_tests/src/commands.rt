//! Minutes, numbers and commands of the cases, each of a text or a number that may be none.
use desk_base::{Code, Minute, PersonNo, VacNo};
use desk_model::{Cmd, Entry, EntryRef, Reply};

/// The minute of 2024-03-04 at this time, `HH:MM`.
pub(crate) fn at(time: &[u8]) -> Option<Minute> {
    let mut text = *b"2024-03-04 00:00";
    if time.len() != 5 {
        return None;
    }
    text[11..].copy_from_slice(time);
    Minute::read(&text)
}

pub(crate) fn of_person(number: u32) -> Option<PersonNo> {
    PersonNo::new(number)
}

pub(crate) fn of_vacancy(number: u32) -> Option<VacNo> {
    VacNo::new(number)
}

pub(crate) fn next(vac: u32) -> Option<Cmd> {
    Some(Cmd::Next {
        vac: of_vacancy(vac)?,
    })
}

pub(crate) fn accept(vac: u32, person: u32) -> Option<Cmd> {
    Some(Cmd::Accept {
        vac: of_vacancy(vac)?,
        person: of_person(person)?,
    })
}

pub(crate) fn decline(vac: u32, person: u32) -> Option<Cmd> {
    Some(Cmd::Decline {
        vac: of_vacancy(vac)?,
        person: of_person(person)?,
    })
}

pub(crate) fn annul(vac: u32) -> Option<Cmd> {
    Some(Cmd::Annul {
        vac: of_vacancy(vac)?,
    })
}

/// An offer to this person, who stands first on board P1.
pub(crate) fn offered(person: u32) -> Option<Reply> {
    Some(Reply::Offered {
        person: of_person(person)?,
        board: Code::read(b"P1")?,
        position: 1,
    })
}

// The entry, which refers to its statement.
pub(crate) fn ref_of(entry: &Entry) -> EntryRef<'_> {
    EntryRef::new(
        entry.caller(),
        entry.stated(),
        entry.moment(),
        entry.reply(),
    )
}
