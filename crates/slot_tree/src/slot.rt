use desk_base::{Minute, PersonNo};

/// What fills a slot: a person, and the minute from which the person is ready.
#[derive(Clone, Copy, Debug, PartialEq, Eq)]
pub struct Slot {
    pub person: PersonNo,
    pub ready: Minute,
}
