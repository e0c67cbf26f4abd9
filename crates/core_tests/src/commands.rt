//! Commands that the cases state, and what a desk answers to one.
use desk_base::{Code, Minute, PersonNo};
use desk_model::{Cmd, DeskCore, Reply, Stated};
use qualifications::{Craft, Quals};

/// What is stated, where there are a minute and a command.
pub fn stated(minute: Option<Minute>, cmd: Option<Cmd>) -> Option<Stated> {
    match (minute, cmd) {
        (Some(minute), Some(cmd)) => Stated::new(minute, cmd),
        _ => None,
    }
}

/// The moment and the answer; `None` where no step is left.
pub fn take<C: DeskCore>(
    core: &mut C,
    minute: Option<Minute>,
    cmd: Option<Cmd>,
) -> Option<(Minute, Reply)> {
    let stated = Stated::new(minute?, cmd?)?;
    if core.left() == 0 {
        return None;
    }
    let entry = core.step(0, stated);
    Some((entry.moment(), entry.reply()))
}

/// An engineer of HOM is enrolled.
pub fn enrol(person: u32) -> Option<Cmd> {
    Some(Cmd::Enrol {
        person: PersonNo::new(person)?,
        craft: Craft::E,
        home: Code::read(b"HOM")?,
        quals: Quals::read(b"-")?,
    })
}

/// A board is made at a place.
pub fn set_up(board: &[u8], extra: bool, place: &[u8]) -> Option<Cmd> {
    Some(Cmd::Board {
        board: Code::read(board)?,
        extra,
        place: Code::read(place)?,
    })
}

/// A person is listed on a board.
pub fn list(person: u32, board: &[u8]) -> Option<Cmd> {
    Some(Cmd::List {
        person: PersonNo::new(person)?,
        board: Code::read(board)?,
    })
}
