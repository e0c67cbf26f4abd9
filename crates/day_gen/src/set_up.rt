//! The commands that set the desk of a generated day up.
ghost use Rattle.std.specs.Prelude.{◌≡◌, ◌<◌, Some, slice_get};
ghost use Rattle.desk_base.specs.Code.{IsCode};
ghost use Rattle.day_gen.specs.SetUp.{HOME, pool_of, extra_of, craft_of, listed_on, sets_up_board, enrols_person, lists_person, join_command, set_up};
ghost use Rattle.day_gen.specs.Rules.{chain_of};

use crate::numbers::{POOL_PERSONS, SET_UP};
use desk_base::{Code, PersonNo};
use desk_model::{Chain, Cmd};
use qualifications::{Craft, Quals};

// The code of this text, which is one.
fn code(text: &[u8]) -> Code
    requires { IsCode text.now }
    ensures { result ≡ text.now }
{
    Code::read(text).unwrap()
}

/// The one place of a generated day.
pub(crate) fn home() -> Code
    ensures { result ≡ HOME }
{
    code(b"HOM")
}

/// The pool of a craft.
pub(crate) fn pool_of(craft: Craft) -> Code
    ensures { result ≡ pool_of craft }
{
    match craft {
        Craft::E => code(b"PE"),
        _ => code(b"PC"),
    }
}

// Its extra board.
fn extra_of(craft: Craft) -> Code
    ensures { result ≡ extra_of craft }
{
    match craft {
        Craft::E => code(b"XE"),
        _ => code(b"XC"),
    }
}

/// No qualifications.
pub(crate) fn no_quals() -> Quals
    ensures { result ≡ 0 }
{
    Quals::read(b"-").unwrap()
}

// A board of a generated day is set up.
fn set_up_board(board: Code, extra: bool) -> Cmd
    ensures { result ≡ sets_up_board board extra }
{
    Cmd::Board {
        board,
        extra,
        place: home(),
    }
}

// The craft of the person of this number.
fn craft_of(person: u32) -> Craft
    ensures { result ≡ craft_of person }
{
    if person % 2 == 1 { Craft::E } else { Craft::C }
}

// The board that the person is listed on.
fn listed_on(person: u32) -> Code
    ensures { result ≡ listed_on person }
{
    let craft = craft_of(person);
    if person <= POOL_PERSONS {
        pool_of(craft)
    } else {
        extra_of(craft)
    }
}

// A person of a generated day is enrolled.
fn enrol(person: PersonNo) -> Cmd
    ensures { result ≡ enrols_person person }
{
    Cmd::Enrol {
        person,
        craft: craft_of(person.number()),
        home: home(),
        quals: no_quals(),
    }
}

// The person is listed.
fn list(person: PersonNo) -> Cmd
    ensures { result ≡ lists_person person }
{
    Cmd::List {
        person,
        board: listed_on(person.number()),
    }
}

// A person joins: first they are enrolled, and then listed.
fn join(person: PersonNo, first: bool) -> Cmd
    ensures { result ≡ join_command person first }
{
    if first { enrol(person) } else { list(person) }
}

/// The command at this index, from 0, of those that set the desk up.
pub(crate) fn set_up_command(place: u32) -> Cmd
    requires { place < SET_UP }
    ensures { slice_get set_up place ≡ Some result }
{
    match place {
        0 => set_up_board(pool_of(Craft::E), false),
        1 => set_up_board(pool_of(Craft::C), false),
        2 => set_up_board(extra_of(Craft::E), true),
        3 => set_up_board(extra_of(Craft::C), true),
        _ => join(PersonNo::new(place / 2 - 1).unwrap(), place % 2 == 0),
    }
}

/// The boards from which a vacancy of a craft is filled: its pool, and then its extra board.
pub(crate) fn chain_of(craft: Craft) -> Chain
    ensures { result ≡ chain_of craft }
{
    Chain::of(pool_of(craft)).with(extra_of(craft)).unwrap()
}
