//! How a generated day sets the desk up.
use super::commands::{at, board, enrol, list};
use super::told::Told;
use crate::{DayGen, Due, a_generated_day_grows};
use desk_base::{Minute, Month};
use desk_model::{Cmd, Edition, Reply, Stated};
use qualifications::Craft;
use std::test::Fail;

// The last of so many commands of a day, each of them done.
fn command(count: u32) -> Option<Stated> {
    let mut day = Told::new(5, Edition::One);
    let mut stated = None;
    for _ in 0..count {
        stated = day.turn(Reply::Done);
    }
    stated
}

#[test]
fn four_boards_and_thirty_persons(rt: HostRuntime) -> Result<(), Fail> {
    let commands: [(u32, Option<Cmd>); 12] = [
        (1, board(b"PE", false)),
        (2, board(b"PC", false)),
        (3, board(b"XE", true)),
        (4, board(b"XC", true)),
        (5, enrol(1, Craft::E)),
        (6, list(1, b"PE")),
        (7, enrol(2, Craft::C)),
        (8, list(2, b"PC")),
        (52, list(24, b"PC")),
        (53, enrol(25, Craft::E)),
        (54, list(25, b"XE")),
        (64, list(30, b"XC")),
    ];
    for (count, cmd) in commands {
        assert_eq!(rt; command(count), at(b"2024-01-01 00:00", cmd));
    }
    Ok(())
}

#[test]
fn a_generator_begins(rt: HostRuntime) -> Result<(), Fail> {
    a_generated_day_grows();
    let mut generator = DayGen::new(64, 0, Edition::Two);
    let opening = generator.opening();
    assert_eq!(rt; Some(opening.start()), Minute::read(b"2024-01-01 00:00"));
    assert_eq!(rt; Some(opening.window().first()), Month::read(b"2024-01"));
    assert_eq!(rt; opening.window().months(), 24);
    assert_eq!(rt; opening.answer(), 15);
    assert_eq!(rt; opening.edition(), Edition::Two);
    assert_eq!(rt;
        generator.next(Due::Nothing),
        at(b"2024-01-01 00:00", board(b"PE", false))
    );
    Ok(())
}
