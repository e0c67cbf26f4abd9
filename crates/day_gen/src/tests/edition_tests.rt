//! Days from number 0, of either edition.
use super::commands::{accept, decline, duty, hours, job, next, offered, place, release};
use super::told::{Told, Turn};
use desk_model::{Edition, Reply};
use qualifications::Craft;
use std::test::Fail;

// What both begin with: a question, and a job that is filled and worked.
fn a_first_job() -> [Turn; 6] {
    [
        (
            b"2024-01-01 00:07",
            hours(8),
            Some(Reply::Hours { used: 0, capped: 0 }),
        ),
        (
            b"2024-01-01 00:13",
            job(1, Craft::C, b"2024-01-01 01:57", 155, b"PC+XC", false),
            Some(Reply::Done),
        ),
        (b"2024-01-01 00:13", next(1), offered(2)),
        (b"2024-01-01 00:13", accept(1, 2), Some(Reply::Done)),
        (
            b"2024-01-01 01:57",
            duty(2, b"2024-01-01 01:57"),
            Some(Reply::Done),
        ),
        (
            b"2024-01-01 04:32",
            release(2, b"2024-01-01 04:32"),
            Some(Reply::Done),
        ),
    ]
}

#[test]
fn a_day_of_the_second_edition_from_0(rt: HostRuntime) -> Result<(), Fail> {
    let turns: [Turn; 10] = [
        (
            b"2024-01-01 04:41",
            job(2, Craft::E, b"2024-01-01 06:23", 806, b"PE+XE", true),
            Some(Reply::Done),
        ),
        (b"2024-01-01 04:41", next(2), offered(2)),
        (b"2024-01-01 04:41", accept(2, 2), Some(Reply::Done)),
        (
            b"2024-01-01 06:23",
            duty(2, b"2024-01-01 06:23"),
            Some(Reply::Done),
        ),
        (
            b"2024-01-01 19:49",
            release(2, b"2024-01-01 19:49"),
            Some(Reply::Done),
        ),
        (
            b"2024-01-01 19:51",
            place(7),
            Some(Reply::NoOne { length: 0 }),
        ),
        (
            b"2024-01-01 19:52",
            job(3, Craft::E, b"2024-01-01 21:21", 67, b"PE+XE", false),
            Some(Reply::Done),
        ),
        (b"2024-01-01 19:52", next(3), offered(2)),
        (b"2024-01-01 19:52", decline(3, 2), Some(Reply::Done)),
        (b"2024-01-01 19:52", next(3), offered(2)),
    ];
    let mut day = Told::set_up(0, Edition::Two);
    assert_eq!(rt; day.first_wrong(&a_first_job())?, None);
    assert_eq!(rt; day.first_wrong(&turns)?, None);
    Ok(())
}

#[test]
fn the_first_edition_has_no_relief(rt: HostRuntime) -> Result<(), Fail> {
    let turns: [Turn; 1] = [(
        b"2024-01-01 04:41",
        job(2, Craft::E, b"2024-01-01 06:23", 145, b"PE+XE", false),
        Some(Reply::Done),
    )];
    let mut day = Told::set_up(0, Edition::One);
    assert_eq!(rt; day.first_wrong(&a_first_job())?, None);
    assert_eq!(rt; day.first_wrong(&turns)?, None);
    Ok(())
}
