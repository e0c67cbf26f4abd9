//! What is refused leaves nothing to do.
use super::commands::{accept, decline, duty, job, next, offered, place, withdraw};
use super::told::{Told, Turn};
use desk_model::{Edition, Reply};
use qualifications::Craft;
use std::test::Fail;

#[test]
fn what_is_refused_leaves_nothing_to_do(rt: HostRuntime) -> Result<(), Fail> {
    let turns: [Turn; 18] = [
        (
            b"2024-01-01 00:04",
            place(1),
            Some(Reply::NoOne { length: 0 }),
        ),
        (
            b"2024-01-01 00:04",
            job(1, Craft::C, b"2024-01-01 01:54", 82, b"PC+XC", false),
            Some(Reply::Used),
        ),
        (
            b"2024-01-01 00:13",
            job(2, Craft::C, b"2024-01-01 01:35", 72, b"PC+XC", false),
            Some(Reply::Done),
        ),
        (
            b"2024-01-01 00:13",
            next(2),
            Some(Reply::Unfilled { listed: 0 }),
        ),
        (
            b"2024-01-01 00:13",
            job(3, Craft::E, b"2024-01-01 01:23", 155, b"PE+XE", false),
            Some(Reply::Done),
        ),
        (b"2024-01-01 00:13", next(3), offered(2)),
        (b"2024-01-01 00:13", accept(3, 2), Some(Reply::NoOffer)),
        (
            b"2024-01-01 00:18",
            job(4, Craft::C, b"2024-01-01 01:44", 150, b"PC+XC", false),
            Some(Reply::Done),
        ),
        (b"2024-01-01 00:18", next(4), offered(2)),
        (b"2024-01-01 00:18", withdraw(4, 2), Some(Reply::NoOffer)),
        (
            b"2024-01-01 00:26",
            job(5, Craft::E, b"2024-01-01 01:47", 148, b"PE+XE", false),
            Some(Reply::Done),
        ),
        (b"2024-01-01 00:26", next(5), offered(2)),
        (b"2024-01-01 00:26", decline(5, 2), Some(Reply::NoOffer)),
        (
            b"2024-01-01 00:34",
            job(6, Craft::C, b"2024-01-01 01:48", 102, b"PC+XC", false),
            Some(Reply::Done),
        ),
        (b"2024-01-01 00:34", next(6), offered(2)),
        (b"2024-01-01 00:34", accept(6, 2), Some(Reply::Done)),
        (
            b"2024-01-01 01:48",
            duty(2, b"2024-01-01 01:48"),
            Some(Reply::OutsideWindow),
        ),
        (
            b"2024-01-01 01:56",
            job(7, Craft::C, b"2024-01-01 03:31", 112, b"PC+XC", false),
            Some(Reply::Done),
        ),
    ];
    let mut day = Told::set_up(1, Edition::One);
    assert_eq!(rt; day.first_wrong(&turns)?, None);
    Ok(())
}
