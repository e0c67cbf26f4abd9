//! A desk that looks up beside one that searches all that was stated.
use crate::commands::{enrol, list, set_up, take};
use desk_base::{Code, Minute, Month, PersonNo, VacNo, Window};
use desk_model::{Chain, Cmd, DeskCore, Edition, Job, Opening, Reply};
use fast_core::FastCore;
use qualifications::{Craft, Quals};
use std::test::Fail;

mod copies;
mod days;
mod drawn;
mod draws;
mod forecasts;
mod kinds;

// The minute of a time of the day, 14 March 2024.
fn at(time: &[u8]) -> Option<Minute> {
    let mut text = *b"2024-03-14 00:00";
    if time.len() != 5 {
        return None;
    }
    text[11..].copy_from_slice(time);
    Minute::read(&text)
}

// A desk's opening on that day with 15 minutes to answer.
fn opening(edition: Edition) -> Option<Opening> {
    let window = Window::new(Month::read(b"2024-03")?, 3)?;
    Opening::new(at(b"00:00")?, window, 15, edition)
}

// A job for an engineer at HOM at eight, of ten hours, from the pool P1.
fn vacancy(vac: u32) -> Option<Cmd> {
    let job = Job::new(
        VacNo::new(vac)?,
        Craft::E,
        Quals::read(b"-")?,
        Code::read(b"HOM")?,
        at(b"08:00")?,
        600,
        0,
        Chain::read(b"P1")?,
        false,
    )?;
    Some(Cmd::Vacancy(job))
}

#[test]
fn no_room_for_entries(rt: HostRuntime) -> Result<(), Fail> {
    let opening = opening(Edition::One).ok_or("no opening")?;
    let mut core = FastCore::new(rt.alloc(), opening, u64::MAX)?;
    let offered = Reply::Offered {
        person: PersonNo::new(101).ok_or("nobody")?,
        board: Code::read(b"P1").ok_or("no board")?,
        position: 1,
    };
    let next = VacNo::new(12).map(|vac| Cmd::Next { vac });
    let steps: [(&[u8], Option<Cmd>, Reply); 5] = [
        (b"00:01", enrol(101), Reply::Done),
        (b"00:01", set_up(b"P1", false, b"HOM"), Reply::Done),
        (b"00:02", list(101, b"P1"), Reply::Done),
        (b"00:03", vacancy(12), Reply::Done),
        (b"00:04", next, offered),
    ];
    for (time, cmd, reply) in steps {
        let expected = at(time).map(|moment| (moment, reply));
        assert!(rt; take(&mut core, at(time), cmd) == expected);
    }
    assert!(rt; core.left() == u64::MAX - 5);
    Ok(())
}
