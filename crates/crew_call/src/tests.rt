//! What crew calls ask and come to, by entries that are made here.
use crate::{Crew, CrewOutcome};
use desk_base::{Code, Minute, PersonNo, VacNo};
use desk_model::{Cmd, Entry, Reply};
use std::test::Fail;

// An offer to this person, from the first place of P1.
fn offered(person: u32) -> Option<Reply> {
    let person = PersonNo::new(person)?;
    let board = Code::read(b"P1")?;
    Some(Reply::Offered {
        person,
        board,
        position: 1,
    })
}

// What is asked gets this reply; the command that was asked.
fn reply(crew: &mut Crew, at: Minute, reply: Reply) -> Option<Cmd> {
    match crew.ask() {
        Some(stated) => {
            crew.hear(&Entry::new(1, stated, at, reply));
            Some(*stated.cmd())
        }
        None => None,
    }
}

// A call of 1 and 2, of whom 1 is offered to 101, and 2 to nobody; the withdrawal gets this reply.
fn ends(at: Minute, last: Reply) -> Option<Crew> {
    if !at.is_in_years() {
        return None;
    }
    let vac = VacNo::new(1)?;
    let second = VacNo::new(2)?;
    let person = PersonNo::new(101)?;
    let offer = offered(101)?;
    let mut crew = Crew::new(at, vac, second);
    let first_asked = reply(&mut crew, at, offer)?;
    let second_asked = reply(&mut crew, at, Reply::Unfilled { listed: 1 })?;
    let open = crew.outcome().is_none();
    let last_asked = reply(&mut crew, at, last)?;
    let is_first = first_asked == Cmd::Next { vac };
    let is_second = second_asked == Cmd::Next { vac: second };
    let is_last = last_asked == Cmd::Withdraw { vac, person };
    if is_first && is_second && open && is_last {
        Some(crew)
    } else {
        None
    }
}

#[test]
fn what_the_last_reply_makes_of_the_first_offer(rt: HostRuntime) -> Result<(), Fail> {
    let at = Minute::read(b"2024-03-04 00:04").ok_or("no minute")?;
    let vac = VacNo::new(1).ok_or("no number")?;
    let person = PersonNo::new(101).ok_or("no number")?;
    let crew = ends(at, Reply::NoOffer).ok_or("another course")?;
    let between = CrewOutcome::Between { vac, person };
    assert_eq!(rt; (crew.ask(), crew.outcome()), (None, Some(between)));
    let vac = VacNo::new(2).ok_or("no number")?;
    let reply = Reply::Unfilled { listed: 1 };
    let crew = ends(at, Reply::Done).ok_or("another course")?;
    let neither = CrewOutcome::Neither { vac, reply };
    assert_eq!(rt; (crew.ask(), crew.outcome()), (None, Some(neither)));
    let [first, second, third] = crew.entries();
    assert!(rt; first.is_some() && second.is_some() && third.is_some());
    Ok(())
}
