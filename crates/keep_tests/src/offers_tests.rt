//! What is kept, entry by entry, of offers and declines worked by hand, and of as many offers as there is room for.
use crate::commands::{accept, annul, at, decline, next, of_person, of_vacancy, offered, ref_of};
use desk_base::Minute;
use desk_model::{Cmd, Entry, Reply, Stated};
use desk_register::{BoardIndex, PersonIndex};
use desk_state::Offers;
use offer_flight::InFlight;
use std::test::Fail;

// An entry of this command, taken then and answered so.
fn entry_of(cmd: Option<Cmd>, time: &[u8], reply: Option<Reply>) -> Option<Entry> {
    let stated = Stated::new(at(time)?, cmd?)?;
    Some(Entry::new(0, stated, at(time)?, reply?))
}

fn offer(vac: u32, person: u32) -> Option<Cmd> {
    Some(Cmd::Offer {
        vac: of_vacancy(vac)?,
        person: of_person(person)?,
    })
}

fn no_answer(vac: u32, person: u32) -> Option<Cmd> {
    Some(Cmd::NoAnswer {
        vac: of_vacancy(vac)?,
        person: of_person(person)?,
    })
}

fn withdraw(vac: u32, person: u32) -> Option<Cmd> {
    Some(Cmd::Withdraw {
        vac: of_vacancy(vac)?,
        person: of_person(person)?,
    })
}

// What is stated when and answered how, the place of who declines or of the board that is offered from, and what is seen then: the
// open offer of vacancy 12, and until when the second person is held by the second board.
#[derive(Drop)]
struct Step<'a> {
    cmd: Option<Cmd>,
    time: &'a [u8],
    reply: Option<Reply>,
    place: Option<usize>,
    offer: Option<InFlight>,
    held: Option<Minute>,
}

fn open(person: u32, board: usize, until: &[u8]) -> Option<InFlight> {
    Some(InFlight {
        person: of_person(person)?,
        vac: of_vacancy(12)?,
        board: BoardIndex::new(board)?,
        deadline: at(until)?,
    })
}

fn person_at(place: Option<usize>) -> Option<PersonIndex> {
    PersonIndex::new(place?)
}

fn board_at(place: Option<usize>) -> Option<BoardIndex> {
    BoardIndex::new(place?)
}

fn is_seen(offers: &Offers, step: &Step) -> Option<bool> {
    let offer = offers.offer(of_vacancy(12)?);
    Some(
        offer == step.offer
            && Some(offers.hold_end(PersonIndex::new(1)?, BoardIndex::new(1)?)) == step.held,
    )
}

// The place of the first step, from 0, after which something else is seen; `None` where none is.
fn first_wrong(offers: &mut Offers, steps: &[Step]) -> Result<Option<usize>, Fail> {
    for (i, step) in steps.iter().enumerate() {
        let entry = entry_of(step.cmd, step.time, step.reply).ok_or("not stated")?;
        offers.keep(&ref_of(&entry), person_at(step.place), board_at(step.place));
        if !is_seen(offers, step).ok_or("no numbers")? {
            return Ok(Some(i));
        }
    }
    Ok(None)
}

// A step after which vacancy 12 has no open offer, and the hold ends then.
fn closed<'a>(
    cmd: Option<Cmd>,
    time: &'a [u8],
    place: Option<usize>,
    held: Option<Minute>,
) -> Step<'a> {
    Step {
        cmd,
        time,
        reply: Some(Reply::Done),
        place,
        offer: None,
        held,
    }
}

// One that offers it to person 7.
fn offers_seven<'a>(
    cmd: Option<Cmd>,
    time: &'a [u8],
    board: usize,
    until: &[u8],
    held: Option<Minute>,
) -> Step<'a> {
    Step {
        cmd,
        time,
        reply: offered(7),
        place: Some(board),
        offer: open(7, board, until),
        held,
    }
}

#[test]
fn offers_open_and_end_and_a_decline_holds(rt: HostRuntime) -> Result<(), Fail> {
    let mut offers = Offers::new(rt.alloc(), 15)?;
    let never = Some(Minute::FIRST);
    let first = at(b"20:10");
    let last = at(b"22:20");
    let early = Step {
        reply: at(b"12:15").map(Reply::EarlyNoAnswer),
        ..offers_seven(no_answer(12, 7), b"12:05", 1, b"12:15", never)
    };
    let to_another = Step {
        reply: offered(101),
        place: Some(0),
        offer: open(101, 0, b"12:26"),
        ..closed(next(12), b"12:11", None, first)
    };
    let refused = Step {
        reply: Some(Reply::UnknownVacancy),
        offer: open(101, 0, b"12:26"),
        ..closed(annul(12), b"12:12", None, first)
    };
    let of_another = Step {
        reply: offered(7),
        ..closed(next(3), b"12:14", Some(0), first)
    };
    let steps = [
        offers_seven(next(12), b"12:00", 1, b"12:15", never),
        early,
        closed(decline(12, 7), b"12:10", Some(1), first),
        to_another,
        refused,
        closed(annul(12), b"12:13", None, first),
        of_another,
        closed(accept(3, 7), b"12:20", None, first),
        offers_seven(offer(12, 7), b"13:00", 1, b"13:15", first),
        closed(no_answer(12, 7), b"13:15", None, first),
        offers_seven(next(12), b"14:00", 0, b"14:15", first),
        // a hold by another board
        closed(decline(12, 7), b"14:01", Some(1), first),
        offers_seven(next(12), b"14:10", 1, b"14:25", first),
        closed(withdraw(12, 7), b"14:11", None, first),
        offers_seven(next(12), b"14:15", 1, b"14:30", first),
        closed(decline(12, 7), b"14:20", Some(1), last),
    ];
    assert_eq!(rt; first_wrong(&mut offers, &steps)?, None);
    Ok(())
}

// A thousand vacancies, each offered to a person of its number counted from behind; and one more.
#[test]
fn a_thousand_persons_have_offers(rt: HostRuntime) -> Result<(), Fail> {
    let mut offers = Offers::new(rt.alloc(), 60)?;
    for vac in 1..=1_001 {
        let entry = entry_of(next(vac), b"12:00", offered(1_002 - vac)).ok_or("no offer")?;
        offers.keep(&ref_of(&entry), None, BoardIndex::new(vac as usize % 64));
    }
    for vac in 1..=1_001 {
        let vacancy = of_vacancy(vac).ok_or("no number")?;
        let person = offers.offer(vacancy).map(|offer| offer.person);
        let wanted = if vac == 1_001 {
            None
        } else {
            of_person(1_002 - vac)
        };
        assert_eq!(rt; person, wanted);
        let entry = entry_of(decline(vac, 1_002 - vac), b"12:30", Some(Reply::Done)).ok_or(
            "no decline",
        )?;
        offers.keep(&ref_of(&entry), PersonIndex::new(vac as usize - 1), None);
        assert!(rt; offers.offer(vacancy).is_none());
    }
    for person in 0..1_000_usize {
        let index = PersonIndex::new(person).ok_or("no person")?;
        let next = BoardIndex::new((person + 1) % 64).ok_or("no board")?;
        let other = BoardIndex::new(person % 64).ok_or("no board")?;
        assert_eq!(rt; Some(offers.hold_end(index, next)), at(b"20:30"));
        assert_eq!(rt; offers.hold_end(index, other), Minute::FIRST);
    }
    Ok(())
}
