//! Open offers beside a plain list of them, by operations that are drawn, and up to the last for which there is room.
use crate::given::Draws;
use desk_base::{Minute, PersonNo, VacNo};
use desk_register::BoardIndex;
use offer_flight::{Flight, InFlight, OFFERS};
use std::test::Fail;

fn offer(person: u32, vac: u32, board: usize) -> Option<InFlight> {
    Some(InFlight {
        person: PersonNo::new(person)?,
        vac: VacNo::new(vac)?,
        board: BoardIndex::new(board)?,
        deadline: Minute::new(u64::from(vac) + 15)?,
    })
}

// Opens an offer where that may be, and says whether it did.
fn start(flight: &mut Flight, made: &InFlight) -> bool {
    if flight.of_vacancy(made.vac).is_some() || flight.of_person(made.person).is_some() {
        return false;
    }
    if flight.count() >= OFFERS {
        return false;
    }
    flight.start(*made);
    true
}

// An offer of one of 60 vacancies to one of 40 persons.
fn drawn_offer(draws: &mut Draws) -> Option<InFlight> {
    let person = draws.below(40).saturating_add(1);
    let vac = draws.below(60).saturating_add(1);
    let board = if person < vac { 1 } else { 2 };
    offer(person, vac, board)
}

#[test]
fn offers_that_are_drawn(rt: HostRuntime) -> Result<(), Fail> {
    let mut draws = Draws { state: 1 };
    let mut flight = Flight::new(rt.alloc())?;
    let mut plain: Vec<InFlight> = Vec::new(rt.alloc());
    let mut most = 0;
    for _ in 0..4_000 {
        let made = drawn_offer(&mut draws).ok_or("no offer")?;
        let of_vacancy = plain.iter().find(|one| one.vac == made.vac).copied();
        if draws.below(5) < 3 {
            let idle = !plain.iter().any(|one| one.person == made.person);
            assert_eq!(rt; start(&mut flight, &made), idle && of_vacancy.is_none());
            if idle && of_vacancy.is_none() {
                plain.push(made)?;
            }
        } else {
            plain.retain(|one| one.vac != made.vac);
            assert_eq!(rt; flight.finish(made.vac), of_vacancy);
        }
        most = plain.len().max(most);
        let asked = drawn_offer(&mut draws).ok_or("no offer")?;
        let of_vacancy = plain.iter().find(|one| one.vac == asked.vac).copied();
        let of_person = plain.iter().find(|one| one.person == asked.person).copied();
        assert_eq!(rt; flight.of_vacancy(asked.vac), of_vacancy);
        assert_eq!(rt; flight.of_person(asked.person), of_person);
        assert_eq!(rt; flight.count(), plain.len());
    }
    assert!(rt; most > 20);
    Ok(())
}

// A thousand offers, each to a person of the vacancy's number counted from behind; and one more.
#[test]
fn as_many_as_there_is_room_for(rt: HostRuntime) -> Result<(), Fail> {
    let mut flight = Flight::new(rt.alloc())?;
    for vac in 1..1_001 {
        let made = offer(1_001 - vac, vac, 0).ok_or("no offer")?;
        assert!(rt; start(&mut flight, &made));
    }
    let more = offer(2_000, 2_000, 0).ok_or("no offer")?;
    assert!(rt; !start(&mut flight, &more));
    assert_eq!(rt; flight.count(), 1_000);
    let mut copy = flight.copy(rt.alloc())?;
    for vac in 1..1_001 {
        let made = offer(1_001 - vac, vac, 0);
        assert_eq!(rt; flight.finish(VacNo::new(vac).ok_or("no vacancy")?), made);
    }
    assert_eq!(rt; flight.count(), 0);
    // the copy still has them, and the same room
    let first = offer(1_000, 1, 0).ok_or("no offer")?;
    assert_eq!(rt; copy.of_person(first.person), Some(first));
    assert_eq!(rt; copy.finish(first.vac), Some(first));
    assert!(rt; start(&mut copy, &more));
    assert_eq!(rt; copy.count(), 1_000);
    Ok(())
}
