//! Crew calls at a desk with windows, and seats that have too few calls left for one.
ghost use Rattle.std.specs.Prelude.{◌≤◌};

use super::desks::{close, open, stated, take_last};
use crew_call::CrewOutcome;
use desk_base::{Minute, PersonNo, VacNo};
use desk_model::{Booked, Reply};
use desk_shared::{CrewCalled, TooFew};
use std::alloc::Global;
use std::process::Abort;
use std::sync::Wait;
use std::test::Fail;

// An engineer on P1, and vacancies for an engineer and for a conductor.
const ONE: [&[u8]; 5] = [
    b"2024-03-04 00:01,board,P1,pool,HOM",
    b"2024-03-04 00:01,enrol,101,E,HOM,-",
    b"2024-03-04 00:02,list,101,P1",
    b"2024-03-04 00:03,vacancy,1,E,-,HOM,2024-03-04 08:00,600,0,P1",
    b"2024-03-04 00:03,vacancy,2,C,-,HOM,2024-03-04 08:00,600,0,P1",
];

// What comes of a crew call of these vacancies by a seat that has so many calls; how many entries the book has then, how many of them are
// the call's, and how many of them are shown.
fn crew<R: Wait + Abort>(
    rt: &R,
    alloc: Global,
    quota: u32,
    first: u32,
    second: u32,
) -> Option<(Result<CrewOutcome, TooFew>, u32, usize, Option<u32>)>
    requires { 1 ≤ quota }
{
    let minute = Minute::read(b"2024-03-04 00:04")?;
    if !minute.is_in_years() {
        return None;
    }
    let first = VacNo::new(first)?;
    let second = VacNo::new(second)?;
    let setup = stated(alloc, &ONE)?;
    let (desk, mut seats, _views) = open(rt, alloc, &setup, 1, quota)?;
    let Some(seat) = take_last(&desk, &mut seats) else {
        panic!(rt; "one seat is wanted")
    };
    let CrewCalled {
        seat,
        entries,
        outcome,
        showing,
    } = desk.crew(rt, seat, minute, first, second);
    let shown = match showing {
        Some(showing) => Some(showing.note.count()),
        None => None,
    };
    let book = close(rt, desk, seats, seat);
    let count = entries.iter().filter(|entry| entry.is_some()).count();
    Some((outcome, book.count(), count, shown))
}

#[test]
fn a_crew_of_one_and_a_seat_with_two_calls(rt: HostRuntime) -> Result<(), Fail> {
    let alloc = rt.alloc();
    let vac = VacNo::new(2).ok_or("no number")?;
    let reply = Reply::Unfilled { listed: 1 };
    let neither = CrewOutcome::Neither { vac, reply };
    assert_eq!(rt;
        crew(&rt, alloc, 3, 1, 2),
        Some((Ok(neither), 8, 3, Some(8)))
    );
    let vac = VacNo::new(7).ok_or("no number")?;
    let reply = Reply::UnknownVacancy;
    let unknown = CrewOutcome::Neither { vac, reply };
    assert_eq!(rt;
        crew(&rt, alloc, 3, 7, 1),
        Some((Ok(unknown), 6, 1, Some(6)))
    );
    let few = TooFew { left: 2 };
    assert_eq!(rt; crew(&rt, alloc, 2, 1, 2), Some((Err(few), 5, 0, None)));
    Ok(())
}
