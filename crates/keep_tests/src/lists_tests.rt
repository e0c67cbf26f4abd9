//! The boards of two persons, by a day worked by hand.
use crate::commands::ref_of;
use desk_base::{Code, Minute, PersonNo, VacNo};
use desk_model::{Cmd, Entry, Reply, Stated};
use desk_register::{BoardIndex, PersonIndex};
use desk_state::{Lists, NEVER, NamedIndexes};
use duty_events::Event;
use std::test::Fail;

fn noon() -> Option<Minute> {
    Minute::read(b"2024-03-04 12:00")
}

// Person 7 is at place 0 among all, and person 3 at place 1.
fn person_at(place: usize) -> Option<PersonNo> {
    PersonNo::new(if place == 0 { 7 } else { 3 })
}

// Pool P1 at HOM is at place 0 among all boards, and extra board X1 at AWY at place 1.
fn board_at(place: usize) -> Option<Code> {
    Code::read(if place == 0 { b"P1" } else { b"X1" })
}

fn home_of(place: usize) -> Option<Code> {
    Code::read(if place == 0 { b"HOM" } else { b"AWY" })
}

// What is stated.
#[derive(Clone, Copy)]
enum Act {
    SetUp,
    List,
    Unlist,
    MarkOn,
    Decline,
    Past,
    Report,
    // a final release at the place of X1
    Release,
}

// An event of whom it is told.
fn event_of(act: Act) -> Option<Event> {
    match act {
        Act::Release => Some(Event::Final(noon()?, home_of(1)?)),
        _ => Some(Event::Duty(noon()?)),
    }
}

// The command that states it of this person and this board.
fn cmd_of(act: Act, who: usize, board: usize) -> Option<Cmd> {
    let person = person_at(who)?;
    let code = board_at(board)?;
    let event = event_of(act)?;
    Some(match act {
        Act::SetUp => Cmd::Board {
            board: code,
            extra: board == 1,
            place: home_of(board)?,
        },
        Act::List => Cmd::List {
            person,
            board: code,
        },
        Act::Unlist => Cmd::Unlist {
            person,
            board: code,
        },
        Act::MarkOn => Cmd::MarkOn { person },
        Act::Decline => Cmd::Decline {
            vac: VacNo::new(12)?,
            person,
        },
        Act::Past => Cmd::Past { person, event },
        Act::Report | Act::Release => Cmd::Happened { person, event },
    })
}

// What is stated, of which person and board, by their places, how it is answered, and the minute from which the person is
// ready then.
#[derive(Clone, Copy)]
struct Told {
    act: Act,
    who: usize,
    board: usize,
    reply: Reply,
    ready: u64,
}

// An entry of this command, answered so.
fn entry_of(cmd: Option<Cmd>, reply: Reply) -> Option<Entry> {
    let stated = Stated::new(noon()?, cmd?)?;
    Some(Entry::new(0, stated, noon()?, reply))
}

// The lists keep it; whether there is such a command.
fn keep(lists: &mut Lists, told: Told) -> Option<()> {
    let entry = entry_of(cmd_of(told.act, told.who, told.board), told.reply)?;
    let named = NamedIndexes {
        person: PersonIndex::new(told.who),
        board: BoardIndex::new(told.board),
        ready: Minute::new(told.ready)?,
    };
    lists.keep(&ref_of(&entry), &named);
    Some(())
}

// Who stands on each board, 0 where nobody does; on how many boards a person is, and the minute from which they are ready
// on P1.
#[derive(Clone, Copy, PartialEq)]
struct Seen {
    members: [[u32; 2]; 2],
    count: usize,
    ready: Option<u64>,
}

fn number_at(lists: &Lists, board: usize, place: u16) -> u32 {
    let Some(board) = BoardIndex::new(board) else {
        return 0;
    };
    match lists.member_at(board, place) {
        Some(person) => person.number(),
        None => 0,
    }
}

fn ready_on_first(lists: &Lists, who: usize) -> Option<u64> {
    let place = lists.position(person_at(who)?, BoardIndex::new(0)?)?;
    let slots = lists.boards().get(0)?.slots();
    Some(slots.at(slots.nth(u32::from(place))?)?.ready.number())
}

fn look(lists: &Lists, who: usize) -> Seen {
    let one = [number_at(lists, 0, 1), number_at(lists, 0, 2)];
    let two = [number_at(lists, 1, 1), number_at(lists, 1, 2)];
    Seen {
        members: [one, two],
        count: PersonIndex::new(who).map_or(0, |who| lists.list_count(who)),
        ready: ready_on_first(lists, who),
    }
}

// What is stated of which person and board, by their places; when the person is ready then; and who stands on each board
// then, on how many boards the person is, and when they are ready on P1.
type Row = (Act, usize, usize, u64, [[u32; 2]; 2], usize, Option<u64>);

const DAY: [Row; 13] = [
    (Act::SetUp, 0, 0, 500, [[0, 0], [0, 0]], 0, None),
    (Act::SetUp, 0, 1, 500, [[0, 0], [0, 0]], 0, None),
    (Act::List, 0, 0, 500, [[7, 0], [0, 0]], 1, Some(500)),
    (Act::List, 1, 0, 500, [[7, 3], [0, 0]], 1, Some(500)),
    (Act::List, 0, 1, 500, [[7, 3], [7, 0]], 2, Some(500)),
    (Act::List, 1, 1, 500, [[7, 3], [7, 3]], 2, Some(500)),
    (Act::MarkOn, 0, 0, 500, [[3, 7], [3, 7]], 2, Some(500)),
    (Act::Report, 1, 0, NEVER, [[3, 7], [3, 7]], 2, Some(NEVER)),
    (Act::Release, 1, 0, 2_000, [[3, 7], [7, 3]], 2, Some(2_000)),
    (Act::MarkOn, 0, 0, 500, [[3, 7], [3, 7]], 2, Some(500)),
    (Act::Decline, 1, 0, 2_000, [[7, 3], [3, 7]], 2, Some(2_000)),
    (Act::Past, 0, 0, NEVER, [[7, 3], [3, 7]], 2, Some(NEVER)),
    (Act::Unlist, 0, 0, NEVER, [[3, 0], [3, 7]], 1, None),
];

// The place of the first row, from 0, after which something else is seen; `None` where none is.
fn first_wrong(lists: &mut Lists, rows: &[Row]) -> Result<Option<usize>, Fail> {
    for (i, (act, who, board, ready, members, count, on_first)) in rows.iter().enumerate() {
        let told = Told {
            act: *act,
            who: *who,
            board: *board,
            reply: Reply::Done,
            ready: *ready,
        };
        keep(lists, told).ok_or("not stated")?;
        let wanted = Seen {
            members: *members,
            count: *count,
            ready: *on_first,
        };
        if look(lists, *who) != wanted {
            return Ok(Some(i));
        }
    }
    Ok(None)
}

#[test]
fn two_persons_move_on_two_boards(rt: HostRuntime) -> Result<(), Fail> {
    let mut lists = Lists::new(rt.alloc())?;
    assert_eq!(rt; first_wrong(&mut lists, &DAY)?, None);
    let pool = BoardIndex::new(0).ok_or("no board")?;
    let extra = BoardIndex::new(1).ok_or("no board")?;
    let first = PersonIndex::new(0).ok_or("no person")?;
    assert_eq!(rt; lists.member_count(pool), 1);
    assert_eq!(rt; lists.is_on(first, pool), false);
    assert_eq!(rt; lists.is_on(first, extra), true);
    let refused = Told {
        act: Act::Unlist,
        who: 1,
        board: 0,
        reply: Reply::OutsideWindow,
        ready: 500,
    };
    keep(&mut lists, refused).ok_or("not stated")?;
    assert_eq!(rt; lists.member_count(pool), 1);
    Ok(())
}
