//! A book of a few entries, and one that is full.
use call_history::{Book, Full};
use desk_base::{Code, Minute, Month, Window};
use desk_model::{Booked, Cmd, Edition, Entry, Opening, Reply, Stated};
use plain_core::PlainCore;
use std::alloc::Global;
use std::test::Fail;

fn opening() -> Option<Opening> {
    let window = Window::new(Month::read(b"2024-03")?, 1)?;
    let start = Minute::read(b"2024-03-04 00:00")?;
    Opening::new(start, window, 15, Edition::One)
}

// The book of a new desk that has so many steps.
fn book(alloc: Global, steps: u64) -> Result<Book<PlainCore>, Fail> {
    let opening = opening().ok_or("no opening")?;
    if steps > 10 {
        return Err(Fail::from("more steps than ten"));
    }
    Ok(Book::new(alloc, PlainCore::new(alloc, opening, steps)?)?)
}

// Who is asked for at a place of the board P1, at 00:01.
fn look(place: u16) -> Option<Stated> {
    let board = Code::read(b"P1")?;
    Stated::new(Minute::read(b"2024-03-04 00:01")?, Cmd::At { board, place })
}

// The board P1 at HOM, made at 00:02.
fn board() -> Option<Stated> {
    let made = Cmd::Board {
        board: Code::read(b"P1")?,
        extra: false,
        place: Code::read(b"HOM")?,
    };
    Stated::new(Minute::read(b"2024-03-04 00:02")?, made)
}

#[test]
fn a_book_that_fills(rt: HostRuntime) -> Result<(), Fail> {
    let mut book = book(rt.alloc(), 2)?;
    let board_is = Code::read(b"P1").ok_or("no code")?;
    assert_eq!(rt; (book.count(), book.left()), (0, 2));
    let first = book
        .step(1, look(1).ok_or("no command")?)
        .map(|entry| (entry.caller(), entry.reply()));
    assert_eq!(rt; first, Ok((1, Reply::UnknownBoard(board_is))));
    let second = book
        .step(2, board().ok_or("no command")?)
        .map(|entry| (entry.caller(), entry.reply()));
    assert_eq!(rt; second, Ok((2, Reply::Done)));
    assert_eq!(rt; (book.count(), book.left()), (2, 0));
    let third = book
        .step(1, look(1).ok_or("no command")?)
        .map(|entry| (entry.caller(), entry.reply()));
    assert_eq!(rt; third, Err(Full));
    assert_eq!(rt; (book.count(), book.left()), (2, 0));
    let [first, second] = book.entries() else {
        return Err(Fail::from("not two entries"));
    };
    assert_eq!(rt; first.reply(), Reply::UnknownBoard(board_is));
    assert_eq!(rt; second.reply(), Reply::Done);
    Ok(())
}

// What a test compares of an entry: who stated when, at which moment it was taken, and the reply.
fn told(entry: &Entry) -> (u8, Minute, Minute, Reply) {
    (
        entry.caller(),
        entry.stated().minute(),
        entry.moment(),
        entry.reply(),
    )
}

#[test]
fn a_list_of_three_callers_is_their_commands_one_by_one(rt: HostRuntime) -> Result<(), Fail> {
    let mut singly = book(rt.alloc(), 6)?;
    let mut listed = book(rt.alloc(), 6)?;
    let asks = look(1).ok_or("no command")?;
    let makes = board().ok_or("no command")?;
    let commands = [(1, asks), (0, makes), (63, asks), (1, makes)];
    let list = &commands[..];
    for (caller, stated) in list {
        assert!(rt; singly.step(*caller, *stated).is_ok());
    }
    if listed.left() < 6 {
        return Err(Fail::from("no room for six"));
    }
    listed.step_all(list);
    assert_eq!(rt; (listed.count(), listed.left()), (4, 2));
    for (one, other) in singly.entries().iter().zip(listed.entries()) {
        assert_eq!(rt; told(one), told(other));
    }
    let more = [asks, makes];
    listed.step_as(7, &more[..]);
    assert_eq!(rt; (listed.count(), listed.left()), (6, 0));
    let [first, second, third, .., last] = listed.entries() else {
        return Err(Fail::from("not six entries"));
    };
    let board_is = Code::read(b"P1").ok_or("no code")?;
    assert_eq!(rt;
        (first.caller(), first.reply()),
        (1, Reply::UnknownBoard(board_is))
    );
    assert_eq!(rt; (second.caller(), second.reply()), (0, Reply::Done));
    assert_eq!(rt; third.caller(), 63);
    assert_eq!(rt; (last.caller(), last.reply()), (7, Reply::Used));
    Ok(())
}
