//! Two callers at one desk.
ghost use Rattle.std.specs.Prelude.{IfSome};
ghost use Rattle.std.specs.List.{All};
ghost use Rattle.turn_gate.specs.Seats.{IsSeatOf};

use call_history::{Book, Full};
use desk_base::{Code, Minute, Month, Window};
use desk_model::{Booked, Cmd, Edition, Opening, Reply, Stated};
use desk_shared::{Called, Desk, SeatSpent};
use plain_core::PlainCore;
use std::alloc::Global;
use std::sync::Wait;
use std::test::Fail;
use turn_gate::Seat;

fn opening() -> Option<Opening> {
    let window = Window::new(Month::read(b"2024-03")?, 1)?;
    let start = Minute::read(b"2024-03-04 00:00")?;
    Opening::new(start, window, 15, Edition::One)
}

type Plain = Book<PlainCore>;

// A desk of two callers, with one call of each.
fn open(alloc: Global) -> Option<(Desk<PlainCore>, Vec<Seat<Plain>>)>
    ensures { IfSome result (λ made. All (IsSeatOf made.0) made.1.items) }
{
    let core = PlainCore::new(alloc, opening()?, 2).ok()?;
    let book = Book::new(alloc, core).ok()?;
    Desk::new(alloc, book, 2, 1).ok()
}

// Who is asked for at the first place of the board P1, at 00:01.
fn look() -> Option<Stated> {
    let board = Code::read(b"P1")?;
    let minute = Minute::read(b"2024-03-04 00:01")?;
    Stated::new(minute, Cmd::At { board, place: 1 })
}

// A look's place, its caller and the reply; `None` where the seat is spent.
type Told = Option<(u32, u8, Reply)>;

// A look by a seat.
fn look_by<R: Wait>(
    rt: &R,
    desk: &Desk<PlainCore>,
    seat: Seat<Plain>,
    look: Stated,
) -> (Told, Seat<Plain>)
    requires { IsSeatOf desk.now seat }
    ensures { IsSeatOf desk.now result.1 }
{
    let Called { seat, outcome } = desk.call(rt, seat, look);
    let told = match outcome {
        Ok(receipt) => Some((receipt.place, receipt.entry.caller(), receipt.entry.reply())),
        Err(SeatSpent) => None,
    };
    (told, seat)
}

// One seat more. There is room for it.
fn put(
    desk: &Desk<PlainCore>,
    seats: Vec<Seat<Plain>>,
    seat: Seat<Plain>,
) -> Option<Vec<Seat<Plain>>>
    requires seats { All (IsSeatOf desk.now) seats.items }
    requires seat { IsSeatOf desk.now seat }
    ensures { IfSome result (λ all. All (IsSeatOf desk.now) all.items) }
{
    let _ = desk;
    let mut seats = seats;
    match seats.push(seat) {
        Ok(()) => Some(seats),
        Err(_) => None,
    }
}

#[test]
fn desk_of_two_seats(rt: HostRuntime) -> Result<(), Fail> {
    let look = look().ok_or("no command")?;
    let unknown = Reply::UnknownBoard(Code::read(b"P1").ok_or("no code")?);
    let (desk, mut seats) = open(rt.alloc()).ok_or("no desk")?;
    let (Some(two), Some(one)) = (seats.pop(), seats.pop()) else {
        panic!(rt; "two seats are wanted")
    };
    let (told, one) = look_by(&rt, &desk, one, look);
    assert_eq!(rt; told, Some((0, 1, unknown)));
    let (told, one) = look_by(&rt, &desk, one, look);
    assert_eq!(rt; (told, desk.left(&one)), (None, 0));
    let (told, two) = look_by(&rt, &desk, two, look);
    assert_eq!(rt; told, Some((1, 2, unknown)));
    let Some(seats) = put(&desk, Vec::new(rt.alloc()), one) else {
        panic!(rt; "there was room")
    };
    let (desk, seats) = match desk.close(seats) {
        Ok(_) => panic!(rt; "seat 2 is missing"),
        Err(missing) => (missing.desk, missing.seats),
    };
    assert_eq!(rt; seats.len(), 1);
    let Some(seats) = put(&desk, seats, two) else {
        panic!(rt; "there was room")
    };
    let Ok(mut book) = desk.close(seats) else {
        panic!(rt; "both seats were given")
    };
    assert_eq!(rt; (book.count(), book.left()), (2, 0));
    assert_eq!(rt; book.step(1, look).err(), Some(Full));
    assert_eq!(rt; book.count(), 2);
    Ok(())
}
