//! A gate over a heap of entries that is not let go: its row, and threads that take turns.
ghost use Rattle.std.specs.Prelude.{◌≡◌, ◌*◌, ◌^◌, ◌<◌, ◌≤◌, IfSome};
ghost use Rattle.std.specs.List.{All};
ghost use Rattle.desk_model.specs.declared.limits.TheConstants.{LAST_CALLER};
ghost use Rattle.turn_gate.specs.Told.{end};
ghost use Rattle.turn_gate.specs.Seats.{IsSeatOf};

use pile::{Pile, empty};
use std::alloc::Global;
use std::process::Abort;
use std::sync::Wait;
use std::sync::atomic::AtomicU64;
use std::sync::atomic::Ordering::SeqCst;
use std::test::Fail;
use std::thread;
use std::thread::{Threads, join};
use turn_gate::{Gate, Seat};

mod pile;

// A gate with room for all turns of its seats.
fn open(alloc: Global, seats: u8, quota: u32) -> Option<(Gate<Pile>, Vec<Seat<Pile>>)>
    requires some { 1 ≤ seats }
    requires most { seats ≤ LAST_CALLER }
    requires calls { 1 ≤ quota }
    requires places { seats * quota < 2 ^ 32 }
    ensures { IfSome result (λ made. All (IsSeatOf made.0) made.1.items
        × (end made.0.start ≤ made.0.start.book.room)) }
{
    let pile = empty(alloc, u32::from(seats) * quota)?;
    match Gate::new(alloc, pile, seats, quota) {
        Ok(made) => Some(made),
        Err(pile) => {
            pile.into_callers(alloc);
            None
        }
    }
}

// One turn of a seat, with an entry of its number: its place, if the seat had a turn left.
fn one_turn<R: Wait>(rt: &R, gate: &Gate<Pile>, seat: Seat<Pile>) -> (Option<u32>, Seat<Pile>)
    requires seat { IsSeatOf gate.now seat }
    requires room { end gate.now.start ≤ gate.now.start.book.room }
    ensures { IsSeatOf gate.now result.1 }
{
    match gate.take(rt, seat) {
        Ok((turn, mut pile)) => {
            let place = turn.place();
            pile.add(turn.seat_no());
            (Some(place), gate.give(turn, pile))
        }
        Err(spent) => (None, spent.seat),
    }
}

// All turns of a seat.
fn all_turns<R: Wait>(rt: &R, gate: &Gate<Pile>, seat: Seat<Pile>) -> Seat<Pile>
    requires seat { IsSeatOf gate.now seat }
    requires room { end gate.now.start ≤ gate.now.start.book.room }
    ensures { IsSeatOf gate.now result }
{
    let mut seat = seat;
    for _ in 0..gate.left(&seat) {
        seat = one_turn(rt, gate, seat).1;
    }
    seat
}

// One seat more. There is room for it.
fn put(gate: &Gate<Pile>, seats: Vec<Seat<Pile>>, seat: Seat<Pile>) -> Option<Vec<Seat<Pile>>>
    requires seats { All (IsSeatOf gate.now) seats.items }
    requires seat { IsSeatOf gate.now seat }
    ensures { IfSome result (λ all. All (IsSeatOf gate.now) all.items) }
{
    let _ = gate;
    let mut seats = seats;
    match seats.push(seat) {
        Ok(()) => Some(seats),
        Err(_) => None,
    }
}

// All turns of these seats, each in a thread of its own.
fn in_threads<R: Threads + Wait + Sync>(
    rt: &R,
    gate: &Gate<Pile>,
    seats: Vec<Seat<Pile>>,
) -> Option<Vec<Seat<Pile>>>
    requires seats { All (IsSeatOf gate.now) seats.items }
    requires room { end gate.now.start ≤ gate.now.start.book.room }
    ensures { IfSome result (λ back. All (IsSeatOf gate.now) back.items) }
{
    let back = thread::map_vec(
        rt,
        seats,
        &|seat: Seat<Pile>| -> Seat<Pile>
            requires { IsSeatOf gate.now seat × (end gate.now.start ≤ gate.now.start.book.room) }
            ensures { IsSeatOf gate.entry.now result }
        { all_turns(rt, gate, seat) },
    );
    back.ok()
}

#[test]
fn gate_of_two_seats(rt: HostRuntime) -> Result<(), Fail> {
    let (gate, mut seats) = open(rt.alloc(), 2, 1).ok_or("no gate")?;
    let (Some(two), Some(one)) = (seats.pop(), seats.pop()) else {
        panic!(rt; "two seats are wanted")
    };
    assert_eq!(rt; (one.seat_no(), two.seat_no()), (1, 2));
    let (first, one) = one_turn(&rt, &gate, one);
    let (second, two) = one_turn(&rt, &gate, two);
    let (none, one) = one_turn(&rt, &gate, one);
    assert_eq!(rt; (first, second, none), (Some(0), Some(1), None));
    assert_eq!(rt; (one.seat_no(), gate.left(&one)), (1, 0));
    let Some(seats) = put(&gate, Vec::new(rt.alloc()), two) else {
        panic!(rt; "there was room")
    };
    let (gate, seats) = match gate.close(seats) {
        Ok(_) => panic!(rt; "seat 1 is missing"),
        Err(short) => (short.gate, short.seats),
    };
    assert_eq!(rt; seats.len(), 1);
    assert_eq!(rt; seats.first().map(|s| s.seat_no()), Some(2));
    let Some(seats) = put(&gate, seats, one) else {
        panic!(rt; "there was room")
    };
    match gate.close(seats) {
        Ok(pile) => assert!(rt; pile.into_callers(rt.alloc()) == Some(vec![in rt.alloc(); 1, 2]?)),
        Err(_) => panic!(rt; "both seats were given"),
    }
    Ok(())
}

// All turns of so many seats at once, and then the gate is closed. The callers of the book's entries, in order.
fn crowd<R: Threads + Wait + Abort + Sync>(
    rt: &R,
    alloc: Global,
    seats: u8,
    quota: u32,
) -> Option<Vec<u8>>
    requires some { 1 ≤ seats }
    requires most { seats ≤ LAST_CALLER }
    requires calls { 1 ≤ quota }
    requires places { seats * quota < 2 ^ 32 }
{
    let (gate, seats) = open(alloc, seats, quota)?;
    let Some(seats) = in_threads(rt, &gate, seats) else {
        panic!(rt; "memory for threads")
    };
    match gate.close(seats) {
        Ok(pile) => pile.into_callers(alloc),
        Err(_) => panic!(rt; "all seats were given"),
    }
}

// Works until it is told to stop.
fn toil<R: Wait>(rt: &R, stop: &AtomicU64) {
    for _ in rt.forever() {
        if stop.load(SeqCst) != 0 {
            return;
        }
    }
}

#[test]
fn threads_take_turns(rt: HostRuntime) -> Result<(), Fail> {
    let callers = crowd(&rt, rt.alloc(), 2, 100).ok_or("no memory")?;
    assert_eq!(rt; callers.len(), 200);
    for seat in [1, 2] {
        assert_eq!(rt; callers.iter().filter(|c| **c == seat).count(), 100);
    }
    let stop = AtomicU64::new(0);
    let (callers, _) = join(
        &rt,
        || {
            let callers = crowd(&rt, rt.alloc(), 4, 5_000);
            stop.store(1, SeqCst);
            callers
        },
        || thread::map_indices(&rt, rt.alloc(), 4, &|_| toil(&rt, &stop)),
    );
    let callers = callers.ok_or("no memory")?;
    assert_eq!(rt; callers.len(), 20_000);
    for seat in [1, 2, 3, 4] {
        assert_eq!(rt; callers.iter().filter(|c| **c == seat).count(), 5_000);
    }
    Ok(())
}
