ghost use Rattle.std.specs.Prelude.{◌≡◌, ◌≢◌, ◌+◌, ◌*◌, ◌<◌, ◌≤◌, length, IfOk, IfErr};
ghost use Rattle.std.specs.List.{All};
ghost use Rattle.turn_gate.specs.Told.{told, start_of, IsBookOf};
ghost use Rattle.turn_gate.specs.Seats.{IsSeatOf, new_seats};
ghost use Rattle.turn_gate.specs.Turns.{Knows};
ghost use Rattle.desk_shared.specs.Calls.{Calls};

use crate::{Called, Receipt, SeatSpent, SeatsMissing};
use call_history::Book;
use desk_base::NoMemory;
use desk_model::{Booked, DeskCore, LAST_CALLER, Stated};
use std::alloc::Global;
use std::marker::Model;
use std::sync::Wait;
use turn_gate::{Gate, Lasting, Seat, what_one_entry_more_makes_known};

/// A desk that callers share. Each has a seat, and the calls of all seats are one history.
#[derive(Drop)]
pub struct Desk<C: DeskCore> {
    gate: Gate<Book<C>>,
}

impl<C: DeskCore> Model for Desk<C> {
    ghost use Rattle.std.specs.Prelude.{◌≤◌};
    ghost use Rattle.turn_gate.specs.Told.{end};
    ghost use Rattle.turn_gate.specs.Seats.{GateValue};

    ghost Value = { GateValue };

    ghost view = { λ desk. desk.gate };

    // the book has room for all calls
    ghost invariant = { λ desk. end desk.gate.start ≤ desk.gate.start.book.room };
}

impl<C: DeskCore> Desk<C> {
    /// A desk over a book, with 1 to 63 seats and so many calls of each, for all of which the book has room; `NoMemory` where there
    /// is none for the seats. The seats have the numbers from 1 on.
    pub fn new(
        alloc: Global,
        book: Book<C>,
        seats: u8,
        quota: u32,
    ) -> Result<(Desk<C>, Vec<Seat<Book<C>>>), NoMemory>
        requires some { 1 ≤ seats }
        requires most { seats ≤ LAST_CALLER }
        requires calls { 1 ≤ quota }
        requires room { length (⟦<Book<C> as Booked>⟧.history book).entries + seats * quota
            ≤ ⟦<Book<C> as Booked>⟧.room book }
        ensures start { IfOk result (λ made. made.0.start ≡ start_of seats quota
            (told ⟦<Book<C> as Booked>⟧.history ⟦<Book<C> as Booked>⟧.room ⟦<Book<C> as Booked>⟧.mark ⟦<Book<C> as Lasting>⟧.sure book)) }
        ensures seats { IfOk result (λ made. made.1.items ≡ new_seats made.0 1 seats) }
        ensures each { IfOk result (λ made. All (IsSeatOf made.0) made.1.items) }
    {
        book.is_legal();
        match Gate::new(alloc, book, seats, quota) {
            Ok((gate, seats)) => Ok((Desk { gate }, seats)),
            Err(_book) => Err(NoMemory),
        }
    }

    /// Waits for the seat's turn, and answers what is stated: the entry's caller is the seat's number. `SeatSpent` where the seat
    /// has made all its calls; then nothing is answered.
    pub fn call<R: Wait>(&self, rt: &R, seat: Seat<Book<C>>, stated: Stated) -> Called<C>
        requires { IsSeatOf self.now seat }
        ensures receipt { IfOk result.outcome
            (λ receipt. Calls self.now.start.book.opening seat result.seat stated receipt) }
        ensures not_spent { IfOk result.outcome (λ receipt. seat.calls < self.now.start.quota) }
        ensures spent { IfErr result.outcome
            (λ spent. (result.seat ≡ seat) × (seat.calls ≡ self.now.start.quota)) }
        ensures seat { IsSeatOf self.now result.seat }
    {
        what_one_entry_more_makes_known();
        match self.gate.take(rt, seat) {
            Ok((turn, mut book)) => {
                let place = turn.place();
                let Ok(entry) = book.step(turn.seat_no(), stated) else {
                    unreachable!()
                };
                book.is_legal();
                Called {
                    seat: self.gate.give(turn, book),
                    outcome: Ok(Receipt { place, entry }),
                }
            }
            Err(spent) => Called {
                seat: spent.seat,
                outcome: Err(SeatSpent),
            },
        }
    }

    /// How many calls a seat has still to make.
    pub fn left(&self, seat: &Seat<Book<C>>) -> u32
        requires { IsSeatOf self.now seat.now }
        ensures { seat.now.calls + result ≡ self.now.start.quota }
    {
        self.gate.left(seat)
    }

    /// The book, where all seats are given; `SeatsMissing` where fewer are given than were made, and then nothing changes.
    pub fn close(self, seats: Vec<Seat<Book<C>>>) -> Result<Book<C>, SeatsMissing<C>>
        requires { All (IsSeatOf self) seats.items }
        ensures book { IfOk result (λ book. IsBookOf self.start
            (told ⟦<Book<C> as Booked>⟧.history ⟦<Book<C> as Booked>⟧.room ⟦<Book<C> as Booked>⟧.mark ⟦<Book<C> as Lasting>⟧.sure book)) }
        ensures known { IfOk result (λ book. All (Knows (⟦<Book<C> as Booked>⟧.history book).entries) seats.items) }
        ensures all { IfOk result (λ book. self.start.seats ≤ length seats.items) }
        ensures missing { IfErr result (λ missing. (missing.desk ≡ self) × (missing.seats ≡ seats)
            × (length seats.items < self.start.seats)) }
    {
        let Desk { gate } = self;
        match gate.close(seats) {
            Ok(book) => Ok(book),
            Err(short) => Err(SeatsMissing {
                desk: Desk { gate: short.gate },
                seats: short.seats,
            }),
        }
    }
}
