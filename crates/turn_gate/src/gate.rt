ghost use Rattle.std.specs.Prelude.{◌≡◌, ◌+◌, ◌*◌, ◌^◌, ◌<◌, ◌≤◌, max, length, IfOk, IfErr};
ghost use Rattle.std.specs.Bool.{OnTrue};
ghost use Rattle.std.specs.List.{All};
ghost use Rattle.turn_gate.specs.Told.{told, start_of, IsBookOf};
ghost use Rattle.turn_gate.specs.Seats.{IsSeatOf, IsTurnOf, new_seats};
ghost use Rattle.turn_gate.specs.Turns.{Knows, Took, MayGive, Gave, IsLast};

use crate::deal::deal;
use crate::rejoin::rejoin;
use crate::steps::{Draw, FindServed, HearSure, Pass, TellSure};
use crate::terms::Terms;
use crate::tickets::TicketTable;
use crate::waiters::Waiters;
use crate::{Lasting, Seat, Short, Spent, Turn};
use atomic_table::{Refused, Table};
use desk_model::LAST_CALLER;
use std::alloc::{AllocFailed, Global};
use std::marker::Model;
use std::snapshot::Snapshot;
use std::sync::Wait;

/// A gate at which the callers of its seats take turns with one book.
#[derive(Drop)]
pub struct Gate<B: Lasting> {
    table: TicketTable<B>,
    seats: u8,
    waiters: Waiters,
}

impl<B: Lasting> Model for Gate<B> {
    ghost use Rattle.std.specs.Prelude.{◌≡◌, ◌<◌, ◌≤◌, ◌^◌};
    ghost use Rattle.desk_model.specs.declared.limits.TheConstants.{LAST_CALLER};
    ghost use Rattle.turn_gate.specs.Told.{told, start_from, end};
    ghost use Rattle.turn_gate.specs.Seats.{GateValue, gate_of};

    ghost Value = { GateValue };

    ghost view = { λ g. gate_of g.table.shared.table_id (start_from (told B.history B.room B.mark B.sure) g.table.shared.key) };

    ghost invariant = { λ g. (g.table.shared.table_id.words ≡ 3) × (g.table.shared.table_id.slots ≡ 1)
        × (g.seats ≡ g.table.shared.key.seats) × (g.seats ≤ LAST_CALLER)
        × (end (start_from (told B.history B.room B.mark B.sure) g.table.shared.key) < 2 ^ 32)
        × (1 ≤ g.seats) };
}

impl<B: Lasting> Gate<B> {
    /// A gate for a book, with 1 to 63 seats and so many calls of each, with which the book has fewer than 2^32 entries; or, where
    /// memory was wanting, the book.
    pub fn new(alloc: Global, book: B, seats: u8, quota: u32) -> Result<(Gate<B>, Vec<Seat<B>>), B>
        requires some { 1 ≤ seats }
        requires most { seats ≤ LAST_CALLER }
        requires calls { 1 ≤ quota }
        requires places { length (B.history book).entries + seats * quota < 2 ^ 32 }
        ensures start { IfOk result (λ made. made.0.start ≡ start_of seats quota (told B.history B.room B.mark B.sure book)) }
        ensures seats { IfOk result (λ made. made.1.items ≡ new_seats made.0 1 seats) }
        ensures each { IfOk result (λ made. All (IsSeatOf made.0) made.1.items) }
        ensures back { IfErr result (λ same. same ≡ book) }
    {
        let Ok(made) = Vec::with_capacity(alloc, usize::from(seats)) else {
            return Err(book);
        };
        let terms = Terms {
            seats,
            quota,
            book: Snapshot::of(&book),
        };
        let first = u64::from(book.count());
        let has_door = !book.defers();
        let mut slots = Vec::new(alloc);
        if let Err(failed) = slots.push(Some(book)) {
            let AllocFailed { value } = failed;
            slots.destroy_empty();
            return Err(value.unwrap());
        }
        match Table::new(alloc, &[first, first, 0], slots, &terms) {
            Ok((table, all)) => {
                let made = deal(&table, all, &terms, made);
                let gate = Gate {
                    table,
                    seats,
                    waiters: Waiters::new(has_door),
                };
                Ok((gate, made))
            }
            Err(Refused { mut slots }) => {
                let book = slots.pop().unwrap().unwrap();
                slots.destroy_empty();
                Err(book)
            }
        }
    }

    /// Waits for the seat's turn, and takes the book. `Spent` where the seat has had its quota of turns, without waiting.
    #[inline]
    pub fn take<R: Wait>(&self, rt: &R, seat: Seat<B>) -> Result<(Turn<B>, B), Spent<B>>
        requires { IsSeatOf self.now seat }
        ensures took { IfOk result (λ t. Took seat t.0 (told B.history B.room B.mark B.sure t.1)) }
        ensures not_spent { IfOk result (λ t. seat.calls < seat.start.quota) }
        ensures spent { IfErr result (λ s. (s.seat ≡ seat) × (seat.calls ≡ seat.start.quota)) }
    {
        if seat.left() == 0 {
            return Err(Spent { seat });
        }
        self.waiters.come(rt, &self.table);
        let (mut seat, number, left) = seat.into_parts();
        let shared = &self.table.shared;
        let ticket = shared.fetch_add::<Draw>(&mut seat, 0, 1);
        let mut looks = 0u32;
        for _ in rt.forever() {
            let serving = shared.load::<FindServed>(&mut seat, 1);
            if serving == ticket {
                let book = shared.exchange(&mut seat, 0, None).unwrap();
                let turn = Turn {
                    seat,
                    number,
                    left: left - 1,
                    place: ticket as u32,
                };
                return Ok((turn, book));
            }
            self.waiters.pause(rt, &self.table, ticket, looks);
            looks = looks.saturating_add(1);
        }
        unreachable!()
    }

    /// Gives the book back, with one entry more, whose caller is the seat of the turn, and no fewer that are sure. The next turn is served.
    #[inline]
    pub fn give(&self, turn: Turn<B>, book: B) -> Seat<B>
        requires turn { IsTurnOf self.now turn }
        requires book { MayGive turn (told B.history B.room B.mark B.sure book) }
        ensures { Gave turn (told B.history B.room B.mark B.sure book) result }
    {
        let Turn {
            mut seat,
            number,
            left,
            place: _,
        } = turn;
        let shared = &self.table.shared;
        let before = shared.exchange(&mut seat, 0, Some(book));
        let None = before else { unreachable!() };
        let served = shared.fetch_add::<Pass>(&mut seat, 1, 1);
        self.waiters.go(&self.table, served);
        Seat {
            place: seat,
            number,
            left,
        }
    }

    /// Whether a ticket is drawn behind this turn's, so that another turn comes. It only hints: no clause says so.
    pub fn has_next(&self, turn: &Turn<B>) -> bool {
        self.table.shared.peek(0) != u64::from(turn.place) + 1
    }

    /// Tells all callers that so many entries are sure, which the seat knows, and wakes those who wait for that.
    pub fn tell(&self, seat: &mut Seat<B>, sure: u32)
        requires seat { IsSeatOf self.now seat.old }
        requires known { sure ≤ seat.old.sure }
        ensures { seat.new ≡ seat.old }
    {
        self.table
            .shared
            .fetch_max::<TellSure>(&mut seat.place, 2, u64::from(sure));
        self.waiters.wake();
    }

    /// Says that no more entries will be sure: who waits for one waits no more.
    pub fn stop(&self) {
        self.waiters.stop();
    }

    // How many entries are told to be sure, which the seat knows then.
    fn hear(&self, seat: &mut Seat<B>) -> u64
        requires { IsSeatOf self.now seat.old }
        ensures { seat.new ≡ record seat.old { sure = max seat.old.sure result } }
    {
        self.table.shared.load::<HearSure>(&mut seat.place, 2)
    }

    /// Waits until more than `place` entries are told to be sure, and says whether they are; where no more will be, they may not.
    pub fn wait_sure<R: Wait>(&self, rt: &R, seat: Seat<B>, place: u32) -> (Seat<B>, bool)
        requires { IsSeatOf self.now seat }
        ensures same { result.0 ≡ record seat { sure = result.0.sure } }
        ensures no_fewer { seat.sure ≤ result.0.sure }
        ensures sure { OnTrue result.1 (place < result.0.sure) }
    {
        let mut seat = seat;
        let mut looks = 0u32;
        for _ in rt.forever() {
            let is_stopped = self.waiters.is_stopped();
            let sure = self.hear(&mut seat);
            if sure > u64::from(place) {
                return (seat, true);
            }
            if is_stopped {
                return (seat, false);
            }
            self.waiters
                .rest(rt, &self.table, seat.seat_no(), place, looks);
            looks = looks.saturating_add(1);
        }
        unreachable!()
    }

    /// How many turns a seat has still to take.
    pub fn left(&self, seat: &Seat<B>) -> u32
        requires { IsSeatOf self.now seat.now }
        ensures { seat.now.calls + result ≡ self.now.start.quota }
    {
        seat.left()
    }

    /// The book, where all seats are given; `Short` where fewer are given than were made, and then nothing changes.
    pub fn close(self, seats: Vec<Seat<B>>) -> Result<B, Short<B>>
        requires { All (IsSeatOf self) seats.items }
        ensures book { IfOk result (λ book. IsBookOf self.start (told B.history B.room B.mark B.sure book)) }
        ensures known { IfOk result (λ book. All (Knows (B.history book).entries) seats.items) }
        ensures sure { IfOk result (λ book. All (λ seat. seat.sure ≤ B.sure book) seats.items) }
        ensures rule { IfOk result (λ book. IsLast (told B.history B.room B.mark B.sure) self.start book) }
        ensures all { IfOk result (λ book. self.start.seats ≤ length seats.items) }
        ensures short { IfErr result (λ s. (s.gate ≡ self) × (s.seats ≡ seats)
            × (length seats.items < self.start.seats)) }
    {
        if seats.len() < usize::from(self.seats) {
            return Err(Short { gate: self, seats });
        }
        let Gate {
            table,
            seats: _,
            waiters: _,
        } = self;
        let all = rejoin(&table, seats);
        let mut closed = table.close_with(all);
        let slot = closed.take(0);
        closed.free();
        Ok(slot.unwrap())
    }
}
