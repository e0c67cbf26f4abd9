ghost use Rattle.std.specs.Prelude.{◌≡◌, ◌≢◌, ◌+◌, ◌*◌, ◌<◌, ◌≤◌, [], length, take, vec_len, IfOk, IfErr, IfSome, IfNone, true, false};
ghost use Rattle.std.specs.Bool.{OnTrue};
ghost use Rattle.std.specs.List.{All};
ghost use Rattle.turn_gate.specs.Told.{told, start_of, IsBookOf};
ghost use Rattle.turn_gate.specs.Seats.{IsSeatOf, new_seats};
ghost use Rattle.turn_gate.specs.Turns.{Knows};
ghost use Rattle.desk_base.specs.Minute.{IsInYears};
ghost use Rattle.crew_call.specs.CrewCalls.{IsFilled, somes};
ghost use Rattle.desk_shared.specs.Calls.{Calls};
ghost use Rattle.desk_shared.specs.Crews.{IsCall, CallsCrew};
ghost use Rattle.desk_shared.specs.Kept.{AreKept, KnowsOnlySure};
ghost use Rattle.desk_shared.specs.Shown.{IsViewOf, ShowsTo};
ghost use Rattle.desk_model.specs.texts.Journal.{journal};
ghost use Rattle.journal_device.specs.Device.{Tells};

use crate::called_shown::CalledShown;
use crate::crew_called::CrewCalled;
use crate::shown_book::ShownBook;
use crate::shown_seats_missing::ShownSeatsMissing;
use crate::{Receipt, SeatSpent, TooFew};
use board_window::{NewWall, Showing, View, Wall};
use call_history::Steps;
use crew_call::{Crew, what_an_outcome_says};
use desk_base::{Minute, NoMemory, VacNo};
use desk_model::{Booked, Entry, LAST_CALLER, Stated};
use std::alloc::Global;
use std::marker::Model;
use std::sync::Wait;
use turn_gate::{Gate, Seat, what_one_entry_more_makes_known};

/// A desk that callers share, as `Desk`, with windows on its boards. It is not `Drop`: close it by `close`.
pub struct ShownDesk<B: Steps> {
    gate: Gate<ShownBook<B>>,
}

impl<B: Steps> Model for ShownDesk<B> {
    ghost use Rattle.std.specs.Prelude.{◌≤◌};
    ghost use Rattle.turn_gate.specs.Told.{end};
    ghost use Rattle.turn_gate.specs.Seats.{GateValue};

    ghost Value = { GateValue };

    ghost view = { λ desk. desk.gate };

    // the book has room for all calls
    ghost invariant = { λ desk. end desk.gate.start ≤ desk.gate.start.book.room };
}

// What is told of what is shown: nothing where the entry isn't kept.
fn if_kept(is_kept: bool, showing: Showing) -> Option<Showing>
    ensures some { IfSome result (λ told. (told ≡ showing) × (is_kept ≡ true)) }
    ensures none { IfNone result (is_kept ≡ false) }
{
    if is_kept { Some(showing) } else { None }
}

impl<B: Steps + Drop> ShownDesk<B> {
    /// A desk over a book whose whole journal is kept, with the wall that has its entries, 1 to 63 seats and so many calls of each, for all of
    /// which the book has room, and with a view for each seat; `NoMemory` where there is none for the seats and the windows. The seats have the
    /// numbers from 1 on, and the views stand for the book's entries.
    pub fn new<R: Wait>(
        rt: &R,
        alloc: Global,
        book: B,
        wall: NewWall,
        seats: u8,
        quota: u32,
    ) -> Result<(ShownDesk<B>, Vec<Seat<ShownBook<B>>>, Vec<View>), NoMemory>
        requires opening { wall.wall.opening ≡ (B.history book).opening }
        requires entries { wall.entries ≡ (B.history book).entries }
        requires some { 1 ≤ seats }
        requires most { seats ≤ LAST_CALLER }
        requires calls { 1 ≤ quota }
        requires room { length (B.history book).entries + seats * quota
            ≤ B.room book }
        requires kept { Tells (B.kept book) (journal (B.history book)) }
        ensures start { IfOk result (λ made. made.0.start ≡ start_of seats quota
            (told B.history B.room (λ _. made.0.start.book.wall.mark) (λ b. length (B.history b).entries) book)) }
        ensures seats { IfOk result (λ made. made.1.items ≡ new_seats made.0 1 seats) }
        ensures each { IfOk result (λ made. All (IsSeatOf made.0) made.1.items) }
        ensures count { IfOk result (λ made. vec_len made.2 ≡ seats) }
        ensures views { IfOk result (λ made. All (IsViewOf made.0) made.2.items) }
        ensures shown { IfOk result (λ made. All (λ view. view.entries ≡ (B.history book).entries) made.2.items) }
    {
        book.is_legal();
        let (wall, views) = Wall::new(rt, alloc, wall, seats)?;
        let sure = book.count();
        let shown = ShownBook { book, wall, sure };
        match Gate::new(alloc, shown, seats, quota) {
            Ok((gate, seats)) => Ok((ShownDesk { gate }, seats, views)),
            Err(shown) => {
                let _book = shown.end(rt);
                Err(NoMemory)
            }
        }
    }

    /// Waits for the seat's turn, and answers what is stated, as `Desk::call` does; what is shown then, and how far it is behind, is
    /// told beside where the entry is told as kept. `SeatSpent` where the seat has made all its calls; then nothing is answered and nothing shown.
    pub fn call<R: Wait>(&self, rt: &R, seat: Seat<ShownBook<B>>, stated: Stated) -> CalledShown<B>
        requires { IsSeatOf self.now seat }
        ensures receipt { IfOk result.outcome
            (λ receipt. Calls self.now.start.book.opening seat result.seat stated receipt) }
        ensures not_spent { IfOk result.outcome (λ receipt. seat.calls < self.now.start.quota) }
        ensures spent { IfErr result.outcome
            (λ spent. (result.seat ≡ seat) × (seat.calls ≡ self.now.start.quota)) }
        ensures seat { IsSeatOf self.now result.seat }
        ensures shown { IfOk result.outcome (λ receipt. IfSome result.showing
            (λ showing. ShowsTo self.now showing.note showing.behind result.seat.known)) }
        ensures showing { IfNone result.showing (IfOk result.outcome (λ receipt. B.always ≢ true)) }
        ensures no_showing { IfErr result.outcome (λ spent. IfSome result.showing (λ showing. ⊥)) }
        ensures sure { IfOk result.outcome (λ receipt. IfSome result.showing (λ showing. KnowsOnlySure result.seat)) }
        ensures no_fewer { seat.sure ≤ result.seat.sure }
    {
        what_one_entry_more_makes_known();
        match self.gate.take(rt, seat) {
            Ok((turn, mut book)) => {
                let place = turn.place();
                let (entry, showing) = book.step(turn.seat_no(), stated);
                book.is_legal();
                let is_slow = book.is_slow();
                let is_later = is_slow && self.gate.has_next(&turn);
                let is_kept = book.keep(rt, is_later);
                let seat = self.gate.give(turn, book);
                let (seat, is_kept) = self.settle(rt, seat, place, is_slow, is_later, is_kept);
                CalledShown {
                    seat,
                    outcome: Ok(Receipt { place, entry }),
                    showing: if_kept(is_kept, showing),
                }
            }
            Err(spent) => CalledShown {
                seat: spent.seat,
                outcome: Err(SeatSpent),
                showing: None,
            },
        }
    }

    // What comes of an entry behind its turn, and whether it is kept: where the turn kept it, all who wait for that are told; where that is
    // left to a later turn, it waits; and where it can't be kept, nobody waits any more.
    fn settle<R: Wait>(
        &self,
        rt: &R,
        seat: Seat<ShownBook<B>>,
        place: u32,
        is_slow: bool,
        is_later: bool,
        is_kept: bool,
    ) -> (Seat<ShownBook<B>>, bool)
        requires seat { IsSeatOf self.now seat }
        requires sure { OnTrue is_kept (place < seat.sure) }
        ensures same { result.0 ≡ record seat { sure = result.0.sure } }
        ensures no_fewer { seat.sure ≤ result.0.sure }
        ensures sure { OnTrue result.1 (place < result.0.sure) }
        ensures kept { OnTrue is_kept (result.1 ≡ true) }
    {
        if is_kept {
            let mut seat = seat;
            if is_slow {
                self.gate.tell(&mut seat, place.saturating_add(1));
            }
            return (seat, true);
        }
        if is_later {
            return self.gate.wait_sure(rt, seat, place);
        }
        self.gate.stop();
        (seat, false)
    }

    // A call of a seat that has one left: its entry, and what is shown then.
    fn called<R: Wait>(
        &self,
        rt: &R,
        seat: Seat<ShownBook<B>>,
        stated: Stated,
    ) -> (Seat<ShownBook<B>>, Entry, Option<Showing>)
        requires seat { IsSeatOf self.now seat }
        requires left { seat.calls < self.now.start.quota }
        ensures call { IsCall self.now.start.book.opening seat result.0 result.1 }
        ensures stated { result.1.stated ≡ stated }
        ensures seat { IsSeatOf self.now result.0 }
        ensures shown { IfSome result.2 (λ showing. ShowsTo self.now showing.note showing.behind result.0.known) }
        ensures showing { IfNone result.2 (B.always ≢ true) }
        ensures sure { IfSome result.2 (λ showing. KnowsOnlySure result.0) }
        ensures no_fewer { seat.sure ≤ result.0.sure }
    {
        let CalledShown {
            seat,
            outcome,
            showing,
        } = self.call(rt, seat, stated);
        let Ok(receipt) = outcome else { unreachable!() };
        (seat, receipt.entry, showing)
    }

    /// Calls two vacancies, which may be the same, as one outcome, at a minute of the years 2000 to 2099: the first, then the second; where that is
    /// not offered, the first offer is withdrawn. So the seat makes up to three calls, between which others may make theirs: another may
    /// accept, decline or withdraw the first offer before the second is made. Where it is withdrawn and made anew to the same person, that one is
    /// withdrawn here. `TooFew` where the seat has fewer than 3 calls left; then none is made.
    pub fn crew<R: Wait>(
        &self,
        rt: &R,
        seat: Seat<ShownBook<B>>,
        minute: Minute,
        first: VacNo,
        second: VacNo,
    ) -> CrewCalled<B>
        requires seat { IsSeatOf self.now seat }
        requires minute { IsInYears minute }
        ensures calls { IfOk result.outcome
            (λ told. CallsCrew self.now.start.book.opening seat result.seat minute first second (somes result.entries) told) }
        ensures front { IsFilled result.entries }
        ensures enough { IfOk result.outcome (λ told. seat.calls + 3 ≤ self.now.start.quota) }
        ensures few { IfErr result.outcome (λ few. (few.left < 3) × (seat.calls + few.left ≡ self.now.start.quota)) }
        ensures same { IfErr result.outcome (λ few. (result.seat ≡ seat) × (somes result.entries ≡ [])) }
        ensures seat { IsSeatOf self.now result.seat }
        ensures shown { IfOk result.outcome (λ told. IfSome result.showing
            (λ showing. ShowsTo self.now showing.note showing.behind result.seat.known)) }
        ensures showing { IfNone result.showing (IfOk result.outcome (λ told. B.always ≢ true)) }
        ensures no_showing { IfErr result.outcome (λ few. IfSome result.showing (λ showing. ⊥)) }
        ensures sure { IfOk result.outcome (λ told. IfSome result.showing (λ showing. KnowsOnlySure result.seat)) }
        ensures no_fewer { seat.sure ≤ result.seat.sure }
    {
        what_an_outcome_says();
        let left = self.left(&seat);
        if left < 3 {
            return CrewCalled {
                seat,
                entries: [None, None, None],
                outcome: Err(TooFew { left }),
                showing: None,
            };
        }
        let mut seat = seat;
        let mut shown = None;
        let mut kept = true;
        let mut crew = Crew::new(minute, first, second);
        while let Some(stated) = crew.ask() {
            let (after, entry, showing) = self.called(rt, seat, stated);
            seat = after;
            kept &= showing.is_some();
            shown = showing;
            crew.hear(&entry);
        }
        let Some(outcome) = crew.outcome() else {
            unreachable!()
        };
        CrewCalled {
            seat,
            entries: crew.entries(),
            outcome: Ok(outcome),
            showing: if kept { shown } else { None },
        }
    }

    /// How many calls a seat has still to make.
    pub fn left(&self, seat: &Seat<ShownBook<B>>) -> u32
        requires { IsSeatOf self.now seat.now }
        ensures { seat.now.calls + result ≡ self.now.start.quota }
    {
        self.gate.left(seat)
    }

    /// The book, where all seats are given, with the windows ended: what a seat knows as sure is kept. `ShownSeatsMissing` where fewer are given
    /// than were made, and then nothing changes.
    pub fn close<R: Wait>(
        self,
        rt: &R,
        seats: Vec<Seat<ShownBook<B>>>,
    ) -> Result<B, ShownSeatsMissing<B>>
        requires { All (IsSeatOf self) seats.items }
        ensures book { IfOk result (λ book. IsBookOf self.start
            (told B.history B.room (λ _. self.start.book.wall.mark) (λ _. self.start.book.sure) book)) }
        ensures known { IfOk result (λ book. All (Knows (B.history book).entries) seats.items) }
        ensures kept { IfOk result (λ book. All (λ seat.
            AreKept (B.kept book) (B.history book).opening (take seat.sure (B.history book).entries)) seats.items) }
        ensures all { IfOk result (λ book. self.start.seats ≤ length seats.items) }
        ensures missing { IfErr result (λ missing. (missing.desk ≡ self) × (missing.seats ≡ seats)
            × (length seats.items < self.start.seats)) }
    {
        let ShownDesk { gate } = self;
        match gate.close(seats) {
            Ok(shown) => Ok(shown.end(rt)),
            Err(short) => Err(ShownSeatsMissing {
                desk: ShownDesk { gate: short.gate },
                seats: short.seats,
            }),
        }
    }
}
