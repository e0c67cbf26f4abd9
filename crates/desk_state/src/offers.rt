ghost use Rattle.std.specs.Prelude.{◌≡◌, ◌↔◌, ℕ, IfOk, List, [], ◌∷◌, Some, ◌<◌, nat_eq, None, if◌then◌else◌, length, ◌+◌, ◌^◌};
ghost use Rattle.desk_model.specs.statements.Opening.{OpeningValue};
ghost use Rattle.desk_model.specs.histories.History.{History, opened, with_entry, said};
ghost use Rattle.desk_model.specs.histories.Register.{persons, boards};
ghost use Rattle.desk_model.specs.offers.Offers.{open_offer, settles, asks_for};
ghost use Rattle.desk_model.specs.offers.Held.{hold_end};
ghost use Rattle.desk_register.specs.Among.{index_among, board_index};
ghost use Rattle.desk_state.specs.OpenOffers.{IsOffer, CanStart};
ghost use Rattle.desk_state.specs.Keeps.{Keeps};
ghost use Rattle.offer_flight.specs.Flight.{of_vacancy, of_person};
ghost use Rattle.offer_flight.specs.declared.flight.TheConstants.{OFFERS};
ghost use Rattle.desk_model.specs.histories.Legal.{IsLegal, IsNext};
ghost use Rattle.desk_state.specs.OfferTold.{decliner, offered_from, offered_person};

use crate::holds::Holds;
use desk_base::{Minute, NoMemory, PersonNo, VacNo};
use desk_model::{
    Cmd, EntryRef, HOLD, Reply, each_moment_lies_in_the_window, what_an_entry_makes_of_the_desk,
    what_is_done_rests_on,
};
use desk_register::{BoardIndex, PersonIndex, who_is_enrolled_has_an_index};
use offer_flight::{Flight, InFlight, OFFERS};
use std::alloc::Global;

/// The open offers of a desk and the holds after declines, with memory for all that it may come to keep.
pub struct Offers {
    pub(crate) flight: Flight,
    pub(crate) holds: Holds,
    /// How many minutes there are to answer an offer.
    pub(crate) answer: u8,
}

// Opens an offer, where neither the vacancy nor the person has one and there is room.
fn start(flight: &mut Flight, made: InFlight)
    ensures vacancies { CanStart flight.old made → (v : ℕ) → of_vacancy flight.new v
        ≡ (if nat_eq made.vac v then Some made else of_vacancy flight.old v) }
    ensures persons { CanStart flight.old made → (p : ℕ) → of_person flight.new p
        ≡ (if nat_eq made.person p then Some made else of_person flight.old p) }
{
    if flight.of_vacancy(made.vac).is_some() || flight.of_person(made.person).is_some() {
        return;
    }
    if flight.count() < OFFERS {
        flight.start(made);
    }
}

// The minute so many minutes after this one, where it is below 2^28; else this one.
fn later(moment: Minute, minutes: u64) -> Minute
    ensures { moment + minutes < 2 ^ 28 → result ≡ moment + minutes }
{
    match Minute::new(moment.number().saturating_add(minutes)) {
        Some(minute) => minute,
        None => moment,
    }
}

/// The vacancy whose open offer the entry ends.
fn settled(entry: &EntryRef) -> Option<VacNo>
    ensures { result ≡ said settles entry.now }
{
    let cmd = entry.accepted()?;
    match cmd {
        Cmd::Accept { vac, .. }
        | Cmd::Decline { vac, .. }
        | Cmd::NoAnswer { vac, .. }
        | Cmd::Withdraw { vac, .. }
        | Cmd::Annul { vac } => Some(*vac),
        _ => None,
    }
}

/// The person who declines by the entry.
fn decliner(entry: &EntryRef) -> Option<PersonNo>
    ensures { result ≡ said decliner entry.now }
{
    let cmd = entry.accepted()?;
    let Cmd::Decline { person, .. } = cmd else {
        return None;
    };
    Some(*person)
}

/// The vacancy that the entry's command asks to be offered.
fn asked(entry: &EntryRef) -> Option<VacNo>
    ensures { result ≡ asks_for entry.now.stated.cmd }
{
    match entry.stated().cmd() {
        Cmd::Next { vac } | Cmd::Offer { vac, .. } => Some(*vac),
        _ => None,
    }
}

/// The person to whom the entry offers a vacancy.
fn offered_person(entry: &EntryRef) -> Option<PersonNo>
    ensures { result ≡ offered_person entry.now }
{
    let Reply::Offered { person, .. } = entry.reply() else {
        return None;
    };
    Some(person)
}

impl Offers {
    /// Those of a desk that has answered nothing yet, with so many minutes for an answer; `NoMemory` where there is none for 1,000
    /// offers, and for holds of 1,000 persons by 64 boards.
    pub fn new(alloc: Global, answer: u8) -> Result<Offers, NoMemory>
        ensures { IfOk result (λ x. (o : OpeningValue) → o.answer ≡ answer → Keeps x (opened o)) }
    {
        let flight = Flight::new(alloc)?;
        let holds = Holds::new(alloc)?;
        Ok(Offers {
            flight,
            holds,
            answer,
        })
    }

    /// The same offers and holds again, with as many minutes for an answer and as much memory; `NoMemory` where there is none for it.
    pub fn copy(&self, alloc: Global) -> Result<Offers, NoMemory>
        ensures { IfOk result (λ x. (h : History) → Keeps x h ↔ Keeps self.now h) }
    {
        let flight = self.flight.copy(alloc)?;
        let holds = self.holds.copy(alloc)?;
        Ok(Offers {
            flight,
            holds,
            answer: self.answer,
        })
    }

    /// The open offer of a vacancy: to whom, from which board, by its index among all boards from 0, and from which minute on it
    /// counts as not answered. `None` where it has none.
    pub fn offer(&self, vac: VacNo) -> Option<InFlight>
        ensures { (h : History) → Keeps self.now h → IsOffer (boards h) h.opening.answer result (open_offer h vac) }
    {
        self.flight.of_vacancy(vac)
    }

    /// Until when a person is held by a board, both by their indexes among all, from 0, in either edition of the rules: 480 minutes
    /// after they last declined an offer from that board. The first minute of all where they declined none.
    pub fn hold_end(&self, person: PersonIndex, board: BoardIndex) -> Minute
        ensures { (h : History) (p : ℕ) (b : List ℕ) → Keeps self.now h → index_among (persons h) p ≡ Some person
            → board_index (boards h) b ≡ Some board → result ≡ hold_end h (b ∷ []) p }
    {
        self.holds.end(person, board)
    }

    // Ends the open offer of a vacancy, where it has one; who declines it is held by the board that it was made from.
    fn settle(&mut self, vac: VacNo, entry: &EntryRef, person: Option<PersonIndex>)
        ensures { (h : History) → IsLegal h → IsNext h entry.now → said settles entry.now ≡ Some vac
            → ((p : ℕ) → said decliner entry.now ≡ Some p → person ≡ index_among (persons h) p)
            → Keeps self.old h → Keeps self.new (with_entry h entry.now) }
    {
        what_an_entry_makes_of_the_desk();
        what_is_done_rests_on();
        each_moment_lies_in_the_window();
        who_is_enrolled_has_an_index();
        self.flight.no_person_stands_twice();
        let Some(done) = self.flight.finish(vac) else {
            return;
        };
        let Some(_) = decliner(entry) else {
            return;
        };
        let Some(index) = person else {
            return;
        };
        let until = later(entry.moment(), HOLD);
        self.holds.hold(index, done.board, until);
    }

    /// Keeps what the next entry of a legal history makes of offers and holds; of any other entry nothing is promised. `person`
    /// is the index of who declines by it, among all persons, and `board` that of the board which its offer is made from, among
    /// all boards; neither is looked at where the entry tells no such thing. It takes no memory.
    pub fn keep(&mut self, entry: &EntryRef, person: Option<PersonIndex>, board: Option<BoardIndex>)
        ensures { (h : History) → IsLegal h → IsNext h entry.now
            → ((p : ℕ) → said decliner entry.now ≡ Some p → person ≡ index_among (persons h) p)
            → ((b : List ℕ) → offered_from entry.now ≡ Some b → board ≡ board_index (boards h) b)
            → Keeps self.old h → Keeps self.new (with_entry h entry.now) }
    {
        what_an_entry_makes_of_the_desk();
        what_is_done_rests_on();
        each_moment_lies_in_the_window();
        who_is_enrolled_has_an_index();
        if let Some(vac) = settled(entry) {
            self.settle(vac, entry, person);
            return;
        }
        let Some(vac) = asked(entry) else {
            return;
        };
        let Some(person) = offered_person(entry) else {
            return;
        };
        let Some(board) = board else {
            return;
        };
        self.flight.no_person_stands_twice();
        let made = InFlight {
            person,
            vac,
            board,
            deadline: later(entry.moment(), u64::from(self.answer)),
        };
        start(&mut self.flight, made);
    }
}

impl Drop for Offers {
    fn drop(self) {
        let Self {
            flight: _,
            holds: _,
            answer: _,
        } = self;
    }
}
