mod bars;
mod boards;
mod chain;

ghost use Rattle.std.specs.Prelude.{◌≡◌, ◌↔◌, IfOk, ◌+◌, ℕ, false, Some, IfSome};
ghost use Rattle.desk_model.specs.statements.Opening.{OpeningValue};
ghost use Rattle.desk_model.specs.histories.History.{History, opened, with_entry, said};
ghost use Rattle.desk_model.specs.histories.Legal.{IsNext};
ghost use Rattle.fast_core.specs.KeptDesk.{Tells};
ghost use Rattle.desk_base.specs.Minute.{IsInYears};
ghost use Rattle.desk_model.specs.offers.Offers.{open_offer};
ghost use Rattle.desk_state.specs.Lists.{mover};
ghost use Rattle.desk_model.specs.laws.Refusal.{changes};

use crate::people::People;
use crate::unfilled::Unfilled;
use desk_base::{Minute, NoMemory, PersonNo, VacNo, YEARS_BEGIN, YEARS_END};
use desk_model::{
    Cmd, EntryRef, Offer, Opening, Reply, a_legal_history_fits, a_refusal_changes_nothing,
    one_history_is_legal, what_an_entry_makes_of_the_desk, what_is_done_rests_on,
};
use desk_register::Register;
use desk_state::{Duty, Lists, NamedIndexes, Offers};
use std::alloc::Global;

/// All that a desk keeps: how it was opened, its last moment, its persons with their clocks, its boards and vacancies, the open
/// offers and holds, who is on which board in which order, and which vacancies were unfilled and when, with whom anything touched
/// since.
#[derive(Drop)]
pub(crate) struct KeptDesk {
    pub opening: Opening,
    pub last: Minute,
    pub people: People,
    pub offers: Offers,
    pub lists: Lists,
    pub unfilled: Unfilled,
}

// The minute so many minutes before this one, where both lie in the years 2000 to 2099.
fn before(minute: Minute, minutes: u8) -> Option<Minute>
    ensures years { IfSome result (λ made. IsInYears made) }
    ensures is { (made : ℕ) → IsInYears made → minute ≡ made + minutes → result ≡ Some made }
{
    let made = minute.number().saturating_sub(u64::from(minutes));
    if made >= YEARS_BEGIN && made < YEARS_END {
        Minute::new(made)
    } else {
        None
    }
}

/// The person whom the entry's command names, where that was done and may move them, or tells an event of theirs.
pub(crate) fn mover(entry: &EntryRef) -> Option<PersonNo>
    ensures { result ≡ said mover entry.now }
{
    let cmd = entry.accepted()?;
    match cmd {
        Cmd::List { person, .. }
        | Cmd::Unlist { person, .. }
        | Cmd::MarkOn { person }
        | Cmd::Decline { person, .. }
        | Cmd::Past { person, .. }
        | Cmd::Happened { person, .. } => Some(*person),
        _ => None,
    }
}

// Whether the reply says that something changed: a command was done, or an offer made.
fn changes(reply: &Reply) -> bool
    ensures { result ≡ changes reply.now }
{
    match reply {
        Reply::Done | Reply::Offered { .. } => true,
        _ => false,
    }
}

impl KeptDesk {
    /// A desk that was opened so and has answered nothing yet; `NoMemory` where there is none for all that it may come to keep.
    pub(crate) fn new(alloc: Global, opening: Opening) -> Result<KeptDesk, NoMemory>
        ensures tells { IfOk result (λ d. Tells d (opened opening)) }
    {
        one_history_is_legal();
        opening.answer();
        let register = Register::new(alloc)?;
        let duty = Duty::new(alloc, opening.window())?;
        let offers = Offers::new(alloc, opening.answer())?;
        let lists = Lists::new(alloc)?;
        let unfilled = Unfilled::new(alloc)?;
        Ok(KeptDesk {
            opening,
            last: opening.start(),
            people: People { register, duty },
            offers,
            lists,
            unfilled,
        })
    }

    /// The same again, with memory of its own for all that it may come to keep; `NoMemory` where there is none for it.
    pub(crate) fn copy(&self, alloc: Global) -> Result<KeptDesk, NoMemory>
        ensures tells { IfOk result (λ d. (h : History) → Tells d h ↔ Tells self.now h) }
        ensures opening { IfOk result (λ d. d.opening ≡ self.now.opening) }
    {
        let people = self.people.copy(alloc)?;
        let offers = self.offers.copy(alloc)?;
        let lists = self.lists.copy(alloc)?;
        let unfilled = self.unfilled.copy(alloc)?;
        Ok(KeptDesk {
            opening: self.opening,
            last: self.last,
            people,
            offers,
            lists,
            unfilled,
        })
    }

    /// Keeps what the next entry changes. It stays a call: inlined, the entry is copied twice more on its
    /// way to the caller.
    #[inline(never)]
    pub(crate) fn keep(&mut self, entry: &EntryRef)
        ensures tells { (h : History) → Tells self.old h → IsNext h entry.now → Tells self.new (with_entry h entry.now) }
        ensures opening { self.new.opening ≡ self.old.opening }
    {
        if changes(&entry.reply()) {
            self.change(entry);
        } else {
            self.stay(entry);
        }
    }

    // Keeps what the next entry changes, whatever it is.
    fn change(&mut self, entry: &EntryRef)
        ensures tells { (h : History) → Tells self.old h → IsNext h entry.now → Tells self.new (with_entry h entry.now) }
        ensures opening { self.new.opening ≡ self.old.opening }
    {
        what_an_entry_makes_of_the_desk();
        what_is_done_rests_on();
        let mover = mover(entry);
        let offered = self.offered_board(entry);
        let mut named = NamedIndexes {
            person: self.index_of(&mover),
            board: self.named_board(entry),
            ready: Minute::FIRST,
        };
        self.people.keep(entry, named.person);
        self.offers.keep(entry, named.person, offered);
        named.ready = self.people.ready_of(named.person);
        self.lists.keep(entry, &named);
        self.unfilled.change(entry);
        self.last = entry.moment();
    }

    // Keeps the moment of the next entry, which changes nothing else, and the vacancy that it tells to be unfilled.
    fn stay(&mut self, entry: &EntryRef)
        ensures tells { (h : History) → Tells self.old h → IsNext h entry.now → changes entry.now.reply ≡ false
            → Tells self.new (with_entry h entry.now) }
        ensures opening { self.new.opening ≡ self.old.opening }
    {
        what_an_entry_makes_of_the_desk();
        a_refusal_changes_nothing();
        self.unfilled.keep(entry);
        self.last = entry.moment();
    }

    /// The open offer of the vacancy, made in the years 2000 to 2099; `None` where none is open.
    pub(crate) fn offer(&self, vac: VacNo) -> Option<Offer>
        ensures answer { (h : History) → Tells self.now h → result ≡ open_offer h vac }
        ensures made { IfSome result (λ offer. IsInYears offer.made) }
    {
        a_legal_history_fits();
        let kept = self.offers.offer(vac)?;
        let board = self.people.register.boards().code(kept.board)?;
        let made = before(kept.deadline, self.opening.answer())?;
        Some(Offer {
            person: kept.person,
            board: *board,
            made,
        })
    }
}
