ghost use Rattle.std.specs.Prelude.{◌≤◌, ◌<◌, ◌≡◌, ◌↔◌, ℕ, true, false, [], IfOk, IfSome, length, vec_capacity};
ghost use Rattle.desk_model.specs.declared.limits.TheConstants.{VACANCY_LIMIT};
ghost use Rattle.desk_model.specs.histories.History.{History, with_entry};
ghost use Rattle.desk_model.specs.histories.Legal.{IsLegal, IsNext};
ghost use Rattle.desk_model.specs.laws.Refusal.{changes};
ghost use Rattle.fast_core.specs.declared.unfilled.TheConstants.{TOUCHED};

use crate::touched::touched;
use desk_base::{IndexHints, Minute, NoMemory, PersonNo, VacNo};
use desk_model::{
    Cmd, EntryRef, Reply, VACANCY_LIMIT, a_refusal_changes_nothing, order_is_by_rank,
    what_an_entry_makes_of_the_desk, what_is_done_rests_on,
};
use std::alloc::Global;

// As many hints as vacancies that are numbered one after the other, and more.
const HINT_BITS: u32 = 15;

/// So many persons are touched at most before all is forgotten.
pub(crate) const TOUCHED: usize = 64;

/// A vacancy, the last moment at which it was unfilled, and how many persons had been touched by then.
#[derive(Clone, Copy, Debug)]
pub(crate) struct Found {
    pub vac: VacNo,
    pub moment: Minute,
    pub before: usize,
}

/// The vacancies that were unfilled when they were called, and the persons whose bars or boards may have changed since, one after the
/// other: so who calls one again at the same moment need judge these persons alone. There is memory for 20,000 and 64; where there
/// would be more of either, all is forgotten.
#[derive(Drop)]
pub(crate) struct Unfilled {
    pub found: Vec<Found>,
    pub hints: IndexHints,
    pub touched: Vec<PersonNo>,
    ghost room: { VACANCY_LIMIT ≤ vec_capacity found },
    ghost room_touched: { TOUCHED ≤ vec_capacity touched },
}

impl Unfilled {
    ghost use Rattle.fast_core.specs.Touched.{IsSameBut};
    ghost use Rattle.fast_core.specs.Unfilled.{IsUnfilledBut, IsFound, KeepsUnfilled, found_by};

    /// None are remembered; `NoMemory` where there is none for 20,000 vacancies and 64 persons.
    pub(crate) fn new(alloc: Global) -> Result<Unfilled, NoMemory>
        ensures { IfOk result (λ u. (h : History) → KeepsUnfilled u h) }
    {
        let found = Vec::with_capacity(alloc, VACANCY_LIMIT)?;
        let hints = IndexHints::new(alloc, HINT_BITS)?;
        let touched = Vec::with_capacity(alloc, TOUCHED)?;
        Ok(Unfilled {
            found,
            hints,
            touched,
        })
    }

    /// The same ones, with memory for as many; `NoMemory` where there is none for them.
    pub(crate) fn copy(&self, alloc: Global) -> Result<Unfilled, NoMemory>
        ensures { IfOk result (λ u. (h : History) → KeepsUnfilled u h ↔ KeepsUnfilled self.now h) }
    {
        let mut found = Vec::with_capacity(alloc, VACANCY_LIMIT)?;
        found.extend_from_slice(&self.found)?;
        let hints = self.hints.copy(alloc)?;
        let mut touched = Vec::with_capacity(alloc, TOUCHED)?;
        touched.extend_from_slice(&self.touched)?;
        Ok(Unfilled {
            found,
            hints,
            touched,
        })
    }

    /// Who was touched since the vacancy was unfilled at the moment: all others of its chain are barred still. `None` where it isn't
    /// remembered.
    pub(crate) fn touched_since(&self, vac: VacNo, moment: Minute) -> Option<&[PersonNo]>
        ensures { (h : History) → KeepsUnfilled self.now h → IfSome result (λ persons. IsUnfilledBut h vac moment persons.now) }
    {
        let found = self.found.get(self.hints.of(vac.number()))?;
        let touched = self.touched.as_slice();
        if found.vac == vac && found.moment == moment && found.before <= touched.len() {
            Some(&touched[found.before..])
        } else {
            None
        }
    }

    // Whether what stands at the index is of the vacancy.
    fn is_at(&self, index: usize, vac: VacNo) -> bool
        ensures { result ≡ true → index < length self.now.found.items }
    {
        match self.found.get(index) {
            Some(found) => found.vac == vac,
            None => false,
        }
    }

    // The vacancy, which is unfilled at the moment: nobody was touched since.
    fn just_found(&self, vac: VacNo, moment: Minute) -> Found
        ensures { (h : History) → IsUnfilledBut h vac moment [] → IsFound h self.now.touched.items result }
    {
        Found {
            vac,
            moment,
            before: self.touched.len(),
        }
    }

    // Forgets all where there is no room for another vacancy.
    fn make_room(&mut self)
        ensures room { length self.new.found.items < VACANCY_LIMIT }
        ensures keeps { (h : History) → KeepsUnfilled self.old h → KeepsUnfilled self.new h }
    {
        if self.found.len() >= VACANCY_LIMIT {
            self.forget();
        }
    }

    // Remembers that the vacancy is unfilled at the moment.
    fn add(&mut self, vac: VacNo, moment: Minute)
        ensures { (h : History) → KeepsUnfilled self.old h → IsUnfilledBut h vac moment [] → KeepsUnfilled self.new h }
    {
        let index = self.hints.of(vac.number());
        if self.is_at(index, vac) {
            let found = self.just_found(vac, moment);
            self.found[index] = found;
            return;
        }
        self.make_room();
        let found = self.just_found(vac, moment);
        self.hints.set(vac.number(), self.found.len());
        self.found.push_reserved(found);
    }

    // The vacancy that the entry calls by `next` and tells to be unfilled.
    fn found_by(entry: &EntryRef) -> Option<VacNo>
        ensures { result ≡ found_by entry.now }
    {
        let Reply::Unfilled { .. } = entry.reply() else {
            return None;
        };
        match entry.stated().cmd() {
            Cmd::Next { vac } => Some(*vac),
            _ => None,
        }
    }

    /// Remembers the vacancy that the next entry of a legal history tells to be unfilled, if it does: an entry that changes nothing.
    pub(crate) fn keep(&mut self, entry: &EntryRef)
        ensures { (h : History) → IsLegal h → IsNext h entry.now → changes entry.now.reply ≡ false → KeepsUnfilled self.old h
            → KeepsUnfilled self.new (with_entry h entry.now) }
    {
        a_refusal_changes_nothing();
        order_is_by_rank();
        if let Some(vac) = Unfilled::found_by(entry) {
            self.add(vac, entry.moment());
        }
    }

    // Remembers that the person was touched; forgets all where there is no room for them.
    fn touch(&mut self, person: PersonNo)
        ensures { (h later : History) → IsSameBut person h later → KeepsUnfilled self.old h → KeepsUnfilled self.new later }
    {
        if self.touched.len() < TOUCHED {
            self.touched.push_reserved(person);
        } else {
            self.forget();
        }
    }

    /// Remembers whom the next entry of a legal history touches, and forgets all where it may touch several.
    pub(crate) fn change(&mut self, entry: &EntryRef)
        ensures { (h : History) → IsLegal h → IsNext h entry.now → KeepsUnfilled self.old h
            → KeepsUnfilled self.new (with_entry h entry.now) }
    {
        what_an_entry_makes_of_the_desk();
        what_is_done_rests_on();
        if self.found.is_empty() {
            return;
        }
        match touched(entry) {
            Some(person) => self.touch(person),
            None => self.forget(),
        }
    }

    // Forgets all.
    fn forget(&mut self)
        ensures all { (h : History) → KeepsUnfilled self.new h }
        ensures room { length self.new.found.items < VACANCY_LIMIT }
    {
        self.found.clear();
        self.touched.clear();
    }
}
