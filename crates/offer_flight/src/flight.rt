ghost use Rattle.std.specs.Prelude.{◌≡◌, ◌+◌, ◌<◌, ◌≤◌, ◌==◌, ℕ, nat_eq, None, Some, IfOk, IfSome, if◌then◌else◌, [], length};
ghost use Rattle.std.specs.List.{IsDistinct};
ghost use Rattle.offer_flight.specs.Flight.{of_vacancy, of_person, persons_of, IsOneMap};

use crate::InFlight;
use crate::indexes::{copy_of, index_of_person, index_of_vacancy, put_in};
use desk_base::{NoMemory, PersonNo, VacNo};
use std::alloc::Global;
use std::marker::Model;

/// At most so many offers are open, as many as there are persons.
pub const OFFERS: usize = 1_000;

/// How many offers are open at most. It does nothing: its clause is the law.
pub fn the_most_open_offers()
    ensures { OFFERS ≡ 1_000 }
{}

/// The offers that are open: a map from vacancies in which no person stands twice. A contract sees their list, by rising
/// vacancy.
#[derive(Debug, Drop)]
pub struct Flight {
    by_vacancy: Vec<InFlight>,
    by_person: Vec<InFlight>,
}

impl Model for Flight {
    ghost use Rattle.std.specs.Prelude.{List, vec_capacity};
    ghost use Rattle.offer_flight.specs.declared.in_flight.InFlight.{InFlight};
    ghost use Rattle.offer_flight.specs.Kept.{AreKept};

    ghost Value = { List InFlight };

    ghost view = { λ f. f.by_vacancy.items };

    ghost invariant = { λ f. AreKept f.by_vacancy.items (vec_capacity f.by_vacancy)
        f.by_person.items (vec_capacity f.by_person) };
}

impl Flight {
    /// No offers, with memory for `OFFERS`; `NoMemory` where there is none for them.
    pub fn new(alloc: Global) -> Result<Flight, NoMemory>
        ensures { IfOk result (λ flight. flight ≡ []) }
    {
        Ok(Flight {
            by_vacancy: Vec::with_capacity(alloc, OFFERS)?,
            by_person: Vec::with_capacity(alloc, OFFERS)?,
        })
    }

    /// The same offers again, with memory for `OFFERS`; `NoMemory` where there is none for them.
    pub fn copy(&self, alloc: Global) -> Result<Flight, NoMemory>
        ensures { IfOk result (λ flight. flight ≡ self.now) }
    {
        Ok(Flight {
            by_vacancy: copy_of(alloc, &self.by_vacancy)?,
            by_person: copy_of(alloc, &self.by_person)?,
        })
    }

    /// How many offers are open, `OFFERS` at most.
    pub fn count(&self) -> usize
        ensures value { result ≡ length self.now }
        ensures most { result ≤ OFFERS }
    {
        self.by_vacancy.len()
    }

    /// Opens an offer. Neither the vacancy nor the person has one, and fewer than `OFFERS` are open. It takes no memory.
    pub fn start(&mut self, made: InFlight)
        requires vacancy { of_vacancy self.old made.vac ≡ None }
        requires person { of_person self.old made.person ≡ None }
        requires room { length self.old < OFFERS }
        ensures vacancies { (vac : ℕ) → of_vacancy self.new vac
            ≡ (if made.vac == vac then Some made else of_vacancy self.old vac) }
        ensures persons { (person : ℕ) → of_person self.new person
            ≡ (if made.person == person then Some made else of_person self.old person) }
        ensures count { length self.new ≡ length self.old + 1 }
    {
        let index = index_of_vacancy(&self.by_vacancy, made.vac);
        let again = index_of_person(&self.by_person, made.person);
        put_in(&mut self.by_vacancy, index, &made);
        put_in(&mut self.by_person, again, &made);
    }

    /// Takes out the open offer of a vacancy, and answers it; `None` where it has none, and then nothing changes.
    pub fn finish(&mut self, vac: VacNo) -> Option<InFlight>
        ensures value { result ≡ of_vacancy self.old vac }
        ensures none { result ≡ None → self.new ≡ self.old }
        ensures vacancies { (other : ℕ) → of_vacancy self.new other
            ≡ (if vac == other then None else of_vacancy self.old other) }
        ensures persons { IfSome result (λ done. (person : ℕ) → of_person self.new person
            ≡ (if done.person == person then None else of_person self.old person)) }
        ensures count { IfSome result (λ done. length self.new + 1 ≡ length self.old) }
    {
        let done = self.of_vacancy(vac)?;
        let index = index_of_vacancy(&self.by_vacancy, vac);
        let again = index_of_person(&self.by_person, done.person);
        self.by_vacancy.remove(index);
        self.by_person.remove(again);
        Some(done)
    }

    /// The open offer of a vacancy; `None` where it has none.
    pub fn of_vacancy(&self, vac: VacNo) -> Option<InFlight>
        ensures { result ≡ of_vacancy self.now vac }
    {
        let index = index_of_vacancy(&self.by_vacancy, vac);
        let found = self.by_vacancy.get(index)?;
        if found.vac == vac { Some(*found) } else { None }
    }

    /// The open offer to a person; `None` where they have none.
    pub fn of_person(&self, person: PersonNo) -> Option<InFlight>
        ensures { result ≡ of_person self.now person }
    {
        let index = index_of_person(&self.by_person, person);
        let found = self.by_person.get(index)?;
        if found.person == person {
            Some(*found)
        } else {
            None
        }
    }

    /// An offer is its vacancy's just where it is its person's, so that no person and no vacancy stands twice; and those to
    /// whom offers are open are all different. It changes nothing: its clauses are the law.
    pub fn no_person_stands_twice(&self)
        ensures one_map { IsOneMap self.now }
        ensures apart { IsDistinct nat_eq (persons_of self.now) }
    {
        let _kept = &self.by_vacancy;
    }
}
