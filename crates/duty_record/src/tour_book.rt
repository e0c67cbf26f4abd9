ghost use Rattle.std.specs.Prelude.{[], List, MatchResult, OnOk, IfOk, IsSome, is_ok, ℕ, nat_eq, if◌then◌else◌};
ghost use Rattle.indexmap.specs.IndexMap.{get};
ghost use Rattle.duty_record.specs.Deeds.{Deed, deed_of, keep};
ghost use Rattle.duty_record.specs.Kept.{TakesAt, AreTours, AreRising};

use crate::person_tours::PersonTours;
use crate::put::put;
use desk_base::{NoMemory, PersonNo, VacNo};
use duty_events::Event;
use indexmap::IndexMap;
use std::alloc::Global;

/// What is kept of all persons, in the order in which they first did something.
#[derive(Drop)]
pub(crate) struct TourBook {
    pub(crate) alloc: Global,
    pub(crate) people: IndexMap<PersonNo, PersonTours>,
}

impl TourBook {
    /// Nobody did anything yet.
    pub(crate) fn new(alloc: Global) -> TourBook
        ensures { AreTours result (λ _. []) }
    {
        TourBook {
            alloc,
            people: IndexMap::new(alloc),
        }
    }

    /// Takes in what a person did next; on `NoMemory` all stays as it was.
    pub(crate) fn tell(
        &mut self,
        person: PersonNo,
        event: &Event,
        vacancy: Option<VacNo>,
    ) -> Result<(), NoMemory>
        ensures { (did : ℕ → List Deed) → AreTours self.old did → MatchResult result
            (λ _. AreTours self.new (λ p. if nat_eq person p then keep (did p) (deed_of event.now vacancy) else did p))
            (λ _. AreTours self.new did) }
    {
        self.add(person)?;
        self.take(person, event, vacancy)
    }

    // What is kept of the person takes it in.
    fn take(
        &mut self,
        person: PersonNo,
        event: &Event,
        vacancy: Option<VacNo>,
    ) -> Result<(), NoMemory>
        ensures { (p : ℕ) → TakesAt (nat_eq person p) (is_ok result) (deed_of event.now vacancy)
            (get nat_eq self.old.people p) (get nat_eq self.new.people p) }
    {
        match self.people.get_mut(&person) {
            Some(kept) => kept.take(event, vacancy),
            None => Ok(()),
        }
    }

    // Keeps something of the person, where nothing is kept yet.
    fn add(&mut self, person: PersonNo) -> Result<(), NoMemory>
        ensures stay { (did : ℕ → List Deed) → AreTours self.old did → AreTours self.new did }
        ensures has { OnOk result (IsSome (get nat_eq self.new.people person)) }
    {
        person.number();
        if !self.people.contains_key(&person) {
            put(&mut self.people, person, PersonTours::new(self.alloc))?;
        }
        Ok(())
    }

    /// Those of whom something is kept, by rising number; `NoMemory` where there is none for the list.
    pub(crate) fn persons(&self) -> Result<Vec<PersonNo>, NoMemory>
        ensures { IfOk result (λ all. AreRising self.now all.items) }
    {
        let mut all = Vec::new(self.alloc);
        for person in self.people.keys() {
            all.push(*person)?;
        }
        all.sort_unstable();
        Ok(all)
    }
}
