ghost use Rattle.std.specs.Prelude.{◌≤◌, ◌+◌, ◌≡◌, ◌<◌, ℕ, nat_eq, if◌then◌else◌, Option, true, None, Some, OnOk, is_some, IfOk, IfSome, List, [], ◌∷◌, ◌++◌, length};
ghost use Rattle.indexmap.specs.IndexMap.{spare, index_map_len, get, keys};
ghost use Rattle.desk_model.specs.declared.limits.TheConstants.{PERSON_LIMIT};
ghost use Rattle.std.specs.Option.{option_copied, option_map};
ghost use Rattle.desk_register.specs.Among.{index_among, board_index};
ghost use Rattle.std.specs.List.{cons_option};
ghost use Rattle.desk_model.specs.histories.Register.{enrols_any, person_of, board_of, persons, boards};
ghost use Rattle.desk_model.specs.statements.Entry.{EntryValue};
ghost use Rattle.desk_model.specs.histories.History.{History, with_entry};
ghost use Rattle.desk_model.specs.histories.Legal.{IsLegal, IsNext};
ghost use Rattle.desk_register.specs.Changes.{subject, changed, freed, with_offer, put_under, put_enrolled, CanEnrol, loser, offeree};
ghost use Rattle.desk_register.specs.Done.{IsDone};

use crate::add_last::add_last;
use crate::copy_of::copy_of;
use crate::enrolled::Enrolled;
use crate::find_in::{HINT_BITS, Indexed, find_in};
use crate::kept_person::{KeptPerson, subject};
use crate::person_index::PersonIndex;
use crate::row_hasher::RowHasher;
use desk_base::{IndexHints, NoMemory, PersonNo, VacNo};
use desk_model::{
    Cmd, PERSON_LIMIT, a_vacancy_is_in_one_state, one_offer_to_a_person,
    what_an_entry_makes_of_the_desk, what_is_done_rests_on,
};
use indexmap::IndexMap;
use std::alloc::Global;
use std::hash::BuildHasherDefault;

/// The enrolled persons, in the order in which they came, with room for 1,000.
#[derive(Drop)]
pub struct Roster {
    pub(crate) kept: IndexMap<PersonNo, KeptPerson, BuildHasherDefault<RowHasher>>,
    pub(crate) hints: IndexHints,
    ghost room: { PERSON_LIMIT ≤ index_map_len kept + spare kept },
    ghost few: { index_map_len kept ≤ PERSON_LIMIT },
}

/// Who is enrolled has an index among all persons, and nobody else has; and a board that was set up among all boards, and no other
/// code. It does nothing: its clauses are the laws.
pub fn who_is_enrolled_has_an_index()
    ensures persons { (h : History) (p : ℕ) → is_some (index_among (persons h) p) ≡ is_some (person_of h p) }
    ensures boards { (h : History) (b : List ℕ) → is_some (board_index (boards h) b) ≡ is_some (board_of h b) }
{}

impl Roster {
    ghost use Rattle.desk_register.specs.Persons.{person_under, person_numbers, KeepsPersons};

    /// Nobody, with memory for 1,000; `NoMemory` where there is none for them.
    pub fn new(alloc: Global) -> Result<Roster, NoMemory>
        ensures under { IfOk result (λ r. (p : ℕ) → person_under r p ≡ None) }
        ensures keys { IfOk result (λ r. person_numbers r ≡ []) }
    {
        let kept = IndexMap::with_capacity_and_hasher(
            alloc,
            PERSON_LIMIT,
            BuildHasherDefault::new(),
        )?;
        let hints = IndexHints::new(alloc, HINT_BITS)?;
        Ok(Roster { kept, hints })
    }

    /// The same persons in the same order, with memory for 1,000; `NoMemory` where there is none for them.
    pub(crate) fn copy(&self, alloc: Global) -> Result<Roster, NoMemory>
        ensures under { IfOk result (λ r. person_under r ≡ person_under self.now) }
        ensures keys { IfOk result (λ r. person_numbers r ≡ person_numbers self.now) }
    {
        Ok(Roster {
            kept: copy_of(alloc, &self.kept, PERSON_LIMIT)?,
            hints: self.hints.copy(alloc)?,
        })
    }

    // What is kept of this person, and at which index of the map; `None` where nobody has the number.
    fn found(&self, person: PersonNo) -> Option<Indexed<'_, KeptPerson>>
        ensures index { option_map (λ x. x.index) result ≡ index_among (person_numbers self.now) person }
        ensures kept { option_map (λ x. x.value.now) result ≡ person_under self.now person }
        ensures range { IfSome result (λ x. x.index < PERSON_LIMIT) }
    {
        find_in(&self.kept, &person, self.hints.of(person.number()))
    }

    /// What is kept of this person; `None` where nobody has the number.
    pub fn get(&self, person: PersonNo) -> Option<&KeptPerson>
        ensures { option_copied result ≡ person_under self.now person }
    {
        Some(self.found(person)?.value)
    }

    /// The index of this person among all, below 1,000; `None` where nobody has the number.
    pub fn index(&self, person: PersonNo) -> Option<PersonIndex>
        ensures index { result ≡ index_among (person_numbers self.now) person }
        ensures found { is_some result ≡ is_some (person_under self.now person) }
    {
        PersonIndex::new(self.found(person)?.index)
    }

    /// The index of this person among all, below 1,000, and what is kept of them; `None` where nobody has the number.
    pub fn find(&self, person: PersonNo) -> Option<Enrolled<'_>>
        ensures index { option_map (λ x. x.index) result ≡ index_among (person_numbers self.now) person }
        ensures kept { option_map (λ x. x.kept.now) result ≡ person_under self.now person }
    {
        let found = self.found(person)?;
        Some(Enrolled {
            index: PersonIndex::new(found.index)?,
            kept: found.value,
        })
    }

    /// How many are enrolled.
    pub fn count(&self) -> usize
        ensures { result ≡ length (person_numbers self.now) }
    {
        self.kept.len()
    }

    pub(crate) fn add(&mut self, person: PersonNo, kept: KeptPerson)
        requires new { person_under self.old person ≡ None }
        requires few { length (person_numbers self.old) < PERSON_LIMIT }
        ensures get { (q : ℕ) → person_under self.new q ≡ (if nat_eq person q then Some kept else person_under self.old q) }
        ensures keys { person_numbers self.new ≡ person_numbers self.old ++ person ∷ [] }
    {
        self.hints.set(person.number(), self.kept.len());
        add_last(&mut self.kept, person, kept);
    }

    // Adds who is enrolled, where they are new and there is room.
    fn enrol(&mut self, cmd: &Cmd)
        ensures under { CanEnrol (enrols_any cmd.now) (get nat_eq self.old.kept) (keys self.old.kept)
            → (q : ℕ) → get nat_eq self.new.kept q ≡ put_enrolled cmd.now (get nat_eq self.old.kept) q }
        ensures keys { CanEnrol (enrols_any cmd.now) (get nat_eq self.old.kept) (keys self.old.kept)
            → keys self.new.kept ≡ keys self.old.kept ++ cons_option (enrols_any cmd.now) [] }
    {
        let Cmd::Enrol {
            person,
            craft,
            home,
            quals,
        } = cmd
        else {
            return;
        };
        if self.get(*person).is_none() && self.count() < PERSON_LIMIT {
            self.add(*person, KeptPerson::enrolled(*craft, *home, *quals));
        }
    }

    // Changes what is kept of whom the command changes.
    fn change_subject(&mut self, cmd: &Cmd)
        ensures under { (q : ℕ) → get nat_eq self.new.kept q ≡ put_under (subject cmd.now) (changed cmd.now) (get nat_eq self.old.kept) q }
        ensures keys { keys self.new.kept ≡ keys self.old.kept }
    {
        let Some(person) = subject(cmd) else {
            return;
        };
        let Some(found) = self.found(person) else {
            return;
        };
        let at = found.index;
        if let Some(kept) = self.kept.get_index_mut(at) {
            kept.change(cmd);
        }
    }

    // Takes from this person what is assigned to them.
    fn free(&mut self, person: Option<PersonNo>)
        ensures under { (q : ℕ) → get nat_eq self.new.kept q ≡ put_under person freed (get nat_eq self.old.kept) q }
        ensures keys { keys self.new.kept ≡ keys self.old.kept }
    {
        let Some(person) = person else {
            return;
        };
        let Some(found) = self.found(person) else {
            return;
        };
        let at = found.index;
        if let Some(kept) = self.kept.get_index_mut(at) {
            kept.assigned = None;
        }
    }

    /// Keeps that this is on offer to the person.
    pub(crate) fn put_offer(&mut self, person: Option<PersonNo>, on_offer: Option<VacNo>)
        ensures under { (q : ℕ) → get nat_eq self.new.kept q ≡ put_under person (with_offer on_offer) (get nat_eq self.old.kept) q }
        ensures keys { keys self.new.kept ≡ keys self.old.kept }
    {
        let Some(person) = person else {
            return;
        };
        let Some(found) = self.found(person) else {
            return;
        };
        let at = found.index;
        if let Some(kept) = self.kept.get_index_mut(at) {
            kept.on_offer = on_offer;
        }
    }

    /// Keeps what a command changes that was done; `lost` is to whom the vacancy was assigned that it annuls, and `settled` whose
    /// open offer it settles.
    pub(crate) fn change(&mut self, cmd: &Cmd, lost: Option<PersonNo>, settled: Option<PersonNo>)
        ensures { (h : History) (e : EntryValue) → IsLegal h → IsNext h e → IsDone e cmd.now → lost ≡ loser h cmd.now
            → settled ≡ offeree h cmd.now → KeepsPersons self.old h → KeepsPersons self.new (with_entry h e) }
    {
        what_an_entry_makes_of_the_desk();
        what_is_done_rests_on();
        a_vacancy_is_in_one_state();
        one_offer_to_a_person();
        self.enrol(cmd);
        self.free(lost);
        self.change_subject(cmd);
        self.put_offer(settled, None);
    }
}
