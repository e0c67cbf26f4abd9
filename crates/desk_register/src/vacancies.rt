ghost use Rattle.std.specs.Prelude.{◌≤◌, ◌+◌, ◌≡◌, ◌<◌, ◌++◌, ◌∷◌, [], ℕ, nat_eq, if◌then◌else◌, None, Some, IfOk, IfSome, is_some, length};
ghost use Rattle.indexmap.specs.IndexMap.{spare, index_map_len, get, keys};
ghost use Rattle.desk_model.specs.declared.limits.TheConstants.{VACANCY_LIMIT};
ghost use Rattle.std.specs.Option.{option_copied, option_map};
ghost use Rattle.desk_register.specs.Among.{index_among};
ghost use Rattle.std.specs.List.{cons_option};
ghost use Rattle.desk_model.specs.histories.Register.{makes_any};
ghost use Rattle.desk_model.specs.statements.Entry.{EntryValue};
ghost use Rattle.desk_model.specs.histories.History.{History, with_entry};
ghost use Rattle.desk_model.specs.histories.Legal.{IsLegal, IsNext};
ghost use Rattle.desk_register.specs.Done.{IsDone};

use crate::add_last::add_last;
use crate::copy_of::copy_of;
use crate::find_in::{HINT_BITS, Indexed, find_in};
use crate::kept_vacancy::{KeptVacancy, target};
use crate::row_hasher::RowHasher;
use crate::vacancy_index::VacancyIndex;
use desk_base::{IndexHints, NoMemory, PersonNo, VacNo};
use desk_model::{
    Cmd, Job, VACANCY_LIMIT, VacState, a_vacancy_is_in_one_state, what_an_entry_makes_of_the_desk,
};
use indexmap::IndexMap;
use std::alloc::Global;
use std::hash::BuildHasherDefault;

/// The vacancies that were made, in the order in which they came, with room for 20,000.
#[derive(Drop)]
pub struct Vacancies {
    pub(crate) kept: IndexMap<VacNo, KeptVacancy, BuildHasherDefault<RowHasher>>,
    pub(crate) hints: IndexHints,
    ghost room: { VACANCY_LIMIT ≤ index_map_len kept + spare kept },
    ghost few: { index_map_len kept ≤ VACANCY_LIMIT },
}

impl Vacancies {
    ghost use Rattle.desk_register.specs.Vacancies.{vacancy_under, vacancy_numbers, CanMake, Makes, Changes, had_by, on_offer_to, KeepsVacancies};

    /// No vacancies, with memory for 20,000; `NoMemory` where there is none for them.
    pub fn new(alloc: Global) -> Result<Vacancies, NoMemory>
        ensures under { IfOk result (λ r. (v : ℕ) → vacancy_under r v ≡ None) }
        ensures keys { IfOk result (λ r. vacancy_numbers r ≡ []) }
    {
        let kept = IndexMap::with_capacity_and_hasher(
            alloc,
            VACANCY_LIMIT,
            BuildHasherDefault::new(),
        )?;
        let hints = IndexHints::new(alloc, HINT_BITS)?;
        Ok(Vacancies { kept, hints })
    }

    /// The same vacancies in the same order, with memory for 20,000; `NoMemory` where there is none for them.
    pub(crate) fn copy(&self, alloc: Global) -> Result<Vacancies, NoMemory>
        ensures under { IfOk result (λ r. vacancy_under r ≡ vacancy_under self.now) }
        ensures keys { IfOk result (λ r. vacancy_numbers r ≡ vacancy_numbers self.now) }
    {
        Ok(Vacancies {
            kept: copy_of(alloc, &self.kept, VACANCY_LIMIT)?,
            hints: self.hints.copy(alloc)?,
        })
    }

    // What is kept of this vacancy, with its index among all; `None` where it was never made.
    pub(crate) fn find(&self, vac: VacNo) -> Option<Indexed<'_, KeptVacancy>>
        ensures index { option_map (λ x. x.index) result ≡ index_among (vacancy_numbers self.now) vac }
        ensures kept { option_map (λ x. x.value.now) result ≡ vacancy_under self.now vac }
        ensures range { IfSome result (λ x. x.index < VACANCY_LIMIT) }
    {
        find_in(&self.kept, &vac, self.hints.of(vac.number()))
    }

    /// What is kept of this vacancy; `None` where it was never made.
    pub fn get(&self, vac: VacNo) -> Option<&KeptVacancy>
        ensures { option_copied result ≡ vacancy_under self.now vac }
    {
        Some(self.find(vac)?.value)
    }

    /// The index of this vacancy among all, below 20,000; `None` where it was never made.
    pub fn index(&self, vac: VacNo) -> Option<VacancyIndex>
        ensures index { result ≡ index_among (vacancy_numbers self.now) vac }
        ensures found { is_some result ≡ is_some (vacancy_under self.now vac) }
    {
        VacancyIndex::new(self.find(vac)?.index)
    }

    /// How many were made.
    pub fn count(&self) -> usize
        ensures { result ≡ length (vacancy_numbers self.now) }
    {
        self.kept.len()
    }

    pub(crate) fn add(&mut self, vac: VacNo, kept: KeptVacancy)
        requires new { vacancy_under self.old vac ≡ None }
        requires few { length (vacancy_numbers self.old) < VACANCY_LIMIT }
        ensures under { (v : ℕ) → vacancy_under self.new v ≡ (if nat_eq vac v then Some kept else vacancy_under self.old v) }
        ensures keys { vacancy_numbers self.new ≡ vacancy_numbers self.old ++ vac ∷ [] }
    {
        self.hints.set(vac.number(), self.kept.len());
        add_last(&mut self.kept, vac, kept);
    }

    // Adds the vacancy that is made, where it is new and there is room.
    fn make(&mut self, cmd: &Cmd)
        ensures under { CanMake (makes_any cmd.now) (get nat_eq self.old.kept) (keys self.old.kept)
            → Makes cmd.now (get nat_eq self.old.kept) (get nat_eq self.new.kept) }
        ensures keys { CanMake (makes_any cmd.now) (get nat_eq self.old.kept) (keys self.old.kept)
            → keys self.new.kept ≡ keys self.old.kept ++ cons_option (makes_any cmd.now) [] }
    {
        let Cmd::Vacancy(job) = cmd else {
            return;
        };
        let vac = job.vac();
        if self.get(vac).is_none() && self.count() < VACANCY_LIMIT {
            self.add(vac, KeptVacancy::made(*job));
        }
    }

    // Changes the vacancy whose state the command changes.
    fn change_target(&mut self, cmd: &Cmd, had: Option<VacNo>)
        ensures under { Changes cmd.now had (get nat_eq self.old.kept) (get nat_eq self.new.kept) }
        ensures keys { keys self.new.kept ≡ keys self.old.kept }
    {
        let Some(vac) = target(cmd, had) else {
            return;
        };
        let Some(found) = self.find(vac) else {
            return;
        };
        let at = found.index;
        if let Some(kept) = self.kept.get_index_mut(at) {
            kept.change(cmd);
        }
    }

    /// Keeps what a command changes that was done. `had` is what is assigned to the person whom it names that may take it
    /// from them.
    pub(crate) fn change(&mut self, cmd: &Cmd, had: Option<VacNo>)
        ensures { (h : History) (e : EntryValue) → IsLegal h → IsNext h e → IsDone e cmd.now → had ≡ had_by h cmd.now
            → KeepsVacancies self.old h → KeepsVacancies self.new (with_entry h e) }
    {
        what_an_entry_makes_of_the_desk();
        a_vacancy_is_in_one_state();
        self.make(cmd);
        self.change_target(cmd, had);
    }

    /// Keeps that the vacancy is on offer to the person.
    pub(crate) fn offer(&mut self, vac: VacNo, person: PersonNo)
        ensures under { (v : ℕ) → get nat_eq self.new.kept v
            ≡ (if nat_eq vac v then option_map (on_offer_to person) (get nat_eq self.old.kept v) else get nat_eq self.old.kept v) }
        ensures keys { keys self.new.kept ≡ keys self.old.kept }
    {
        let Some(found) = self.find(vac) else {
            return;
        };
        let at = found.index;
        if let Some(kept) = self.kept.get_index_mut(at) {
            kept.state = VacState::OnOffer(person);
        }
    }
}
