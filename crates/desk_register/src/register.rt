ghost use Rattle.std.specs.Prelude.{◌≡◌, ◌<◌, ◌↔◌, ℕ, None, Some, IfSome, IfOk, nat_eq, is_none, option_and_then};
ghost use Rattle.indexmap.specs.IndexMap.{get};
ghost use Rattle.desk_model.specs.statements.Opening.{OpeningValue};
ghost use Rattle.desk_model.specs.statements.Entry.{EntryValue};
ghost use Rattle.desk_model.specs.histories.History.{History, opened, with_entry, is_done};
ghost use Rattle.desk_model.specs.declared.limits.TheConstants.{PERSON_LIMIT, VACANCY_LIMIT};
ghost use Rattle.desk_model.specs.histories.Register.{persons, vacancies};
ghost use Rattle.desk_model.specs.offers.TurnedDown.{has_turned_down};
ghost use Rattle.desk_model.specs.histories.Legal.{IsLegal, IsNext};
ghost use Rattle.desk_register.specs.Changes.{loser, offeree};
ghost use Rattle.desk_register.specs.Done.{IsDone};
ghost use Rattle.desk_register.specs.Among.{index_among};
ghost use Rattle.desk_register.specs.TurnedDown.{turned_vac};
ghost use Rattle.desk_register.specs.Vacancies.{vacancy_under, had_by, turner, turner_index, offered_vac, offered_person};
ghost use Rattle.desk_register.specs.Register.{roster_of, boards_kept, vacancies_kept, turned_down_of, Keeps};

use crate::boards::Boards;
use crate::kept_vacancy::{giver, target, turner};
use crate::person_index::PersonIndex;
use crate::roster::Roster;
use crate::turned_down::TurnedDown;
use crate::vacancies::Vacancies;
use crate::vacancy_index::VacancyIndex;
use desk_base::{NoMemory, PersonNo, VacNo};
use desk_model::{
    Cmd, EntryRef, Reply, VacState, a_vacancy_is_in_one_state, what_an_entry_makes_of_the_desk,
    what_is_done_rests_on,
};
use std::alloc::Global;

/// What a desk keeps of persons, boards and vacancies, each found by its number or code.
pub struct Register {
    pub(crate) persons: Roster,
    pub(crate) boards: Boards,
    pub(crate) vacancies: Vacancies,
    pub(crate) turned_down: TurnedDown,
}

// Whether the reply says that the command was done.
fn is_done(reply: Reply) -> bool
    ensures { result ≡ is_done reply }
{
    match reply {
        Reply::Done => true,
        _ => false,
    }
}

// The vacancy that the entry offers, and to whom.
fn offered(entry: &EntryRef) -> Option<(VacNo, PersonNo)>
    ensures some { IfSome result (λ x. (offered_vac entry.now ≡ Some x.0) × (offered_person entry.now ≡ Some x.1)) }
    ensures none { result ≡ None → offered_vac entry.now ≡ None }
{
    let Reply::Offered { person, .. } = entry.reply() else {
        return None;
    };
    match entry.stated().cmd() {
        Cmd::Next { vac } | Cmd::Offer { vac, .. } => Some((*vac, person)),
        _ => None,
    }
}

impl Register {
    /// That of a desk that has answered nothing yet, with memory for all that it may come to keep; `NoMemory` where there is
    /// none for it.
    pub fn new(alloc: Global) -> Result<Register, NoMemory>
        ensures { IfOk result (λ r. (o : OpeningValue) → Keeps r (opened o)) }
    {
        let persons = Roster::new(alloc)?;
        let boards = Boards::new(alloc)?;
        let vacancies = Vacancies::new(alloc)?;
        let turned_down = TurnedDown::new(alloc)?;
        Ok(Register {
            persons,
            boards,
            vacancies,
            turned_down,
        })
    }

    /// The same again, with memory of its own for all that it may come to keep; `NoMemory` where there is none for it.
    pub fn copy(&self, alloc: Global) -> Result<Register, NoMemory>
        ensures { IfOk result (λ r. (h : History) → Keeps r h ↔ Keeps self.now h) }
    {
        let persons = self.persons.copy(alloc)?;
        let boards = self.boards.copy(alloc)?;
        let vacancies = self.vacancies.copy(alloc)?;
        let turned_down = self.turned_down.copy(alloc)?;
        Ok(Register {
            persons,
            boards,
            vacancies,
            turned_down,
        })
    }

    /// The persons.
    pub fn persons(&self) -> &Roster
        ensures { result.now ≡ roster_of self.now }
    {
        &self.persons
    }

    /// The boards.
    pub fn boards(&self) -> &Boards
        ensures { result.now ≡ boards_kept self.now }
    {
        &self.boards
    }

    /// The vacancies.
    pub fn vacancies(&self) -> &Vacancies
        ensures { result.now ≡ vacancies_kept self.now }
    {
        &self.vacancies
    }

    /// Who has turned which vacancy down.
    pub fn turned_down(&self) -> &TurnedDown
        ensures { result.now ≡ turned_down_of self.now }
    {
        &self.turned_down
    }

    // To whom the vacancy is assigned that the command annuls.
    fn loser(&self, cmd: &Cmd) -> Option<PersonNo>
        ensures { (h : History) → Keeps self.now h → result ≡ loser h cmd.now }
    {
        let Cmd::Annul { vac } = cmd else {
            return None;
        };
        match self.vacancies.get(*vac)?.state {
            VacState::Taken(person) => Some(person),
            _ => None,
        }
    }

    // Whose open offer the command settles.
    fn offeree(&self, cmd: &Cmd) -> Option<PersonNo>
        ensures { (h : History) → Keeps self.now h → result ≡ offeree h cmd.now }
    {
        match cmd {
            Cmd::Accept { person, .. }
            | Cmd::Decline { person, .. }
            | Cmd::NoAnswer { person, .. }
            | Cmd::Withdraw { person, .. } => Some(*person),
            Cmd::Annul { vac } => match self.vacancies.get(*vac)?.state {
                VacState::OnOffer(person) => Some(person),
                _ => None,
            },
            _ => None,
        }
    }

    // What is assigned to the person whom the command names that may take it from them.
    fn had_by(&self, cmd: &Cmd) -> Option<VacNo>
        ensures { (h : History) → Keeps self.now h → result ≡ had_by h cmd.now }
    {
        self.persons.get(giver(cmd)?)?.assigned
    }

    // The index of who turns a vacancy down by the command.
    fn turner_index(&self, cmd: &Cmd) -> Option<PersonIndex>
        ensures index { (h : History) → Keeps self.now h → result ≡ turner_index (persons h) cmd.now }
        ensures found { (p : ℕ) → turner cmd.now ≡ Some p → is_none result ≡ is_none (get nat_eq self.now.persons.kept p) }
    {
        self.persons.index(turner(cmd)?)
    }

    // The index of the vacancy that is turned down by the command.
    fn turned_index(&self, cmd: &Cmd) -> Option<VacancyIndex>
        ensures index { (h : History) → Keeps self.now h → result ≡ option_and_then (index_among (vacancies h)) (turned_vac h cmd.now) }
        ensures found { (h : History) (v : ℕ) → Keeps self.now h → turned_vac h cmd.now ≡ Some v → is_none result ≡ is_none (vacancy_under self.now.vacancies v) }
    {
        turner(cmd)?;
        self.vacancies.index(target(cmd, self.had_by(cmd))?)
    }

    // Keeps what a command changes that was done.
    fn change(&mut self, cmd: &Cmd)
        ensures { (h : History) (e : EntryValue) → IsLegal h → IsNext h e → IsDone e cmd.now → Keeps self.old h → Keeps self.new (with_entry h e) }
    {
        what_an_entry_makes_of_the_desk();
        a_vacancy_is_in_one_state();
        let lost = self.loser(cmd);
        let settled = self.offeree(cmd);
        let had = self.had_by(cmd);
        let turner = self.turner_index(cmd);
        let turned = self.turned_index(cmd);
        self.persons.change(cmd, lost, settled);
        self.boards.change(cmd);
        self.vacancies.change(cmd, had);
        self.turned_down.keep(turner, turned);
    }

    /// Keeps what an entry changes, the next one of a legal history; of any other entry nothing is promised.
    pub fn keep(&mut self, entry: &EntryRef)
        ensures { (h : History) → IsLegal h → IsNext h entry.now → Keeps self.old h → Keeps self.new (with_entry h entry.now) }
    {
        what_an_entry_makes_of_the_desk();
        what_is_done_rests_on();
        if is_done(entry.reply()) {
            self.change(entry.stated().cmd());
        } else if let Some((vac, person)) = offered(entry) {
            self.persons.put_offer(Some(person), Some(vac));
            self.vacancies.offer(vac, person);
        }
    }

    /// Whether the person has turned the vacancy down.
    pub fn has_turned_down(&self, vac: VacNo, person: PersonNo) -> bool
        ensures { (h : History) → Keeps self.now h → result ≡ has_turned_down h vac person }
    {
        match (self.persons.index(person), self.vacancies.index(vac)) {
            (Some(person), Some(vacancy)) => self.turned_down.has(person, vacancy),
            _ => false,
        }
    }
}

impl Drop for Register {
    fn drop(self) {
        let Self {
            persons: _,
            boards: _,
            vacancies: _,
            turned_down: _,
        } = self;
    }
}
