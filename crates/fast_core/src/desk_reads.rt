//! What a desk tells of the history that it stands for.

use crate::kept_desk::KeptDesk;
use denial_rules::Bar;
use desk_answers::Reads;
use desk_base::{Code, Minute, Month, PersonNo, VacNo};
use desk_model::{BoardSetup, Chain, Job, Link, Offer, Opening, Person, VacState};
use duty_events::{Event, EventFault, Stage};
use slot_tree::Steps;
use std::marker::PhantomData;
use std::sync::ledger::Ledger;

/// A desk that is asked, with searches whose steps are counted in this ledger.
#[derive(Drop)]
pub(crate) struct DeskReads<'a, L: Ledger> {
    pub desk: &'a KeptDesk,
    pub ledger: PhantomData<L>,
}

impl<L: Ledger> Reads for DeskReads<'_, L> {
    ghost use Rattle.std.specs.Prelude.{⊤};
    ghost use Rattle.fast_core.specs.KeptDesk.{Tells};
    ghost use Rattle.fast_core.specs.Search.{search_steps};

    type Work = Steps<L>;

    ghost tells = { λ looks h. Tells looks.desk.now h };

    ghost legal = { λ looks h tells. tells.legal };

    ghost suits = { λ _ _. ⊤ };

    ghost steps = { λ work. work };

    ghost most = { λ _ h m job. search_steps h m job };

    fn opening(&self) -> Opening {
        self.desk.opening
    }

    fn last_moment(&self) -> Minute {
        self.desk.last
    }

    fn person(&self, person: PersonNo) -> Option<Person> {
        let kept = self.desk.people.register.persons().get(person)?;
        Some(kept.person)
    }

    fn person_count(&self) -> usize {
        self.desk.people.register.persons().count()
    }

    fn board(&self, board: &Code) -> Option<BoardSetup> {
        self.desk.people.register.boards().get(board).copied()
    }

    fn board_count(&self) -> usize {
        self.desk.people.register.boards().count()
    }

    fn vacancy(&self, vac: VacNo) -> Option<Job> {
        let kept = self.desk.people.register.vacancies().get(vac)?;
        Some(kept.job)
    }

    fn vacancy_count(&self) -> usize {
        self.desk.people.register.vacancies().count()
    }

    fn state(&self, vac: VacNo) -> VacState {
        match self.desk.people.register.vacancies().get(vac) {
            Some(kept) => kept.state,
            None => VacState::Vacant,
        }
    }

    fn is_on(&self, person: PersonNo, board: &Code) -> bool {
        self.desk.is_on(person, board)
    }

    fn list_count(&self, person: PersonNo) -> usize {
        self.desk.list_count(person)
    }

    fn member_count(&self, _work: &mut Steps<L>, board: &Code) -> u16 {
        self.desk.member_count(board)
    }

    fn member_at(&self, _work: &mut Steps<L>, board: &Code, position: u16) -> Option<PersonNo> {
        self.desk.member_at(board, position)
    }

    fn is_marked_off(&self, person: PersonNo) -> bool {
        match self.desk.people.register.persons().get(person) {
            Some(kept) => kept.marked_off,
            None => false,
        }
    }

    fn assigned(&self, person: PersonNo) -> Option<VacNo> {
        self.desk.people.register.persons().get(person)?.assigned
    }

    fn is_closed(&self, person: PersonNo) -> bool {
        match self.desk.people.register.persons().get(person) {
            Some(kept) => kept.closed,
            None => false,
        }
    }

    fn offer(&self, vac: VacNo) -> Option<Offer> {
        self.desk.offer(vac)
    }

    fn on_offer(&self, person: PersonNo) -> Option<VacNo> {
        self.desk.people.register.persons().get(person)?.on_offer
    }

    fn allow(
        &self,
        _work: &mut Steps<L>,
        person: PersonNo,
        event: &Event,
    ) -> Result<Stage, EventFault> {
        self.desk.people.allow(person, event)
    }

    fn used(&self, _work: &mut Steps<L>, person: PersonNo, month: Month) -> u32 {
        self.desk.people.used(person, month)
    }

    fn capped(&self, _work: &mut Steps<L>, person: PersonNo, month: Month) -> u32 {
        self.desk.people.capped(person, month)
    }

    fn bar(
        &self,
        _work: &mut Steps<L>,
        moment: Minute,
        job: &Job,
        number: PersonNo,
        _person: &Person,
    ) -> Option<Bar> {
        self.desk.bar(moment, job, number)
    }

    fn first_free(&self, work: &mut Steps<L>, moment: Minute, job: &Job) -> Option<Link> {
        if self.desk.is_unfilled(moment, job) {
            return None;
        }
        self.desk
            .first_free(&self.desk.job_asked(moment, job), work)
    }

    fn position_in(&self, _work: &mut Steps<L>, boards: &Chain, person: PersonNo) -> Option<Link> {
        self.desk.position_in(boards, person)
    }

    fn listed(&self, _work: &mut Steps<L>, boards: &Chain) -> u16 {
        self.desk.listed(boards)
    }
}
