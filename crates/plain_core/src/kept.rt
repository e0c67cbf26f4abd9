mod bars;
mod chains;

ghost use Rattle.std.specs.Prelude.{◌≡◌, ◌≤◌, [], length, vec_len, vec_capacity};
ghost use Rattle.duty_events.specs.Lists.{IsLawful};
ghost use Rattle.desk_model.specs.histories.History.{history_of};
ghost use Rattle.desk_model.specs.histories.Legal.{IsLegal};

use crate::assigned::assigned;
use crate::boards::{count_boards_of, is_on};
use crate::duty::{gather, is_closed, latest};
use crate::lists::Lists;
use crate::marks::is_marked_off;
use crate::offers::{on_offer, open_offer};
use crate::order::fill;
use crate::register::{
    board_of, count_boards, count_persons, count_vacancies, person_of, vacancy_of,
};
use crate::states::state_of;
use denial_rules::Bar;
use desk_answers::Reads;
use desk_base::{Code, Minute, Month, PersonNo, VacNo};
use desk_model::{
    BoardSetup, Chain, Entry, Job, Link, Offer, Opening, Person, VacState, a_legal_history_fits,
    last_moment,
};
use duty_events::{Event, EventFault, Stage, allowed, stage_of};
use month_hours::{capped, used};

/// A legal history: how the desk was opened, and its entries.
#[derive(Drop)]
pub(crate) struct Kept {
    pub opening: Opening,
    pub entries: Vec<Entry>,
    ghost legal: { ∥ IsLegal (history_of opening entries.items) ∥₁ },
}

impl Kept {
    ghost use Rattle.desk_model.specs.declared.limits.TheConstants.{MEMBER_LIMIT};
    ghost use Rattle.desk_model.specs.histories.History.{History, opened};
    ghost use Rattle.desk_model.specs.boards.Boards.{order};
    ghost use Rattle.desk_model.specs.histories.Duty.{events};
    ghost use Rattle.plain_core.specs.Kept.{IsKept};

    /// The history of a desk that was opened so and has answered nothing yet, in a list that has room for its entries.
    pub(crate) fn new(opening: Opening, entries: Vec<Entry>) -> Kept
        requires { entries.items ≡ [] }
        ensures opening { result.opening ≡ opening }
        ensures entries { result.entries ≡ entries }
        ensures kept { IsKept result.opening result.entries.items (opened opening) }
    {
        opening.answer();
        Kept { opening, entries }
    }

    /// Puts the persons on the board into a list that has room for them, in their order, and nothing else.
    pub(crate) fn fill_members(&self, board: &Code, members: &mut Vec<PersonNo>)
        requires { vec_capacity self.now.entries ≤ vec_capacity members.old }
        ensures order { (h : History) → IsKept self.now.opening self.now.entries.items h
            → members.new.items ≡ order h board.now }
        ensures few { vec_len members.new ≤ MEMBER_LIMIT }
        ensures room { vec_capacity members.new ≡ vec_capacity members.old }
    {
        fill(&self.entries, board, members);
    }

    /// Puts the person's events into a list that has room for them, and nothing else.
    pub(crate) fn fill_events(&self, person: PersonNo, list: &mut Vec<Event>)
        requires { vec_capacity self.now.entries ≤ vec_capacity list.old }
        ensures events { (h : History) → IsKept self.now.opening self.now.entries.items h
            → list.new.items ≡ events h person }
        ensures lawful { IsLawful list.new.items }
        ensures room { vec_capacity list.new ≡ vec_capacity list.old }
    {
        gather(&self.entries, person, list);
    }
}

impl Reads for Kept {
    ghost use Rattle.plain_core.specs.Kept.{IsKept};
    ghost use Rattle.plain_core.specs.Room.{HasRoom};

    type Work = Lists;

    ghost tells = { λ kept h. IsKept kept.opening kept.entries.items h };

    ghost legal = { λ kept h is. is.legal };

    ghost suits = { λ kept lists. HasRoom (vec_capacity kept.entries) lists };

    // Its searches count no steps.
    ghost steps = { λ _. 0 };

    ghost most = { λ _ _ _ _. 0 };

    fn opening(&self) -> Opening {
        self.opening
    }

    fn last_moment(&self) -> Minute {
        last_moment(&self.opening, &self.entries)
    }

    fn person(&self, person: PersonNo) -> Option<Person> {
        person_of(&self.entries, person)
    }

    fn person_count(&self) -> usize {
        count_persons(&self.entries)
    }

    fn board(&self, board: &Code) -> Option<BoardSetup> {
        board_of(&self.entries, board)
    }

    fn board_count(&self) -> usize {
        count_boards(&self.entries)
    }

    fn vacancy(&self, vac: VacNo) -> Option<Job> {
        vacancy_of(&self.entries, vac)
    }

    fn vacancy_count(&self) -> usize {
        count_vacancies(&self.entries)
    }

    fn state(&self, vac: VacNo) -> VacState {
        state_of(&self.entries, vac)
    }

    fn is_on(&self, person: PersonNo, board: &Code) -> bool {
        is_on(&self.entries, person, board)
    }

    fn list_count(&self, person: PersonNo) -> usize {
        count_boards_of(&self.entries, person)
    }

    fn member_count(&self, work: &mut Lists, board: &Code) -> u16 {
        self.fill_members(board, &mut work.members);
        work.members.len() as u16
    }

    fn member_at(&self, work: &mut Lists, board: &Code, position: u16) -> Option<PersonNo> {
        self.fill_members(board, &mut work.members);
        work.members
            .get(usize::from(position).saturating_sub(1))
            .copied()
    }

    fn is_marked_off(&self, person: PersonNo) -> bool {
        is_marked_off(&self.entries, person)
    }

    fn assigned(&self, person: PersonNo) -> Option<VacNo> {
        assigned(&self.entries, person)
    }

    fn is_closed(&self, person: PersonNo) -> bool {
        is_closed(&self.entries, person)
    }

    fn offer(&self, vac: VacNo) -> Option<Offer> {
        a_legal_history_fits();
        open_offer(&self.entries, vac)
    }

    fn on_offer(&self, person: PersonNo) -> Option<VacNo> {
        on_offer(&self.entries, person)
    }

    fn allow(
        &self,
        work: &mut Lists,
        person: PersonNo,
        event: &Event,
    ) -> Result<Stage, EventFault> {
        self.fill_events(person, &mut work.events);
        let events = work.events.as_slice();
        allowed(stage_of(events), *event, latest(events))
    }

    fn used(&self, work: &mut Lists, person: PersonNo, month: Month) -> u32 {
        self.fill_events(person, &mut work.events);
        used(&work.events, month)
    }

    fn capped(&self, work: &mut Lists, person: PersonNo, month: Month) -> u32 {
        self.fill_events(person, &mut work.events);
        capped(&work.events, month)
    }

    fn bar(
        &self,
        work: &mut Lists,
        moment: Minute,
        job: &Job,
        number: PersonNo,
        person: &Person,
    ) -> Option<Bar> {
        self.bar_of(&mut work.events, moment, job, number, person)
    }

    fn first_free(&self, work: &mut Lists, moment: Minute, job: &Job) -> Option<Link> {
        self.first_free_in(work, moment, job)
    }

    fn position_in(&self, work: &mut Lists, boards: &Chain, person: PersonNo) -> Option<Link> {
        self.first_position(work, boards, person)
    }

    fn listed(&self, work: &mut Lists, boards: &Chain) -> u16 {
        self.count_listed(work, boards)
    }
}
