//! Positions in the chain of a vacancy, and the first whom nothing bars.
ghost use Rattle.std.specs.Prelude.{◌≡◌, length, ◌≤◌, ◌+◌, true, false, None};
ghost use Rattle.std.specs.List.{All};
ghost use Rattle.desk_model.specs.histories.History.{History};
ghost use Rattle.desk_model.specs.boards.Boards.{chain};
ghost use Rattle.desk_model.specs.answers.ExplainAnswer.{position_in};
ghost use Rattle.fast_core.specs.KeptDesk.{Tells};
ghost use Rattle.desk_model.specs.offers.Bars.{first_free};
ghost use Rattle.fast_core.specs.Unfilled.{IsOutOrBarred};
ghost use Rattle.desk_answers.specs.Asked.{IsAsked};
ghost use Rattle.fast_core.specs.Candidates.{IsJobAsked};
ghost use Rattle.fast_core.specs.Search.{search_steps};

use crate::call::Call;
use crate::job_asked::JobAsked;
use crate::kept_desk::KeptDesk;
use desk_base::{Code, Minute, PersonNo};
use desk_model::{
    Chain, Job, Link, boards_and_chains_are_bounded, order_is_by_rank, who_is_on_a_board_is_listed,
};
use desk_register::who_is_enrolled_has_an_index;
use slot_tree::Steps;
use std::sync::ledger::Ledger;
use vacancy_fill::first;

impl KeptDesk {
    ghost use Rattle.std.specs.Prelude.{nat_eq};
    ghost use Rattle.std.specs.List.{find};
    ghost use Rattle.desk_model.specs.boards.Boards.{links, order};

    // The first position of the board that is this person's; `None` where none is.
    fn position_on(&self, board: &Code, person: PersonNo) -> Option<Link>
        ensures { (h : History) → Tells self.now h
            → result ≡ find (λ link. nat_eq link.person person) (links board.now 1 (order h board.now)) }
    {
        who_is_on_a_board_is_listed();
        who_is_enrolled_has_an_index();
        order_is_by_rank();
        let Some(index) = self.person_index(person) else {
            return None;
        };
        let Some(at) = self.board_index(board) else {
            return None;
        };
        if !self.lists.is_on(index, at) {
            return None;
        }
        let position = self.lists.position(person, at)?;
        Some(Link {
            board: *board,
            position,
            person,
        })
    }

    /// The first position of the chain that is this person's; `None` where none is.
    pub(crate) fn position_in(&self, boards: &Chain, person: PersonNo) -> Option<Link>
        ensures { (h : History) → Tells self.now h → result ≡ position_in (chain h boards.now) person }
    {
        for board in boards.codes() {
            if let Some(index) = self.position_on(board, person) {
                return Some(index);
            }
        }
        None
    }

    /// How many positions the chain has.
    pub(crate) fn listed(&self, boards: &Chain) -> u16
        ensures { (h : History) → Tells self.now h → result ≡ length (chain h boards.now) }
    {
        boards_and_chains_are_bounded();
        let mut count: u16 = 0;
        for board in boards.codes() {
            count = count.saturating_add(self.member_count(board));
        }
        count
    }

    // Whether the person stands in the chain of the job of a vacancy that was made, and nothing bars them at this moment, which isn't
    // past its report.
    fn may_be_called(&self, moment: Minute, job: &Job, person: PersonNo) -> bool
        ensures { (h : History) → Tells self.now h → IsAsked h moment job.now → result ≡ false
            → IsOutOrBarred h moment job.now person }
    {
        order_is_by_rank();
        self.position_in(&job.chain(), person).is_some() && self.bar(moment, job, person).is_none()
    }

    // Whether none of the persons may be called for it.
    fn are_barred(&self, moment: Minute, job: &Job, persons: &[PersonNo]) -> bool
        ensures { (h : History) → Tells self.now h → IsAsked h moment job.now → result ≡ true
            → All (IsOutOrBarred h moment job.now) persons.now }
    {
        for person in persons {
            if self.may_be_called(moment, job, *person) {
                return false;
            }
        }
        true
    }

    /// Whether it is remembered that all of the chain are barred from the job of a vacancy that was made, at this moment, which isn't
    /// past its report. Who was touched since is judged again, and nobody else.
    pub(crate) fn is_unfilled(&self, moment: Minute, job: &Job) -> bool
        ensures { (h : History) → Tells self.now h → IsAsked h moment job.now → result ≡ true
            → first_free h moment job.now ≡ None }
    {
        order_is_by_rank();
        match self.unfilled.touched_since(job.vac(), moment) {
            Some(persons) => self.are_barred(moment, job, persons),
            None => false,
        }
    }

    /// The first position of the chain of the job that is asked about whose person nothing bars; `None` where all are barred. The steps
    /// are nodes that searches of boards read. Who was barred on one board isn't judged again on the next.
    pub(crate) fn first_free<'a, L: Ledger>(
        &'a self,
        asked: &'a JobAsked<'a>,
        steps: &mut Steps<L>,
    ) -> Option<Link>
        ensures first { (h : History) → Tells self.now h → IsJobAsked asked.now h
            → result ≡ first_free h asked.now.moment asked.now.job.now }
        ensures steps { (h : History) → Tells self.now h → IsJobAsked asked.now h
            → steps.new ≤ steps.old + search_steps h asked.now.moment asked.now.job.now }
    {
        order_is_by_rank();
        let chain = asked.job.chain();
        let mut searched: u64 = 0;
        for board in chain.codes() {
            let call = Call {
                desk: self,
                asked,
                searched,
            };
            if let Some(link) = call.first_on(board, steps) {
                return Some(link);
            }
            searched = self.with_board(searched, board);
        }
        None
    }
}
