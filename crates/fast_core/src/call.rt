ghost use Rattle.std.specs.Prelude.{◌≡◌, ◌≤◌, ◌+◌};
ghost use Rattle.desk_model.specs.histories.History.{History};
ghost use Rattle.fast_core.specs.KeptDesk.{Tells};
ghost use Rattle.fast_core.specs.Candidates.{IsJobAsked};
ghost use Rattle.fast_core.specs.Search.{HasSearched};

use crate::job_asked::JobAsked;
use crate::kept_desk::KeptDesk;
use denial_rules::Bar;
use desk_base::{Code, PersonNo};
use desk_model::{Link, order_is_by_rank, who_is_not_ready_is_barred, who_is_on_a_board_is_listed};
use desk_register::who_is_enrolled_has_an_index;
use desk_state::who_is_kept_on_a_board_is_on_it;
use slot_tree::Steps;
use std::sync::ledger::Ledger;
use vacancy_fill::{Judge, first};

/// A vacancy's job that somebody is called for by this desk. Some of the chain's boards were searched already, each
/// as a bit by its index among all: who is on one of them is barred.
#[derive(Drop)]
pub(crate) struct Call<'a> {
    pub desk: &'a KeptDesk,
    pub asked: &'a JobAsked<'a>,
    pub searched: u64,
}

impl Call<'_> {
    ghost use Rattle.std.specs.List.{find};
    ghost use Rattle.desk_model.specs.boards.Boards.{links, order};
    ghost use Rattle.desk_model.specs.offers.Bars.{is_free};
    ghost use Rattle.fast_core.specs.Search.{board_steps};

    // The first position of the board whose person nothing bars; `None` where all are barred.
    pub(crate) fn first_on<L: Ledger>(&self, board: &Code, steps: &mut Steps<L>) -> Option<Link>
        ensures first { (h : History) → Tells self.now.desk.now h → IsJobAsked self.now.asked.now h
            → HasSearched h self.now.asked.now.moment self.now.asked.now.job.now self.now.searched → result ≡ find (λ link. is_free h self.now.asked.now.moment self.now.asked.now.job.now link.person) (links board.now 1 (order h board.now)) }
        ensures steps { (h : History) → Tells self.now.desk.now h → IsJobAsked self.now.asked.now h
            → HasSearched h self.now.asked.now.moment self.now.asked.now.job.now self.now.searched
            → steps.new ≤ steps.old + board_steps h self.now.asked.now.moment self.now.asked.now.job.now board.now }
    {
        who_is_not_ready_is_barred();
        who_is_kept_on_a_board_is_on_it();
        who_is_on_a_board_is_listed();
        who_is_enrolled_has_an_index();
        order_is_by_rank();
        let Some(index) = self.desk.board_index(board) else {
            return None;
        };
        let at = index.number();
        let boards = self.desk.lists.boards();
        if at >= boards.len() {
            return None;
        }
        match first(boards, &[at as u8], self, self.asked.moment, steps) {
            Some(found) => Some(Link {
                board: *board,
                position: found.position,
                person: found.person,
            }),
            None => None,
        }
    }
}

impl Judge for Call<'_> {
    ghost use Rattle.fast_core.specs.Search.{Judges};

    ghost judges = { λ call barred. Judges call.desk.now call.asked.now call.searched barred };

    fn bar(&self, person: PersonNo) -> Option<Bar> {
        let Some(person) = self.desk.people.candidate(person) else {
            return Some(Bar::MarkedOff);
        };
        if self.desk.lists.is_on_one(person.index, self.searched) {
            return Some(Bar::MarkedOff);
        }
        self.desk.bar_of(self.asked, &person)
    }
}
