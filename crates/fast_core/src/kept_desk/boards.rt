//! Who is on which board and where, and which persons and boards an entry names.
ghost use Rattle.std.specs.Prelude.{◌≡◌, ◌<◌, ◌||◌, ℕ, IfSome, length, Some, List};
ghost use Rattle.desk_model.specs.declared.limits.TheConstants.{BOARD_LIMIT};
ghost use Rattle.desk_model.specs.histories.History.{History, said};
ghost use Rattle.desk_model.specs.histories.Register.{persons, boards, sets_up_any};
ghost use Rattle.desk_model.specs.boards.Boards.{is_on, boards_of, order};
ghost use Rattle.desk_model.specs.answers.QuestionAnswer.{member_at};
ghost use Rattle.desk_register.specs.Among.{index_among, board_index};
ghost use Rattle.desk_model.specs.offers.Offers.{is_of};
ghost use Rattle.desk_state.specs.Words.{has_board};
ghost use Rattle.fast_core.specs.KeptDesk.{Tells};
ghost use Rattle.desk_state.specs.OfferTold.{offered_from};
ghost use Rattle.desk_state.specs.Lists.{mover_board};

use crate::kept_desk::KeptDesk;
use desk_base::{Code, PersonNo};
use desk_model::{Cmd, EntryRef, Reply, who_is_on_a_board_is_listed};
use desk_register::{BoardIndex, PersonIndex, who_is_enrolled_has_an_index};
use desk_state::with_board;

impl KeptDesk {
    /// The index of a person among all; `None` where nobody has the number.
    pub(crate) fn person_index(&self, person: PersonNo) -> Option<PersonIndex>
        ensures { (h : History) → Tells self.now h → result ≡ index_among (persons h) person }
    {
        self.people.register.persons().index(person)
    }

    /// The index of a board among all, below 64; `None` where the code is no board.
    pub(crate) fn board_index(&self, board: &Code) -> Option<BoardIndex>
        ensures { (h : History) → Tells self.now h → result ≡ board_index (boards h) board.now }
    {
        self.people.register.boards().index(board)
    }

    /// Whether the person is on the board.
    pub(crate) fn is_on(&self, person: PersonNo, board: &Code) -> bool
        ensures { (h : History) → Tells self.now h → result ≡ is_on h person board.now }
    {
        who_is_on_a_board_is_listed();
        who_is_enrolled_has_an_index();
        let Some(index) = self.person_index(person) else {
            return false;
        };
        let Some(at) = self.board_index(board) else {
            return false;
        };
        self.lists.is_on(index, at)
    }

    /// The word with this board, too.
    pub(crate) fn with_board(&self, word: u64, board: &Code) -> u64
        ensures { (h : History) → Tells self.now h → (j : ℕ)
            → has_board result j ≡ (is_of j (board_index (boards h) board.now) || has_board word j) }
    {
        match self.board_index(board) {
            Some(index) => with_board(word, index, true),
            None => word,
        }
    }

    /// On how many boards the person is.
    pub(crate) fn list_count(&self, person: PersonNo) -> usize
        ensures { (h : History) → Tells self.now h → result ≡ length (boards_of h person) }
    {
        who_is_on_a_board_is_listed();
        who_is_enrolled_has_an_index();
        match self.person_index(person) {
            Some(person) => self.lists.list_count(person),
            None => 0,
        }
    }

    /// How many persons are on the board.
    pub(crate) fn member_count(&self, board: &Code) -> u16
        ensures { (h : History) → Tells self.now h → result ≡ length (order h board.now) }
    {
        who_is_on_a_board_is_listed();
        who_is_enrolled_has_an_index();
        match self.board_index(board) {
            Some(board) => self.lists.member_count(board),
            None => 0,
        }
    }

    /// Who stands at this position of the board, from 1; `None` where nobody does.
    pub(crate) fn member_at(&self, board: &Code, position: u16) -> Option<PersonNo>
        ensures { (h : History) → Tells self.now h → result ≡ member_at h board.now position }
    {
        who_is_on_a_board_is_listed();
        who_is_enrolled_has_an_index();
        match self.board_index(board) {
            Some(board) => self.lists.member_at(board, position),
            None => None,
        }
    }

    /// The index of this person among all; `None` where there is none such.
    pub(crate) fn index_of(&self, person: &Option<PersonNo>) -> Option<PersonIndex>
        ensures { (h : History) (p : ℕ) → Tells self.now h → person.now ≡ Some p → result ≡ index_among (persons h) p }
    {
        match person {
            Some(person) => self.person_index(*person),
            None => None,
        }
    }

    /// The index of the board that an accepted command names, or that the offer was made from which it declines, or that the board
    /// gets which it sets up.
    pub(crate) fn named_board(&self, entry: &EntryRef) -> Option<BoardIndex>
        ensures named { (h : History) (b : List ℕ) → Tells self.now h → said (mover_board h) entry.now ≡ Some b
            → result ≡ board_index (boards h) b }
        ensures set_up { (h : History) (b : List ℕ) → Tells self.now h → said sets_up_any entry.now ≡ Some b
            → length (boards h) < BOARD_LIMIT → result ≡ Some (length (boards h)) }
    {
        let cmd = entry.accepted()?;
        match cmd {
            Cmd::List { board, .. } | Cmd::Unlist { board, .. } => self.board_index(board),
            Cmd::Board { .. } => BoardIndex::new(self.people.register.boards().count()),
            Cmd::Decline { vac, .. } => match self.offers.offer(*vac) {
                Some(offer) => Some(offer.board),
                None => None,
            },
            _ => None,
        }
    }

    /// The index of the board which the entry's offer is made from.
    pub(crate) fn offered_board(&self, entry: &EntryRef) -> Option<BoardIndex>
        ensures { (h : History) (b : List ℕ) → Tells self.now h → offered_from entry.now ≡ Some b
            → result ≡ board_index (boards h) b }
    {
        match &entry.reply() {
            Reply::Offered { board, .. } => self.board_index(board),
            _ => None,
        }
    }
}
