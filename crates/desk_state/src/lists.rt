ghost use Rattle.std.specs.Prelude.{◌≡◌, ℕ, List, Some, length, nat_eq, ◌↔◌, IfOk};
ghost use Rattle.std.specs.List.{find, slice_get};
ghost use Rattle.std.specs.Option.{option_map, option_copied};
ghost use Rattle.desk_model.specs.histories.History.{History, opened, with_entry};
ghost use Rattle.desk_model.specs.histories.Register.{persons, boards};
ghost use Rattle.desk_model.specs.boards.Boards.{is_on, boards_of, links, order};
ghost use Rattle.desk_model.specs.answers.QuestionAnswer.{member_at};
ghost use Rattle.desk_register.specs.Among.{index_among, board_index};
ghost use Rattle.desk_state.specs.Lists.{boards_kept, Keeps, is_on_one, Names};
ghost use Rattle.desk_model.specs.statements.Opening.{OpeningValue};
ghost use Rattle.desk_model.specs.statements.Entry.{EntryValue};
ghost use Rattle.desk_model.specs.histories.Legal.{IsLegal, IsNext};
ghost use Rattle.desk_register.specs.Done.{IsDone};

use crate::board_changes::has_board;
use crate::laws::what_the_lists_rest_on;
use crate::listings::Listings;
use crate::named_indexes::NamedIndexes;
use crate::orders::Orders;
use desk_base::{NoMemory, PersonNo};
use desk_model::{Cmd, EntryRef, order_is_by_rank};
use desk_register::{BoardIndex, PersonIndex};
use pool_board::Board;
use std::alloc::Global;

/// The boards of a desk, each with its members in order and the minute from which each is ready, and for each person the
/// boards that they are on. Persons and boards go by their indexes among all, from 0.
pub struct Lists {
    pub(crate) orders: Orders,
    pub(crate) listings: Listings,
}

impl Lists {
    /// The 64 boards, of which the first are those that were set up, for a search among their members.
    pub fn boards(&self) -> &[Board]
        ensures { result.now ≡ boards_kept self.now }
    {
        &self.orders.boards
    }

    // The board at this index among all.
    fn board(&self, index: BoardIndex) -> Option<&Board>
        ensures { option_copied result ≡ slice_get (boards_kept self.now) index }
    {
        self.orders.boards.get(index.number())
    }

    /// Whether the person at one index among all is on the board at another.
    pub fn is_on(&self, person: PersonIndex, board: BoardIndex) -> bool
        ensures { (h : History) (p : ℕ) (b : List ℕ) → Keeps self.now h → index_among (persons h) p ≡ Some person
            → board_index (boards h) b ≡ Some board → result ≡ is_on h p b }
    {
        has_board(self.listings.of(Some(person)), board)
    }

    /// Whether the person at this index among all is on one of the boards that the word has, each as a bit by its index among all.
    pub fn is_on_one(&self, person: PersonIndex, boards: u64) -> bool
        ensures { result ≡ is_on_one self.now person boards }
    {
        self.listings.of(Some(person)) & boards != 0
    }

    /// On how many boards the person at this index among all is.
    pub fn list_count(&self, person: PersonIndex) -> usize
        ensures { (h : History) (p : ℕ) → Keeps self.now h → index_among (persons h) p ≡ Some person
            → result ≡ length (boards_of h p) }
    {
        self.listings.of(Some(person)).count_ones() as usize
    }

    /// How many persons are on the board at this index among all.
    pub fn member_count(&self, board: BoardIndex) -> u16
        ensures { (h : History) (b : List ℕ) → Keeps self.now h → board_index (boards h) b ≡ Some board
            → result ≡ length (order h b) }
    {
        match self.board(board) {
            Some(found) => found.length(),
            None => 0,
        }
    }

    /// Who stands at a position of the board, from 1; 0 tells the same as 1. `None` where nobody does.
    pub fn member_at(&self, board: BoardIndex, position: u16) -> Option<PersonNo>
        ensures { (h : History) (b : List ℕ) → Keeps self.now h → board_index (boards h) b ≡ Some board
            → result ≡ member_at h b position }
    {
        self.board(board)?.at(position.max(1))
    }

    /// At which position of the board, from 1, the person stands; `None` where they aren't on it.
    pub fn position(&self, person: PersonNo, board: BoardIndex) -> Option<u16>
        ensures { (h : History) (b : List ℕ) → Keeps self.now h → board_index (boards h) b ≡ Some board
            → find (λ link. nat_eq link.person person) (links b 1 (order h b))
            ≡ option_map (λ k. record { board = b; position = k; person = person }) result }
    {
        order_is_by_rank();
        self.board(board)?.position(person, &self.orders.hints)
    }

    /// Those of a desk that has answered nothing yet, with memory for 64 boards and 1,000 persons; `NoMemory` where there is
    /// none for them.
    pub fn new(alloc: Global) -> Result<Lists, NoMemory>
        ensures { IfOk result (λ l. (o : OpeningValue) → Keeps l (opened o)) }
    {
        let orders = Orders::new(alloc)?;
        let listings = Listings::new(alloc)?;
        Ok(Lists { orders, listings })
    }

    /// The same boards and their members again, and who is on which; `NoMemory` where there is none for them.
    pub fn copy(&self, alloc: Global) -> Result<Lists, NoMemory>
        ensures { IfOk result (λ l. (h : History) → Keeps l h ↔ Keeps self.now h) }
    {
        let orders = self.orders.copy(alloc)?;
        let listings = self.listings.copy(alloc)?;
        Ok(Lists { orders, listings })
    }

    // Keeps what a command changes that was done.
    fn change(&mut self, cmd: &Cmd, named: &NamedIndexes)
        ensures { (h : History) (e : EntryValue) → IsLegal h → IsNext h e → IsDone e cmd.now → Names h e named.now
            → Keeps self.old h → Keeps self.new (with_entry h e) }
    {
        what_the_lists_rest_on();
        let word = self.listings.of(named.person);
        self.orders.change(cmd, named, word);
        self.listings.change(cmd, named);
    }

    /// Keeps what an entry changes, the next one of a legal history, where `named` has the indexes of its person and of its board; of
    /// any other entry nothing is promised.
    pub fn keep(&mut self, entry: &EntryRef, named: &NamedIndexes)
        ensures { (h : History) → IsLegal h → IsNext h entry.now → Names h entry.now named.now
            → Keeps self.old h → Keeps self.new (with_entry h entry.now) }
    {
        what_the_lists_rest_on();
        if let Some(cmd) = entry.accepted() {
            self.change(cmd, named);
        }
    }
}

impl Drop for Lists {
    fn drop(self) {
        let Self {
            orders: _,
            listings: _,
        } = self;
    }
}
