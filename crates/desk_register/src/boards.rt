ghost use Rattle.std.specs.Prelude.{◌≤◌, ◌+◌, ◌≡◌, ◌<◌, ◌++◌, ◌∷◌, [], ℕ, List, if◌then◌else◌, None, Some, IfOk, IfSome, is_some, length};
ghost use Rattle.indexmap.specs.IndexMap.{spare, index_map_len, get, keys};
ghost use Rattle.desk_model.specs.declared.limits.TheConstants.{BOARD_LIMIT};
ghost use Rattle.std.specs.List.{slice_get, cons_option};
ghost use Rattle.std.specs.Str.{bytes_eq};
ghost use Rattle.std.specs.Option.{option_copied, option_map, option_or};
ghost use Rattle.desk_register.specs.Among.{board_index};
ghost use Rattle.desk_model.specs.statements.Entry.{EntryValue};
ghost use Rattle.desk_model.specs.histories.History.{History, with_entry};
ghost use Rattle.desk_model.specs.histories.Legal.{IsNext};
ghost use Rattle.desk_model.specs.histories.Register.{sets_up_any};
ghost use Rattle.desk_register.specs.Done.{IsDone};

use crate::add_last::add_last;
use crate::board_index::BoardIndex;
use crate::copy_of::copy_of;
use crate::find_in::{HINT_BITS, Indexed, find_in};
use desk_base::{Code, IndexHints, NoMemory};
use desk_model::{BOARD_LIMIT, BoardSetup, Cmd, what_an_entry_makes_of_the_desk};
use indexmap::IndexMap;
use std::alloc::Global;

/// The boards that were set up, in the order in which they came, with room for 64.
#[derive(Drop)]
pub struct Boards {
    pub(crate) kept: IndexMap<Code, BoardSetup>,
    pub(crate) hints: IndexHints,
    ghost room: { BOARD_LIMIT ≤ index_map_len kept + spare kept },
    ghost few: { index_map_len kept ≤ BOARD_LIMIT },
}

impl Boards {
    ghost use Rattle.desk_register.specs.Boards.{board_under, board_codes, CanSetUp, put_board, KeepsBoards};

    /// No boards, with memory for 64; `NoMemory` where there is none for them.
    pub fn new(alloc: Global) -> Result<Boards, NoMemory>
        ensures under { IfOk result (λ r. (b : List ℕ) → board_under r b ≡ None) }
        ensures keys { IfOk result (λ r. board_codes r ≡ []) }
    {
        let kept = IndexMap::with_capacity(alloc, BOARD_LIMIT)?;
        let hints = IndexHints::new(alloc, HINT_BITS)?;
        Ok(Boards { kept, hints })
    }

    /// The same boards in the same order, with memory for 64; `NoMemory` where there is none for them.
    pub(crate) fn copy(&self, alloc: Global) -> Result<Boards, NoMemory>
        ensures under { IfOk result (λ r. board_under r ≡ board_under self.now) }
        ensures keys { IfOk result (λ r. board_codes r ≡ board_codes self.now) }
    {
        Ok(Boards {
            kept: copy_of(alloc, &self.kept, BOARD_LIMIT)?,
            hints: self.hints.copy(alloc)?,
        })
    }

    // What the board was set up as, with its index among all; `None` where the code is no board.
    fn find(&self, board: &Code) -> Option<Indexed<'_, BoardSetup>>
        ensures index { option_map (λ x. x.index) result ≡ board_index (board_codes self.now) board.now }
        ensures setup { option_map (λ x. x.value.now) result ≡ board_under self.now board.now }
        ensures range { IfSome result (λ x. x.index < BOARD_LIMIT) }
    {
        find_in(&self.kept, board, self.hints.of(board.hint_number()))
    }

    /// What the board was set up as; `None` where the code is no board.
    pub fn get(&self, board: &Code) -> Option<&BoardSetup>
        ensures { option_copied result ≡ board_under self.now board.now }
    {
        Some(self.find(board)?.value)
    }

    /// The index of the board among all, below 64; `None` where the code is no board.
    pub fn index(&self, board: &Code) -> Option<BoardIndex>
        ensures index { result ≡ board_index (board_codes self.now) board.now }
        ensures found { is_some result ≡ is_some (board_under self.now board.now) }
    {
        BoardIndex::new(self.find(board)?.index)
    }

    /// The code of the board at this index among all; `None` where there are fewer.
    pub fn code(&self, index: BoardIndex) -> Option<&Code>
        ensures { option_copied result ≡ slice_get (board_codes self.now) index }
    {
        match self.kept.get_index(index.number()) {
            Some((code, _)) => Some(code),
            None => None,
        }
    }

    /// How many there are, 64 at most.
    pub fn count(&self) -> usize
        ensures { result ≡ length (board_codes self.now) }
    {
        self.kept.len()
    }

    pub(crate) fn add(&mut self, board: Code, setup: BoardSetup)
        requires new { board_under self.old board ≡ None }
        requires few { length (board_codes self.old) < BOARD_LIMIT }
        ensures under { (b : List ℕ) → board_under self.new b ≡ (if bytes_eq board b then Some setup else board_under self.old b) }
        ensures keys { board_codes self.new ≡ board_codes self.old ++ board ∷ [] }
    {
        self.hints.set(board.hint_number(), self.kept.len());
        add_last(&mut self.kept, board, setup);
    }

    // Adds the board that is set up, where it is new and there is room.
    fn set_up(&mut self, cmd: &Cmd)
        ensures under { CanSetUp (sets_up_any cmd.now) (get bytes_eq self.old.kept) (keys self.old.kept)
            → (b : List ℕ) → get bytes_eq self.new.kept b ≡ put_board cmd.now (get bytes_eq self.old.kept) b }
        ensures keys { CanSetUp (sets_up_any cmd.now) (get bytes_eq self.old.kept) (keys self.old.kept)
            → keys self.new.kept ≡ keys self.old.kept ++ cons_option (sets_up_any cmd.now) [] }
    {
        let Cmd::Board {
            board,
            extra,
            place,
        } = cmd
        else {
            return;
        };
        if self.get(board).is_none() && self.count() < BOARD_LIMIT {
            let setup = BoardSetup {
                extra: *extra,
                place: *place,
            };
            self.add(*board, setup);
        }
    }

    /// Keeps the board that a command sets up that was done.
    pub(crate) fn change(&mut self, cmd: &Cmd)
        ensures { (h : History) (e : EntryValue) → IsNext h e → IsDone e cmd.now → KeepsBoards self.old h → KeepsBoards self.new (with_entry h e) }
    {
        what_an_entry_makes_of_the_desk();
        self.set_up(cmd);
    }
}
