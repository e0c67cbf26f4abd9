ghost use Rattle.std.specs.Prelude.{◌≡◌, ◌≤◌, ℕ, [], IfOk, length};
ghost use Rattle.desk_model.specs.declared.limits.TheConstants.{BOARD_LIMIT};
ghost use Rattle.vacancy_fill.specs.Chain.{members_at};
ghost use Rattle.desk_state.specs.Changes.{BecomesBy, EachBecomes};

use crate::board_changes::{change_board, changes_boards, touched};
use crate::listings::{first_board, with_board};
use crate::named_indexes::NamedIndexes;
use desk_base::{Code, IndexHints, NoMemory};
use desk_model::{BOARD_LIMIT, Cmd};
use pool_board::Board;
use std::alloc::Global;

/// 64 boards, of which the first are those that were set up, and the hints that they share.
#[derive(Drop)]
pub(crate) struct Orders {
    pub(crate) boards: Vec<Board>,
    pub(crate) hints: IndexHints,
}

impl Orders {
    /// Boards with no members; `NoMemory` where there is none for them.
    pub(crate) fn new(alloc: Global) -> Result<Orders, NoMemory>
        ensures many { IfOk result (λ o. length o.boards.items ≡ BOARD_LIMIT) }
        ensures empty { IfOk result (λ o. (j : ℕ) → members_at o.boards.items j ≡ []) }
    {
        // the place of a board that isn't set up, which nothing reads
        let nowhere = Code::read(b"0").ok_or(NoMemory)?;
        let mut boards = Vec::with_capacity(alloc, BOARD_LIMIT)?;
        for number in 0..BOARD_LIMIT {
            boards.push_reserved(Board::new(alloc, number as u8, nowhere, false)?);
        }
        let hints = Board::hints(alloc)?;
        Ok(Orders { boards, hints })
    }

    /// The same boards again; `NoMemory` where there is none for them.
    pub(crate) fn copy(&self, alloc: Global) -> Result<Orders, NoMemory>
        ensures { IfOk result (λ o. o.boards.items ≡ self.now.boards.items) }
    {
        let mut boards = Vec::with_capacity(alloc, self.boards.len())?;
        for board in &self.boards {
            boards.push_reserved(board.copy(alloc)?);
        }
        let hints = self.hints.copy(alloc)?;
        Ok(Orders { boards, hints })
    }

    /// Makes of each of 64 boards what a command makes of it that was done; `word` has the boards of the person whom it names.
    pub(crate) fn change(&mut self, cmd: &Cmd, named: &NamedIndexes, word: u64)
        ensures many { length self.new.boards.items ≡ length self.old.boards.items }
        ensures each { length self.old.boards.items ≤ BOARD_LIMIT → EachBecomes (BecomesBy cmd.now named.now word) self.old.boards.items self.new.boards.items }
    {
        if !changes_boards(cmd) {
            return;
        }
        let mut left = touched(named, word);
        while left != 0 {
            let index = first_board(left);
            let at = index.number();
            if at < self.boards.len() {
                change_board(
                    &mut self.boards[at],
                    &mut self.hints,
                    index,
                    cmd,
                    named,
                    word,
                );
            }
            left = with_board(left, index, false);
        }
    }
}
