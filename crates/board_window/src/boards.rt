ghost use Rattle.std.specs.Prelude.{◌≡◌, ◌≤◌, IfOk, map, [], vec_len, vec_capacity};
ghost use Rattle.std.specs.List.{All, find};
ghost use Rattle.std.specs.Option.{option_copied};
ghost use Rattle.std.specs.Str.{bytes_eq};
ghost use Rattle.desk_model.specs.declared.limits.TheConstants.{BOARD_LIMIT};
ghost use Rattle.desk_model.specs.histories.History.{History};
ghost use Rattle.board_window.specs.Becomes.{becomes, set_up, boards_after};
ghost use Rattle.board_window.specs.Shows.{AreBoards, spot_of};

use crate::follow::follow;
use crate::members::Members;
use crate::shown_board::ShownBoard;
use crate::spot::Spot;
use desk_base::{Code, NoMemory};
use desk_model::{BOARD_LIMIT, Cmd, Entry};
use std::alloc::Global;
use std::marker::Model;

/// Boards as they are shown, as they were set up, with memory for 64 of 500 persons each.
#[derive(Drop)]
pub(crate) struct Boards {
    shown: Vec<ShownBoard>,
    spare: Vec<Members>,
}

impl Model for Boards {
    ghost use Rattle.std.specs.Prelude.{◌≡◌, ◌≤◌, ◌+◌, List, [], vec_len, vec_capacity};
    ghost use Rattle.std.specs.List.{All};
    ghost use Rattle.desk_model.specs.declared.limits.TheConstants.{BOARD_LIMIT};
    ghost use Rattle.board_window.specs.declared.shown_board.ShownBoard.{ShownBoard};

    ghost Value = { List ShownBoard };

    ghost view = { λ b. b.shown.items };

    ghost invariant = { λ b. (BOARD_LIMIT ≤ vec_capacity b.shown) × (vec_len b.shown + vec_len b.spare ≡ BOARD_LIMIT)
        × All (λ m. m ≡ []) b.spare.items };
}

// Puts the members of 64 boards, nobody yet, into an empty list that has room for them.
fn fill(alloc: Global, spare: &mut Vec<Members>) -> Result<(), NoMemory>
    requires empty { spare.old.items ≡ [] }
    requires room { BOARD_LIMIT ≤ vec_capacity spare.old }
    ensures many { IfOk result (λ _. vec_len spare.new ≡ BOARD_LIMIT) }
    ensures nobody { IfOk result (λ _. All (λ m. m ≡ []) spare.new.items) }
{
    for _ in 0..BOARD_LIMIT {
        spare.push_reserved(Members::new(alloc)?);
    }
    Ok(())
}

// Turns each board into what a command makes of it that was done; `from` is the board of the offer that it declines.
fn follow_all(boards: &mut Vec<ShownBoard>, cmd: &Cmd, from: &Option<Code>)
    ensures items { boards.new.items ≡ map (becomes from.now cmd.now) boards.old.items }
    ensures room { vec_capacity boards.new ≡ vec_capacity boards.old }
{
    for board in boards.iter_mut() {
        follow(board, cmd, from);
    }
}

impl Boards {
    /// No boards, with memory for 64 of 500 persons each; `NoMemory` where there is none for them.
    pub(crate) fn new(alloc: Global) -> Result<Boards, NoMemory>
        ensures none { IfOk result (λ b. b ≡ []) }
    {
        let shown = Vec::with_capacity(alloc, BOARD_LIMIT)?;
        let mut spare = Vec::with_capacity(alloc, BOARD_LIMIT)?;
        fill(alloc, &mut spare)?;
        Ok(Boards { shown, spare })
    }

    // Adds the board that a command sets up, where there is room.
    fn set_up(&mut self, cmd: &Cmd)
        ensures { self.new ≡ set_up cmd.now self.old }
    {
        let Cmd::Board { board, place, .. } = cmd else {
            return;
        };
        let Some(members) = self.spare.pop() else {
            return;
        };
        self.shown.push_reserved(ShownBoard {
            code: *board,
            place: *place,
            members,
        });
    }

    /// Follows an entry; `from` is the board of the offer that it declines. It takes no memory.
    pub(crate) fn keep(&mut self, entry: &Entry, from: &Option<Code>)
        ensures { self.new ≡ boards_after from.now entry.now self.old }
    {
        let Some(cmd) = entry.accepted() else {
            return;
        };
        follow_all(&mut self.shown, cmd, from);
        self.set_up(cmd);
    }

    // The board of this code.
    fn find(&self, code: Code) -> Option<&ShownBoard>
        ensures { option_copied result ≡ find (λ shown. bytes_eq shown.code code) self.now }
    {
        self.shown.iter().find(|shown| shown.code == code)
    }

    /// What stands at a position of a board, from 1.
    pub(crate) fn look(&self, board: Code, position: u16) -> Spot
        ensures { (h : History) → AreBoards self.now h → result ≡ spot_of h board position }
    {
        let Some(shown) = self.find(board) else {
            return Spot::NoBoard;
        };
        match shown.members.at(usize::from(position).saturating_sub(1)) {
            Some(person) => Spot::Person(person),
            None => Spot::NoOne {
                length: shown.members.count() as u16,
            },
        }
    }
}
