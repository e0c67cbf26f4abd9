//! What a command makes of one board.
ghost use Rattle.std.specs.Prelude.{◌≡◌, ◌<◌, ◌||◌, ℕ, false};
ghost use Rattle.pool_board.specs.Board.{BoardValue};
ghost use Rattle.desk_model.specs.declared.limits.TheConstants.{BOARD_LIMIT};
ghost use Rattle.desk_model.specs.offers.Offers.{is_of};
ghost use Rattle.desk_state.specs.Words.{has_board};
ghost use Rattle.desk_state.specs.Changes.{is_final_at, IsThen, SetsUp, TakesOn, LetsGo, Moves, BecomesBy};
ghost use Rattle.desk_state.specs.declared.named_indexes.NamedIndexes.{NamedIndexes as NamedValue};

use crate::listings::with_board;
use crate::named_indexes::NamedIndexes;
use desk_base::{Code, IndexHints, Minute, PersonNo};
use desk_model::Cmd;
use desk_register::BoardIndex;
use duty_events::Event;
use pool_board::Board;

// Whether this is the index.
fn is_here(index: BoardIndex, named: Option<BoardIndex>) -> bool
    ensures { result ≡ is_of index named }
{
    match named {
        Some(other) => other == index,
        None => false,
    }
}

/// Whether the word has the board at this index.
pub(crate) fn has_board(word: u64, index: BoardIndex) -> bool
    ensures { result ≡ has_board word index }
{
    (word >> index.number()) & 1 == 1
}

// Whether the event is a final release at this place.
fn is_final_at(event: &Event, place: Code) -> bool
    ensures { result ≡ is_final_at place event.now }
{
    match event {
        Event::Final(_, at) => place == *at,
        _ => false,
    }
}

// Sets the board up here, where it has no members.
fn set_up(board: &mut Board, here: bool, place: Code, extra: bool)
    ensures { IsThen here (SetsUp extra place) board.old board.new }
{
    if here && board.length() == 0 {
        board.restart(place, extra);
    }
}

// Puts the person at its bottom here, where they aren't listed.
fn take_on(board: &mut Board, hints: &mut IndexHints, here: bool, person: PersonNo, ready: Minute)
    ensures { IsThen here (TakesOn person ready) board.old board.new }
{
    if here && !board.has(person, hints) {
        let _full = board.list(person, ready, hints);
    }
}

// Takes the person off here.
fn let_go(board: &mut Board, hints: &IndexHints, here: bool, person: PersonNo)
    ensures { IsThen here (LetsGo person) board.old board.new }
{
    if here && board.has(person, hints) {
        board.unlist(person, hints);
    }
}

// Makes the person ready from the minute here, and sends them to the bottom if so asked.
fn move_on(
    board: &mut Board,
    hints: &mut IndexHints,
    here: bool,
    last: bool,
    person: PersonNo,
    ready: Minute,
)
    ensures { IsThen here (Moves last person ready) board.old board.new }
{
    if !here || !board.has(person, hints) {
        return;
    }
    if last {
        board.to_bottom_ready(person, ready, hints);
    } else {
        board.set_ready(person, ready, hints);
    }
}

/// Whether a command that is done changes boards at all.
pub(crate) fn changes_boards(cmd: &Cmd) -> bool
    ensures { result ≡ false → (n : NamedValue) (word j : ℕ) (b : BoardValue) → BecomesBy cmd.now n word j b b }
{
    matches!(
        cmd,
        Cmd::Board { .. }
            | Cmd::List { .. }
            | Cmd::Unlist { .. }
            | Cmd::MarkOn { .. }
            | Cmd::Decline { .. }
            | Cmd::Past { .. }
            | Cmd::Happened { .. }
    )
}

/// The board that is named, and those of the word: no command changes others.
pub(crate) fn touched(named: &NamedIndexes, word: u64) -> u64
    ensures { (j : ℕ) → j < BOARD_LIMIT → has_board result j ≡ (is_of j named.now.board || has_board word j) }
{
    match named.board {
        Some(board) => with_board(word, board, true),
        None => word,
    }
}

/// Makes of the board at this index what a command makes of it that was done; `word` has the boards of the person whom it
/// names.
pub(crate) fn change_board(
    board: &mut Board,
    hints: &mut IndexHints,
    index: BoardIndex,
    cmd: &Cmd,
    named: &NamedIndexes,
    word: u64,
)
    ensures { BecomesBy cmd.now named.now word index board.old board.new }
{
    let here = is_here(index, named.board);
    let theirs = has_board(word, index);
    let ready = named.ready;
    match cmd {
        Cmd::Board { extra, place, .. } => set_up(board, here, *place, *extra),
        Cmd::List { person, .. } => take_on(board, hints, here, *person, ready),
        Cmd::Unlist { person, .. } => let_go(board, hints, here, *person),
        Cmd::MarkOn { person } => move_on(board, hints, theirs, true, *person, ready),
        Cmd::Decline { person, .. } => move_on(board, hints, theirs, here, *person, ready),
        Cmd::Past { person, .. } => move_on(board, hints, theirs, false, *person, ready),
        Cmd::Happened { person, event } => {
            let last = is_final_at(event, board.place());
            move_on(board, hints, theirs, last, *person, ready);
        }
        _ => {}
    }
}
