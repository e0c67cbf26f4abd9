//! The answers to `board`, `list` and `unlist`.
ghost use Rattle.std.specs.Prelude.{◌≡◌};
ghost use Rattle.desk_model.specs.histories.History.{History};
ghost use Rattle.desk_model.specs.answers.BoardAnswer.{board_answer};
ghost use Rattle.desk_model.specs.answers.ListAnswer.{list_answer};
ghost use Rattle.desk_model.specs.answers.UnlistAnswer.{unlist_answer};

use crate::Reads;
use crate::event_answer::done_unless_frozen;
use desk_base::{Code, PersonNo};
use desk_model::{BOARD_LIMIT, LIST_LIMIT, MEMBER_LIMIT, Reply};

/// The answer to `board`.
pub(crate) fn board_answer<R: Reads>(reads: &R, board: &Code) -> Reply
    ensures { (h : History) → R.tells reads.now h → result ≡ board_answer h board.now }
{
    if reads.board(board).is_some() {
        Reply::Used
    } else if reads.board_count() >= BOARD_LIMIT {
        Reply::BoardsFull
    } else {
        Reply::Done
    }
}

/// The answer to `list`.
pub(crate) fn list_answer<R: Reads>(
    reads: &R,
    work: &mut R::Work,
    person: PersonNo,
    board: &Code,
) -> Reply
    requires { R.suits reads.now work.old }
    ensures answer { (h : History) → R.tells reads.now h → result ≡ list_answer h person board.now }
    ensures suits { R.suits reads.now work.new }
    ensures steps { R.steps work.new ≡ R.steps work.old }
{
    if reads.person(person).is_none() {
        Reply::UnknownPerson
    } else if reads.board(board).is_none() {
        Reply::UnknownBoard(*board)
    } else if reads.is_on(person, board) {
        Reply::Used
    } else if reads.list_count(person) >= LIST_LIMIT {
        Reply::ListsFull
    } else if usize::from(reads.member_count(work, board)) >= MEMBER_LIMIT {
        Reply::MembersFull
    } else {
        Reply::Done
    }
}

/// The answer to `unlist`.
pub(crate) fn unlist_answer<R: Reads>(reads: &R, person: PersonNo, board: &Code) -> Reply
    ensures { (h : History) → R.tells reads.now h → result ≡ unlist_answer h person board.now }
{
    if reads.person(person).is_none() {
        Reply::UnknownPerson
    } else if reads.board(board).is_none() {
        Reply::UnknownBoard(*board)
    } else if reads.is_on(person, board) {
        done_unless_frozen(reads.on_offer(person))
    } else {
        Reply::NotListed
    }
}
