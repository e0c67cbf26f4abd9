//! What the boards that are shown rest on.
ghost use Rattle.std.specs.Prelude.{List, []};
ghost use Rattle.desk_model.specs.statements.Opening.{OpeningValue};
ghost use Rattle.desk_model.specs.statements.Entry.{EntryValue};
ghost use Rattle.desk_model.specs.histories.History.{History, opened, with_entry, said};
ghost use Rattle.desk_model.specs.histories.Legal.{IsLegal, IsNext};
ghost use Rattle.board_window.specs.declared.shown_board.ShownBoard.{ShownBoard as ShownBoardValue};
ghost use Rattle.board_window.specs.Becomes.{declines_from, boards_after};
ghost use Rattle.board_window.specs.Shows.{AreBoards};

use desk_model::{
    boards_and_chains_are_bounded, the_first_entries_are_legal, what_an_entry_makes_of_the_desk,
    what_is_done_rests_on, who_is_on_a_board_is_listed,
};

/// Boards that are those of a legal history are, after what an entry makes of them that the rules give next, those of the longer
/// history. It only names the laws that it rests on: its clause is the law.
pub(crate) fn what_an_entry_makes_of_the_boards()
    ensures { (h : History) (e : EntryValue) (xs : List ShownBoardValue) → IsLegal h → IsNext h e → AreBoards xs h
        → AreBoards (boards_after (said (declines_from h) e) e xs) (with_entry h e) }
{
    what_an_entry_makes_of_the_desk();
    what_is_done_rests_on();
    who_is_on_a_board_is_listed();
    boards_and_chains_are_bounded();
}

/// A desk that was opened and has answered nothing yet has no boards. It does nothing: its clause is the law.
pub(crate) fn a_desk_opens_without_boards()
    ensures { (o : OpeningValue) → AreBoards [] (opened o) }
{}

/// Where a history with an entry more is legal, it was legal before, and the entry is one that the rules give next. It only names the law
/// that it rests on: its clauses are the law.
pub(crate) fn the_last_entry_is_next()
    ensures legal { (h : History) (e : EntryValue) → IsLegal (with_entry h e) → IsLegal h }
    ensures next { (h : History) (e : EntryValue) → IsLegal (with_entry h e) → IsNext h e }
{
    the_first_entries_are_legal();
}
