//! The book of a desk that has answered what a journal states, and its wall of windows.
ghost use Rattle.std.specs.Prelude.{◌≡◌, ◌+◌, ◌-◌, ◌<◌, ◌^◌, List, [], length, map, IfOk, OnOk};
ghost use Rattle.std.specs.List.{All};
ghost use Rattle.desk_model.specs.histories.Legal.{given, history_from};
ghost use Rattle.desk_model.specs.statements.Entry.{EntryValue};
ghost use Rattle.desk_model.specs.statements.Fits.{Fits};
ghost use Rattle.desk_model.specs.texts.Journal.{entry_lines};
ghost use Rattle.kept_desk.specs.EntryLines.{HasLines};
ghost use Rattle.kept_desk.specs.Walls.{HasAll};
ghost use Rattle.audit_desk.specs.Found.{Begins, IsJournal};

use audit_desk::first_line;
use board_window::NewWall;
use call_history::{CountedBook, Steps};
use desk_base::NoMemory;
use desk_model::{
    Booked, Opening, a_history_goes_on_with_commands, a_legal_history_fits, one_history_is_legal,
};
use desk_text::{Statement, each_line_ends_once, put_statement, read_opening};
use fast_core::FastCore;
use record_rows::{Fields, LastMinute};
use std::alloc::Global;

/// The opening and the book of a desk that stands behind a journal of so many entries, which is that of a legal history, with room for so
/// many more, fewer than 2^32 in all, and the wall that has its entries: each command of the journal is answered again, in its order. No
/// entry is kept in memory.
pub fn book_of_journal(
    alloc: Global,
    text: &[u8],
    count: u32,
    more: u32,
) -> Result<(Opening, CountedBook<FastCore>, NewWall), NoMemory>
    requires journal { IsJournal text.now count }
    requires few { count + more < 2 ^ 32 }
    ensures opening { IfOk result (λ made. made.0 ≡ (⟦<CountedBook<FastCore> as Booked>⟧.history made.1).opening) }
    ensures history { IfOk result (λ made. Begins text.now (⟦<CountedBook<FastCore> as Booked>⟧.history made.1) []) }
    ensures count { IfOk result (λ made. length (⟦<CountedBook<FastCore> as Booked>⟧.history made.1).entries ≡ count) }
    ensures room { IfOk result (λ made. ⟦<CountedBook<FastCore> as Booked>⟧.room made.1 ≡ count + more) }
    ensures wall { IfOk result (λ made. HasAll made.2 (⟦<CountedBook<FastCore> as Booked>⟧.history made.1)) }
{
    each_line_ends_once();
    one_history_is_legal();
    a_legal_history_fits();
    let (line, behind) = first_line(text);
    let Some(opening) = read_opening(line) else {
        unreachable!()
    };
    let core = FastCore::new(alloc, opening, u64::from(count) + u64::from(more))?;
    let mut book = CountedBook::new(alloc, core)?;
    let mut wall = NewWall::new(alloc, opening)?;
    step_through(&mut book, &mut wall, behind)?;
    Ok((opening, book, wall))
}

// Steps a book through what these lines of entries state, for all of which it has room, and gives the wall, which has all entries before
// them, those that it answers.
fn step_through<B: Steps>(book: &mut B, wall: &mut NewWall, text: &[u8]) -> Result<(), NoMemory>
    requires lines { HasLines text.now (B.room book.old - length (B.history book.old).entries) }
    requires wall { HasAll wall.old (B.history book.old) }
    ensures history { OnOk result ((later : List EntryValue) → All Fits later → text.now ≡ entry_lines later
        → B.history book.new ≡ history_from (B.history book.old) (map given later)) }
    ensures wall { OnOk result (HasAll wall.new (B.history book.new)) }
    ensures room { B.room book.new ≡ B.room book.old }
{
    each_line_ends_once();
    a_history_goes_on_with_commands();
    let mut left = text;
    let mut last = LastMinute::new();
    let mut fields = Fields::new();
    let mut statement = Statement::new();
    while !left.is_empty() {
        let (line, behind) = first_line(left);
        let Some(_outcome) = put_statement(&mut statement, &mut fields, &mut last, line) else {
            unreachable!()
        };
        let Ok(entry) = book.step(statement.caller, statement.stated) else {
            unreachable!()
        };
        book.is_legal();
        wall.add(&entry)?;
        left = behind;
    }
    Ok(())
}
