//! One line served at a seat.
ghost use Rattle.std.specs.Prelude.{◌≡◌, ◌≢◌, ◌-◌, ◌≤◌};
ghost use Rattle.desk_io.specs.Faults.{Rose};
ghost use Rattle.turn_gate.specs.Seats.{IsSeatOf};
ghost use Rattle.serve_desk.specs.Told.{line_of};
ghost use Rattle.serve_desk.specs.Serves.{Serves};

use crate::answer::answer;
use crate::entry_lines::EntryLines;
use crate::{Ended, LINES_PER_CALLER, Why};
use call_history::Book;
use caller_lines::CallerLine;
use desk_model::DeskCore;
use desk_shared::Desk;
use std::alloc::Global;
use std::sync::Wait;
use turn_gate::Seat;

/// Serves a line at a seat of the desk, until the session ends: it asks the line for one line after another, and puts the reply on it
/// before it asks the next. A command is called, and the reply is its entry's line of the journal. A line that states no command, or
/// is too long, is told so, and so is one for whose reading memory was wanting; then the session goes on. It ends where the line has
/// no more or has a fault, with the first command when the seat has no call left, and with the 10,001st line, which are told so.
pub fn session<C: DeskCore, R: Wait>(
    rt: &R,
    alloc: Global,
    desk: &Desk<C>,
    seat: Seat<Book<C>>,
    line: &mut Box<dyn CallerLine + Send>,
) -> Ended<C>
    requires { IsSeatOf desk.now seat }
    ensures serves { Serves desk.now.start.book.opening (desk.now.start.quota - seat.calls)
        (line_of (faults line.old) (calls line.old))
        (line_of (faults line.new) (calls line.new))
        seat result.seat result.why result.taken }
    ensures seat { IsSeatOf desk.now result.seat }
    ensures faults_grow { faults line.old ≤ faults line.new }
    ensures cause { result.why ≡ Why.LineFault → Rose (faults line.old) (faults line.new) }
    ensures no_fault { result.why ≢ Why.LineFault → faults line.new ≡ faults line.old }
    ensures settled { result.why ≢ Why.LineFault → settled line.new }
{
    let left = desk.left(&seat);
    let mut seat = seat;
    let mut entry_lines = EntryLines::new();
    for heard in 0..LINES_PER_CALLER + 1 {
        let answered = answer(rt, alloc, desk, seat, heard, &mut entry_lines, line);
        seat = answered.seat;
        match answered.ends {
            None => {}
            Some(why) => {
                let taken = left - desk.left(&seat);
                return Ended { seat, why, taken };
            }
        }
    }
    unreachable!()
}
