//! One answer of a line, and what follows it.
ghost use Rattle.std.specs.Prelude.{◌≡◌, ◌≢◌, ℕ, ◌-◌, ◌<◌, ◌≤◌, None};
ghost use Rattle.desk_io.specs.Faults.{Rose};
ghost use Rattle.turn_gate.specs.Seats.{IsSeatOf};
ghost use Rattle.serve_desk.specs.Told.{line_of};
ghost use Rattle.serve_desk.specs.Answers.{Answers, Replies};

use crate::answered::Answered;
use crate::entry_lines::EntryLines;
use crate::put::put_on;
use crate::texts::{NO_MEMORY, SPENT, TOO_LONG, TOO_MANY, write_malformed};
use crate::{LINES_PER_CALLER, Why};
use call_history::Book;
use caller_lines::{CallerLine, Said, hear_next};
use desk_model::{DeskCore, Stated};
use desk_shared::{Called, Desk, SeatSpent};
use std::alloc::Global;
use std::sync::Wait;
use turn_gate::Seat;

/// Asks the line once, which gave so many lines before, and does what follows. The reply to a line is put before the next is asked.
pub(crate) fn answer<C: DeskCore, R: Wait>(
    rt: &R,
    alloc: Global,
    desk: &Desk<C>,
    seat: Seat<Book<C>>,
    heard: u32,
    entry_lines: &mut EntryLines,
    line: &mut Box<dyn CallerLine + Send>,
) -> Answered<C>
    requires seat { IsSeatOf desk.now seat }
    requires heard { heard ≤ LINES_PER_CALLER }
    ensures answers { Answers desk.now.start.book.opening heard (desk.now.start.quota - seat.calls)
        (line_of (faults line.old) (calls line.old))
        (line_of (faults line.new) (calls line.new))
        seat result.seat result.ends }
    ensures seat { IsSeatOf desk.now result.seat }
    ensures faults_grow { faults line.old ≤ faults line.new }
    ensures cause { result.ends ≡ Some Why.LineFault → Rose (faults line.old) (faults line.new) }
    ensures no_fault { result.ends ≢ Some Why.LineFault → faults line.new ≡ faults line.old }
    ensures settled { result.ends ≢ None → result.ends ≢ Some Why.LineFault → settled line.new }
{
    match hear_next(alloc, entry_lines.last_stated(), line) {
        Said::End => Answered {
            seat,
            ends: Some(Why::End),
        },
        Said::LineFault => Answered {
            seat,
            ends: Some(Why::LineFault),
        },
        said => reply(rt, desk, seat, heard, said, entry_lines, line),
    }
}

// Replies to what was said.
fn reply<C: DeskCore, R: Wait>(
    rt: &R,
    desk: &Desk<C>,
    seat: Seat<Book<C>>,
    heard: u32,
    said: Said,
    entry_lines: &mut EntryLines,
    line: &mut Box<dyn CallerLine + Send>,
) -> Answered<C>
    requires seat { IsSeatOf desk.now seat }
    requires heard { heard ≤ LINES_PER_CALLER }
    requires not_end { said ≢ Said.End }
    requires no_fault { said ≢ Said.LineFault }
    ensures replies { Replies desk.now.start.book.opening heard (desk.now.start.quota - seat.calls)
        (calls line.old) (calls line.new) said seat result.seat result.ends }
    ensures seat { IsSeatOf desk.now result.seat }
    ensures faults_grow { faults line.old ≤ faults line.new }
    ensures cause { result.ends ≡ Some Why.LineFault → Rose (faults line.old) (faults line.new) }
    ensures no_fault { result.ends ≢ Some Why.LineFault → faults line.new ≡ faults line.old }
    ensures settled { result.ends ≢ None → result.ends ≢ Some Why.LineFault → settled line.new }
{
    if heard == LINES_PER_CALLER {
        let ends = put_on(line, TOO_MANY, Some(Why::TooManyLines));
        return Answered { seat, ends };
    }
    match said {
        Said::TooLong => Answered {
            seat,
            ends: put_on(line, TOO_LONG, None),
        },
        Said::NoMemory => Answered {
            seat,
            ends: put_on(line, NO_MEMORY, None),
        },
        Said::Malformed(field) => Answered {
            seat,
            ends: put_on(line, write_malformed(field).as_slice(), None),
        },
        Said::Command(stated) => call(rt, desk, seat, stated, entry_lines, line),
        Said::End | Said::LineFault => unreachable!(),
    }
}

// Calls the desk with a command, and puts the entry's line; or says that the seat has no call left.
fn call<C: DeskCore, R: Wait>(
    rt: &R,
    desk: &Desk<C>,
    seat: Seat<Book<C>>,
    stated: Stated,
    entry_lines: &mut EntryLines,
    line: &mut Box<dyn CallerLine + Send>,
) -> Answered<C>
    requires { IsSeatOf desk.now seat }
    ensures replies { (heard : ℕ) → heard < LINES_PER_CALLER
        → Replies desk.now.start.book.opening heard (desk.now.start.quota - seat.calls)
        (calls line.old) (calls line.new) (Said.Command stated) seat result.seat result.ends }
    ensures seat { IsSeatOf desk.now result.seat }
    ensures faults_grow { faults line.old ≤ faults line.new }
    ensures cause { result.ends ≡ Some Why.LineFault → Rose (faults line.old) (faults line.new) }
    ensures no_fault { result.ends ≢ Some Why.LineFault → faults line.new ≡ faults line.old }
    ensures settled { result.ends ≢ None → result.ends ≢ Some Why.LineFault → settled line.new }
{
    let Called { seat, outcome } = desk.call(rt, seat, stated);
    match outcome {
        Ok(receipt) => Answered {
            seat,
            ends: put_on(line, entry_lines.write(&receipt.entry), None),
        },
        Err(SeatSpent) => Answered {
            seat,
            ends: put_on(line, SPENT, Some(Why::Spent)),
        },
    }
}
