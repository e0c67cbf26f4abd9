//! One answer of a line where looks at boards and crew calls are heard, and what follows it.
ghost use Rattle.std.specs.Prelude.{true, ◌≡◌, ◌≢◌, ℕ, ◌-◌, ◌<◌, ◌≤◌, ◌+◌, [], ◌∷◌, IfNone, IfSome, None, Some, length};
ghost use mathlib.Core.List.{IsPrefix};
ghost use Rattle.desk_io.specs.Faults.{Rose};
ghost use Rattle.turn_gate.specs.Seats.{SeatValue};
ghost use Rattle.desk_model.specs.texts.Journal.{entry_line};
ghost use Rattle.serve_desk.specs.Looks.{behind};
ghost use Rattle.serve_desk.specs.Told.{line_of};
ghost use Rattle.serve_desk.specs.Answers.{PutsOn};
ghost use Rattle.desk_shared.specs.Kept.{KnowsOnlySure};
ghost use Rattle.serve_desk.specs.WatchAnswers.{IsCallerOf, PutsAllOn, RepliesWatched, AnswersWatched};

use crate::answered_watched::AnsweredWatched;
use crate::entry_lines::EntryLines;
use crate::look_text::{write_behind, write_look};
use crate::put::{put_both, put_journal_fault, put_on};
use crate::texts::{NO_MEMORY, SPENT, TOO_LONG, TOO_MANY, write_malformed};
use crate::watch_crew::crew;
use crate::{LINES_PER_CALLER, Why};
use board_window::{Showing, View};
use call_history::Steps;
use caller_lines::{CallerLine, Request, Said, hear_next_request};
use desk_base::Code;
use desk_model::{Entry, Stated};
use desk_shared::{CalledShown, SeatSpent, ShownBook, ShownDesk, a_desk_has_one_wall};
use std::alloc::Global;
use std::sync::Wait;
use turn_gate::{Seat, what_one_entry_more_makes_known};

/// Asks the line once, which gave so many lines before, and does what follows: a look is answered from the view, without a turn and
/// without an entry, and a crew call by up to three. What is shown after a call is learnt before its reply is put, and the reply to a line is put before the next is asked.
pub(crate) fn answer_watched<B: Steps + Drop, R: Wait>(
    rt: &R,
    alloc: Global,
    desk: &ShownDesk<B>,
    seat: Seat<ShownBook<B>>,
    view: &mut View,
    heard: u32,
    entry_lines: &mut EntryLines,
    line: &mut Box<dyn CallerLine + Send>,
) -> AnsweredWatched<B>
    requires caller { IsCallerOf desk.now seat view.old }
    requires sure { KnowsOnlySure seat }
    requires heard { heard ≤ LINES_PER_CALLER }
    ensures answers { AnswersWatched desk.now.start.book.opening heard (desk.now.start.quota - seat.calls)
        (line_of (faults line.old) (calls line.old))
        (line_of (faults line.new) (calls line.new))
        seat result.seat view.old view.new result.ends }
    ensures caller { IsCallerOf desk.now result.seat view.new }
    ensures faults_grow { faults line.old ≤ faults line.new }
    ensures cause { result.ends ≡ Some Why.LineFault → Rose (faults line.old) (faults line.new) }
    ensures no_fault { result.ends ≢ Some Why.LineFault → result.ends ≢ Some Why.JournalFault
        → faults line.new ≡ faults line.old }
    ensures settled { result.ends ≢ None → result.ends ≢ Some Why.LineFault → result.ends ≢ Some Why.JournalFault
        → settled line.new }
    ensures kept { B.always ≡ true → result.ends ≢ Some Why.JournalFault }
    ensures sure { result.ends ≢ Some Why.JournalFault → KnowsOnlySure result.seat }
    ensures no_fewer { seat.sure ≤ result.seat.sure }
{
    match hear_next_request(alloc, entry_lines.last_stated(), line) {
        Request::Look { board, position } => AnsweredWatched {
            seat,
            ends: look(view, heard, board, position, line),
        },
        Request::Crew {
            minute,
            first,
            second,
        } => crew(
            rt,
            desk,
            seat,
            view,
            heard,
            minute,
            first,
            second,
            entry_lines,
            line,
        ),
        Request::Said(said) => match said {
            Said::End => AnsweredWatched {
                seat,
                ends: Some(Why::End),
            },
            Said::LineFault => AnsweredWatched {
                seat,
                ends: Some(Why::LineFault),
            },
            said => reply(rt, desk, seat, view, heard, said, entry_lines, line),
        },
    }
}

// Looks at a position of a board, from 1, and puts what is seen on the line; or that there was nothing to see.
fn look(
    view: &mut View,
    heard: u32,
    board: Code,
    position: u16,
    line: &mut Box<dyn CallerLine + Send>,
) -> Option<Why>
    requires { heard ≤ LINES_PER_CALLER }
    ensures replies { (left : ℕ) (seat : SeatValue) →
        RepliesWatched view.old.wall.opening heard left (calls line.old) (calls line.new)
        (Request.Look board position) seat seat view.old view.new result }
    ensures wall { view.new.wall ≡ view.old.wall }
    ensures begins { IsPrefix view.old.entries view.new.entries }
    ensures faults_grow { faults line.old ≤ faults line.new }
    ensures cause { result ≡ Some Why.LineFault → Rose (faults line.old) (faults line.new) }
    ensures no_fault { result ≢ Some Why.LineFault → faults line.new ≡ faults line.old }
    ensures settled { result ≢ None → result ≢ Some Why.LineFault → settled line.new }
    ensures kept { result ≢ Some Why.JournalFault }
{
    if heard == LINES_PER_CALLER {
        return put_on(line, TOO_MANY, Some(Why::TooManyLines));
    }
    match view.look(board, position) {
        Some(look) => put_on(line, write_look(&look).as_slice(), None),
        None => put_on(line, NO_MEMORY, None),
    }
}

// Replies to what was said.
fn reply<B: Steps + Drop, R: Wait>(
    rt: &R,
    desk: &ShownDesk<B>,
    seat: Seat<ShownBook<B>>,
    view: &mut View,
    heard: u32,
    said: Said,
    entry_lines: &mut EntryLines,
    line: &mut Box<dyn CallerLine + Send>,
) -> AnsweredWatched<B>
    requires caller { IsCallerOf desk.now seat view.old }
    requires sure { KnowsOnlySure seat }
    requires heard { heard ≤ LINES_PER_CALLER }
    requires not_end { said ≢ Said.End }
    requires no_fault { said ≢ Said.LineFault }
    ensures replies { RepliesWatched desk.now.start.book.opening heard (desk.now.start.quota - seat.calls)
        (calls line.old) (calls line.new) (Request.Said said) seat result.seat view.old view.new result.ends }
    ensures caller { IsCallerOf desk.now result.seat view.new }
    ensures faults_grow { faults line.old ≤ faults line.new }
    ensures cause { result.ends ≡ Some Why.LineFault → Rose (faults line.old) (faults line.new) }
    ensures no_fault { result.ends ≢ Some Why.LineFault → result.ends ≢ Some Why.JournalFault
        → faults line.new ≡ faults line.old }
    ensures settled { result.ends ≢ None → result.ends ≢ Some Why.LineFault → result.ends ≢ Some Why.JournalFault
        → settled line.new }
    ensures kept { B.always ≡ true → result.ends ≢ Some Why.JournalFault }
    ensures sure { result.ends ≢ Some Why.JournalFault → KnowsOnlySure result.seat }
    ensures no_fewer { seat.sure ≤ result.seat.sure }
{
    if heard == LINES_PER_CALLER {
        let ends = put_on(line, TOO_MANY, Some(Why::TooManyLines));
        return AnsweredWatched { seat, ends };
    }
    match said {
        Said::TooLong => AnsweredWatched {
            seat,
            ends: put_on(line, TOO_LONG, None),
        },
        Said::NoMemory => AnsweredWatched {
            seat,
            ends: put_on(line, NO_MEMORY, None),
        },
        Said::Malformed(field) => AnsweredWatched {
            seat,
            ends: put_on(line, write_malformed(field).as_slice(), None),
        },
        Said::Command(stated) => call(rt, desk, seat, view, stated, entry_lines, line),
        Said::End | Said::LineFault => unreachable!(),
    }
}

// Calls the desk with a command, learns what is shown then, and puts the entry's line, and how far what is shown is behind; or says that
// the entry could not be kept, or that the seat has no call left.
fn call<B: Steps + Drop, R: Wait>(
    rt: &R,
    desk: &ShownDesk<B>,
    seat: Seat<ShownBook<B>>,
    view: &mut View,
    stated: Stated,
    entry_lines: &mut EntryLines,
    line: &mut Box<dyn CallerLine + Send>,
) -> AnsweredWatched<B>
    requires caller { IsCallerOf desk.now seat view.old }
    requires sure { KnowsOnlySure seat }
    ensures replies { (heard : ℕ) → heard < LINES_PER_CALLER
        → RepliesWatched desk.now.start.book.opening heard (desk.now.start.quota - seat.calls)
        (calls line.old) (calls line.new) (Request.Said (Said.Command stated)) seat result.seat view.old view.new result.ends }
    ensures caller { IsCallerOf desk.now result.seat view.new }
    ensures faults_grow { faults line.old ≤ faults line.new }
    ensures cause { result.ends ≡ Some Why.LineFault → Rose (faults line.old) (faults line.new) }
    ensures no_fault { result.ends ≢ Some Why.LineFault → result.ends ≢ Some Why.JournalFault
        → faults line.new ≡ faults line.old }
    ensures settled { result.ends ≢ None → result.ends ≢ Some Why.LineFault → result.ends ≢ Some Why.JournalFault
        → settled line.new }
    ensures kept { B.always ≡ true → result.ends ≢ Some Why.JournalFault }
    ensures sure { result.ends ≢ Some Why.JournalFault → KnowsOnlySure result.seat }
    ensures no_fewer { seat.sure ≤ result.seat.sure }
{
    a_desk_has_one_wall();
    what_one_entry_more_makes_known();
    let CalledShown {
        seat,
        outcome,
        showing,
    } = desk.call(rt, seat, stated);
    match outcome {
        Ok(receipt) => {
            let Some(showing) = showing else {
                put_journal_fault(line);
                return AnsweredWatched {
                    seat,
                    ends: Some(Why::JournalFault),
                };
            };
            let behind = learn(view, showing);
            let ends = put_entry(line, entry_lines, &receipt.entry, behind);
            AnsweredWatched { seat, ends }
        }
        Err(SeatSpent) => AnsweredWatched {
            seat,
            ends: put_on(line, SPENT, Some(Why::Spent)),
        },
    }
}

/// Learns what is shown, and answers how far that is behind.
pub(crate) fn learn(view: &mut View, showing: Showing) -> u32
    requires { showing.note.wall ≡ view.old.wall }
    ensures wall { view.new.wall ≡ view.old.wall }
    ensures begins { IsPrefix view.old.entries view.new.entries }
    ensures told { IsPrefix showing.note.entries view.new.entries }
    ensures behind { result ≡ showing.behind }
{
    let Showing { note, behind } = showing;
    view.learn(note);
    behind
}

// Puts an entry's line, and behind it how many entries are not shown yet, where there are any.
fn put_entry(
    line: &mut Box<dyn CallerLine + Send>,
    entry_lines: &mut EntryLines,
    entry: &Entry,
    count: u32,
) -> Option<Why>
    ensures shown { count ≡ 0
        → PutsOn (entry_line entry.now) None (calls line.old) (calls line.new) result }
    ensures not_shown { 0 < count
        → PutsAllOn (entry_line entry.now ∷ behind count ∷ []) (calls line.old) (calls line.new) result }
    ensures faults_grow { faults line.old ≤ faults line.new }
    ensures cause { result ≡ Some Why.LineFault → Rose (faults line.old) (faults line.new) }
    ensures no_fault { result ≢ Some Why.LineFault → faults line.new ≡ faults line.old }
    ensures settled { result ≢ None → result ≢ Some Why.LineFault → settled line.new }
    ensures kept { result ≢ Some Why.JournalFault }
{
    let text = entry_lines.write(entry);
    if count == 0 {
        return put_on(line, text, None);
    }
    put_both(line, text, write_behind(count).as_slice())
}
