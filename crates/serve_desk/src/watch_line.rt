//! One line served at a seat with a view.
ghost use Rattle.std.specs.Prelude.{true, ◌≡◌, ◌≢◌, ◌-◌, ◌≤◌, length};
ghost use Rattle.desk_io.specs.Faults.{Rose};
ghost use Rattle.desk_shared.specs.Kept.{KnowsOnlySure};
ghost use Rattle.serve_desk.specs.Told.{line_of};
ghost use Rattle.serve_desk.specs.WatchAnswers.{IsCallerOf};
ghost use Rattle.serve_desk.specs.Watches.{Watches};

use crate::answered_watched::AnsweredWatched;
use crate::ended_watched::EndedWatched;
use crate::entry_lines::EntryLines;
use crate::watch_answer::answer_watched;
use crate::{LINES_PER_CALLER, Why};
use board_window::View;
use call_history::Steps;
use caller_lines::CallerLine;
use desk_shared::{ShownBook, ShownDesk};
use std::alloc::Global;
use std::sync::Wait;
use turn_gate::Seat;

/// Serves a line at a seat of the desk, as `session` does, and answers its looks from the view, which is of the same desk: a line
/// `look,B,k` asks who stands at position k of board B, from 1, and is answered without an entry and without a turn. Behind the line of an entry that
/// isn't shown yet stands how many aren't. What a look sees is never older than what the caller saw before, nor than an entry of theirs that
/// was shown.
pub fn session_watched<B: Steps + Drop, R: Wait>(
    rt: &R,
    alloc: Global,
    desk: &ShownDesk<B>,
    seat: Seat<ShownBook<B>>,
    view: View,
    line: &mut Box<dyn CallerLine + Send>,
) -> EndedWatched<B>
    requires caller { IsCallerOf desk.now seat view }
    requires sure { KnowsOnlySure seat }
    ensures watches { Watches desk.now.start.book.opening (desk.now.start.quota - seat.calls) (length desk.now.start.book.entries)
        (line_of (faults line.old) (calls line.old))
        (line_of (faults line.new) (calls line.new))
        seat result.seat view result.view result.why result.taken }
    ensures caller { IsCallerOf desk.now result.seat result.view }
    ensures faults_grow { faults line.old ≤ faults line.new }
    ensures cause { result.why ≡ Why.LineFault → Rose (faults line.old) (faults line.new) }
    ensures no_fault { result.why ≢ Why.LineFault → result.why ≢ Why.JournalFault → faults line.new ≡ faults line.old }
    ensures settled { result.why ≢ Why.LineFault → result.why ≢ Why.JournalFault → settled line.new }
    ensures kept { B.always ≡ true → result.why ≢ Why.JournalFault }
{
    let left = desk.left(&seat);
    let mut seat = seat;
    let mut view = view;
    view.is_legal();
    let mut entry_lines = EntryLines::new();
    for heard in 0..LINES_PER_CALLER + 1 {
        let AnsweredWatched { seat: next, ends } = answer_watched(
            rt,
            alloc,
            desk,
            seat,
            &mut view,
            heard,
            &mut entry_lines,
            line,
        );
        seat = next;
        match ends {
            None => {}
            Some(why) => {
                let taken = left - desk.left(&seat);
                view.is_legal();
                return EndedWatched {
                    seat,
                    why,
                    taken,
                    view,
                };
            }
        }
    }
    unreachable!()
}
