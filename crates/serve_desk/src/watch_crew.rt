//! A crew call of a line, and what is put for it.
ghost use Rattle.std.specs.Prelude.{true, ◌≡◌, ◌≢◌, ℕ, ◌-◌, ◌<◌, ◌≤◌, [], ◌∷◌, ◌++◌, map, Some, None};
ghost use Rattle.desk_base.specs.Minute.{IsInYears};
ghost use Rattle.desk_io.specs.Faults.{Rose};
ghost use Rattle.crew_call.specs.CrewCalls.{somes};
ghost use Rattle.desk_model.specs.texts.Journal.{entry_line};
ghost use Rattle.serve_desk.specs.Crews.{crew_texts};
ghost use Rattle.serve_desk.specs.Looks.{behind};
ghost use Rattle.desk_shared.specs.Kept.{KnowsOnlySure};
ghost use Rattle.serve_desk.specs.WatchAnswers.{IsCallerOf, PutsAllOn, RepliesWatched};

use crate::answered_watched::AnsweredWatched;
use crate::crew_text::{write_crew, write_too_few};
use crate::entry_lines::EntryLines;
use crate::look_text::write_behind;
use crate::put::{put_journal_fault, put_on};
use crate::texts::TOO_MANY;
use crate::watch_answer::learn;
use crate::{LINES_PER_CALLER, Why};
use board_window::View;
use call_history::Steps;
use caller_lines::{CallerLine, Request};
use crew_call::CrewOutcome;
use desk_base::{Minute, VacNo};
use desk_model::Entry;
use desk_shared::{CrewCalled, ShownBook, ShownDesk, TooFew, a_desk_has_one_wall};
use std::sync::Wait;
use turn_gate::{Seat, what_one_entry_more_makes_known};

/// Calls two vacancies as one outcome, learns what is shown then, and puts the lines of the entries, what the call came to, and how far
/// what is shown is behind; or says that an entry could not be kept, or that the seat has too few calls left.
pub(crate) fn crew<B: Steps + Drop, R: Wait>(
    rt: &R,
    desk: &ShownDesk<B>,
    seat: Seat<ShownBook<B>>,
    view: &mut View,
    heard: u32,
    minute: Minute,
    first: VacNo,
    second: VacNo,
    entry_lines: &mut EntryLines,
    line: &mut Box<dyn CallerLine + Send>,
) -> AnsweredWatched<B>
    requires caller { IsCallerOf desk.now seat view.old }
    requires sure { KnowsOnlySure seat }
    requires heard { heard ≤ LINES_PER_CALLER }
    requires minute { IsInYears minute }
    ensures replies { RepliesWatched desk.now.start.book.opening heard (desk.now.start.quota - seat.calls)
        (calls line.old) (calls line.new) (Request.Crew minute first second) seat result.seat view.old view.new result.ends }
    ensures caller { IsCallerOf desk.now result.seat view.new }
    ensures faults_grow { faults line.old ≤ faults line.new }
    ensures cause { result.ends ≡ Some Why.LineFault → Rose (faults line.old) (faults line.new) }
    ensures no_fault { result.ends ≢ Some Why.LineFault → result.ends ≢ Some Why.JournalFault
        → faults line.new ≡ faults line.old }
    ensures settled { result.ends ≢ None → result.ends ≢ Some Why.LineFault → result.ends ≢ Some Why.JournalFault
        → settled line.new }
    ensures kept { B.always ≡ true → result.ends ≢ Some Why.JournalFault }
    ensures sure { result.ends ≢ Some Why.JournalFault → KnowsOnlySure result.seat }
    ensures no_fewer { seat.sure ≤ result.seat.sure }
{
    if heard == LINES_PER_CALLER {
        let ends = put_on(line, TOO_MANY, Some(Why::TooManyLines));
        return AnsweredWatched { seat, ends };
    }
    a_desk_has_one_wall();
    what_one_entry_more_makes_known();
    let CrewCalled {
        seat,
        entries,
        outcome,
        showing,
    } = desk.crew(rt, seat, minute, first, second);
    match outcome {
        Ok(told) => {
            let Some(showing) = showing else {
                put_journal_fault(line);
                return AnsweredWatched {
                    seat,
                    ends: Some(Why::JournalFault),
                };
            };
            let count = learn(view, showing);
            let ends = put_crew(line, entry_lines, &entries, &told, count);
            AnsweredWatched { seat, ends }
        }
        Err(TooFew { left }) => AnsweredWatched {
            seat,
            ends: put_on(line, write_too_few(left).as_slice(), None),
        },
    }
}

// Puts the lines of the entries, what they came to, and how many entries are not shown yet, where there are any.
fn put_crew(
    line: &mut Box<dyn CallerLine + Send>,
    entry_lines: &mut EntryLines,
    entries: &[Option<Entry>; 3],
    told: &CrewOutcome,
    count: u32,
) -> Option<Why>
    ensures shown { count ≡ 0
        → PutsAllOn (crew_texts (somes entries.now) told.now) (calls line.old) (calls line.new) result }
    ensures not_shown { 0 < count
        → PutsAllOn (crew_texts (somes entries.now) told.now ++ behind count ∷ []) (calls line.old) (calls line.new) result }
    ensures faults_grow { faults line.old ≤ faults line.new }
    ensures cause { result ≡ Some Why.LineFault → Rose (faults line.old) (faults line.new) }
    ensures no_fault { result ≢ Some Why.LineFault → faults line.new ≡ faults line.old }
    ensures settled { result ≢ None → result ≢ Some Why.LineFault → settled line.new }
    ensures kept { result ≢ Some Why.JournalFault }
{
    let ends = put_outcome(line, entry_lines, entries, told);
    if ends.is_some() {
        return ends;
    }
    if count == 0 {
        return ends;
    }
    put_on(line, write_behind(count).as_slice(), None)
}

// Puts the lines of the entries, and what they came to.
fn put_outcome(
    line: &mut Box<dyn CallerLine + Send>,
    entry_lines: &mut EntryLines,
    entries: &[Option<Entry>; 3],
    told: &CrewOutcome,
) -> Option<Why>
    ensures puts { PutsAllOn (crew_texts (somes entries.now) told.now) (calls line.old) (calls line.new) result }
    ensures faults_grow { faults line.old ≤ faults line.new }
    ensures cause { result ≡ Some Why.LineFault → Rose (faults line.old) (faults line.new) }
    ensures no_fault { result ≢ Some Why.LineFault → faults line.new ≡ faults line.old }
    ensures settled { result ≢ None → result ≢ Some Why.LineFault → settled line.new }
    ensures kept { result ≢ Some Why.JournalFault }
{
    let ends = put_entries(line, entry_lines, entries);
    match ends {
        None => put_on(line, write_crew(told).as_slice(), None),
        Some(_) => ends,
    }
}

// Puts the lines of the entries.
fn put_entries(
    line: &mut Box<dyn CallerLine + Send>,
    entry_lines: &mut EntryLines,
    entries: &[Option<Entry>; 3],
) -> Option<Why>
    ensures puts { PutsAllOn (map entry_line (somes entries.now)) (calls line.old) (calls line.new) result }
    ensures faults_grow { faults line.old ≤ faults line.new }
    ensures cause { result ≡ Some Why.LineFault → Rose (faults line.old) (faults line.new) }
    ensures no_fault { result ≢ Some Why.LineFault → faults line.new ≡ faults line.old }
    ensures settled { result ≢ None → result ≢ Some Why.LineFault → settled line.new }
    ensures kept { result ≢ Some Why.JournalFault }
{
    for entry in entries {
        let ends = put_some(line, entry_lines, entry);
        if ends.is_some() {
            return ends;
        }
    }
    None
}

// Puts an entry's line, where it is there.
fn put_some(
    line: &mut Box<dyn CallerLine + Send>,
    entry_lines: &mut EntryLines,
    entry: &Option<Entry>,
) -> Option<Why>
    ensures puts { PutsAllOn (map entry_line (somes (entry.now ∷ []))) (calls line.old) (calls line.new) result }
    ensures faults_grow { faults line.old ≤ faults line.new }
    ensures cause { result ≡ Some Why.LineFault → Rose (faults line.old) (faults line.new) }
    ensures no_fault { result ≢ Some Why.LineFault → faults line.new ≡ faults line.old }
    ensures settled { result ≢ None → result ≢ Some Why.LineFault → settled line.new }
    ensures kept { result ≢ Some Why.JournalFault }
{
    match entry {
        Some(entry) => put_on(line, entry_lines.write(entry), None),
        None => None,
    }
}
