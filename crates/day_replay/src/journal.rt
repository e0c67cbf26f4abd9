//! Journals, written as a desk answers, or of the entries that it answered.
ghost use Rattle.std.specs.Prelude.{◌≡◌, ◌≤◌, ℕ, List, Option, [], length, vec_capacity};
ghost use Rattle.std.specs.Bool.{OnTrue, OnFalse};
ghost use Rattle.std.specs.Io.KnownBytes.{Appends};
ghost use Rattle.desk_io.specs.Faults.{Rose};
ghost use Rattle.desk_io.specs.Giving.{AddsFront};
ghost use Rattle.desk_model.specs.histories.History.{History, history_of};
ghost use Rattle.desk_model.specs.texts.Journal.{journal};
ghost use Rattle.day_replay.specs.Gathered.{Gathers};
ghost use Rattle.day_replay.specs.Replay.{goes_on};

use crate::gather;
use crate::lines::gather_lines;
use desk_io::{Sink, put_all};
use desk_model::{DeskCore, Entry, Opening, Stated};
use line_writer::{LineText, fill_with_entry, write_opening};
use record_rows::LastMinute;

/// How many bytes of a journal are put into a sink at once, at most.
pub const PIECE_BYTES: usize = 65_536;

/// Gathers the journal of a history that was opened so and has these entries in the buffer, which is put into the sink where a line
/// doesn't fit. It says whether the sink took what was put, and stops at the first fault.
pub(crate) fn gather_history<K: Sink>(
    buffer: &mut Vec<u8>,
    opening: &Opening,
    entries: &[Entry],
    sink: &mut K,
) -> bool
    requires empty { buffer.old.items ≡ [] }
    requires room { 512 ≤ vec_capacity buffer.old }
    ensures all { OnTrue result (Gathers (K.held sink.old) (K.held sink.new)
        (journal (history_of opening.now entries.now)) buffer.new.items) }
    ensures front { OnFalse result (AddsFront (K.held sink.old) (K.held sink.new)
        (journal (history_of opening.now entries.now))) }
    ensures capacity { vec_capacity buffer.old ≤ vec_capacity buffer.new }

    ensures faults_grow { K.faults sink.old ≤ K.faults sink.new }
    ensures cause { OnFalse result (Rose (K.faults sink.old) (K.faults sink.new)) }
    ensures no_fault { OnTrue result (K.faults sink.new ≡ K.faults sink.old) }
{
    gather(buffer, write_opening(opening).as_slice(), sink) && gather_lines(buffer, entries, sink)
}

/// Writes the journal of a history that was opened so and has these entries, as many lines at once as the buffer holds. It says
/// whether the sink took all lines, and stops at the first fault.
pub fn write_history<K: Sink>(
    opening: &Opening,
    entries: &[Entry],
    buffer: &mut Vec<u8>,
    sink: &mut K,
) -> bool
    requires empty { buffer.old.items ≡ [] }
    requires room { 512 ≤ vec_capacity buffer.old }

    ensures all { OnTrue result (Appends (K.held sink.old) (K.held sink.new)
        (journal (history_of opening.now entries.now))) }
    ensures front { OnFalse result (AddsFront (K.held sink.old) (K.held sink.new)
        (journal (history_of opening.now entries.now))) }
    ensures faults_grow { K.faults sink.old ≤ K.faults sink.new }
    ensures cause { OnFalse result (Rose (K.faults sink.old) (K.faults sink.new)) }
    ensures no_fault { OnTrue result (K.faults sink.new ≡ K.faults sink.old) }
{
    gather_history(buffer, opening, entries, sink) && put_all(sink, buffer)
}

/// Steps a desk through the commands as caller 0, and writes the lines of its entries behind the journal of its history so far,
/// which was put into the sink, or waits in the buffer. It says whether the sink took all lines, and stops at the first fault.
pub fn write_entries<C: DeskCore, K: Sink>(
    core: &mut C,
    commands: &[Stated],
    buffer: &mut Vec<u8>,
    sink: &mut K,
) -> bool
    requires left { length commands.now ≤ C.room core.old }
    requires room { 512 ≤ vec_capacity buffer.old }

    ensures all { OnTrue result ((before : Option (List ℕ)) (h : History) → C.stands core.old h
        → Gathers before (K.held sink.old) (journal h) buffer.old.items
        → Appends before (K.held sink.new) (journal (goes_on h commands.now))) }
    ensures front { OnFalse result ((before : Option (List ℕ)) (h : History) → C.stands core.old h
        → Gathers before (K.held sink.old) (journal h) buffer.old.items
        → AddsFront before (K.held sink.new) (journal (goes_on h commands.now))) }
    ensures faults_grow { K.faults sink.old ≤ K.faults sink.new }
    ensures cause { OnFalse result (Rose (K.faults sink.old) (K.faults sink.new)) }
    ensures no_fault { OnTrue result (K.faults sink.new ≡ K.faults sink.old) }
{
    let mut line = LineText::new();
    let mut stated_last = LastMinute::new();
    let mut moment_last = LastMinute::new();
    for stated in commands {
        let entry = core.step(0, *stated);
        fill_with_entry(&mut line, &mut stated_last, &mut moment_last, &entry);
        if !gather(buffer, line.as_slice(), sink) {
            return false;
        }
    }
    put_all(sink, buffer)
}
