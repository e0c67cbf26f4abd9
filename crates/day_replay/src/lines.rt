//! Lines, gathered before they are put into a sink.
ghost use Rattle.std.specs.Prelude.{◌≡◌, ◌≤◌, ◌++◌, length, vec_capacity};
ghost use Rattle.std.specs.Bool.{OnTrue, OnFalse};
ghost use Rattle.desk_io.specs.Faults.{Rose};
ghost use Rattle.desk_io.specs.Giving.{AddsFront};
ghost use Rattle.desk_model.specs.texts.Journal.{entry_lines};
ghost use Rattle.day_replay.specs.Gathered.{Gathers};
ghost use Rattle.day_replay.specs.Forecast.{supposed_line};

use desk_io::{Sink, put_all};
use desk_model::Entry;
use line_writer::{LineText, fill_with_entry, put_count};
use record_rows::LastMinute;

/// Adds a line to those that wait in the buffer. Where it doesn't fit, these are put into the sink first: it says
/// whether the sink took them.
pub fn gather<K: Sink>(buffer: &mut Vec<u8>, line: &[u8], sink: &mut K) -> bool
    requires room { length line.now ≤ vec_capacity buffer.old }
    ensures all { OnTrue result (Gathers (K.held sink.old) (K.held sink.new)
        (buffer.old.items ++ line.now) buffer.new.items) }
    ensures front { OnFalse result (AddsFront (K.held sink.old) (K.held sink.new)
        buffer.old.items) }
    ensures capacity { vec_capacity buffer.old ≤ vec_capacity buffer.new }

    ensures faults_grow { K.faults sink.old ≤ K.faults sink.new }
    ensures cause { OnFalse result (Rose (K.faults sink.old) (K.faults sink.new)) }
    ensures no_fault { OnTrue result (K.faults sink.new ≡ K.faults sink.old) }
{
    if buffer.capacity() - buffer.len() < line.len() {
        if !put_all(sink, buffer) {
            return false;
        }
        buffer.clear();
    }
    buffer.extend_from_slice(line).unwrap();
    true
}

/// Adds a text of any length to those that wait in the buffer. Where it doesn't fit, these are put into the sink first, and where it is
/// longer than the buffer, the text as well. It says whether the sink took what was put, and stops at the first fault.
pub(crate) fn gather_text<K: Sink>(buffer: &mut Vec<u8>, text: &[u8], sink: &mut K) -> bool
    ensures all { OnTrue result (Gathers (K.held sink.old) (K.held sink.new)
        (buffer.old.items ++ text.now) buffer.new.items) }
    ensures front { OnFalse result (AddsFront (K.held sink.old) (K.held sink.new)
        (buffer.old.items ++ text.now)) }

    ensures faults_grow { K.faults sink.old ≤ K.faults sink.new }
    ensures cause { OnFalse result (Rose (K.faults sink.old) (K.faults sink.new)) }
    ensures no_fault { OnTrue result (K.faults sink.new ≡ K.faults sink.old) }
{
    if text.len() <= buffer.capacity() {
        return gather(buffer, text, sink);
    }
    if !put_all(sink, buffer) {
        return false;
    }
    buffer.clear();
    put_all(sink, text)
}

/// Adds the lines of entries to those that wait in the buffer, which are put into the sink where one doesn't fit. It says whether
/// the sink took what was put, and stops at the first fault.
pub(crate) fn gather_lines<K: Sink>(buffer: &mut Vec<u8>, entries: &[Entry], sink: &mut K) -> bool
    requires room { 512 ≤ vec_capacity buffer.old }
    ensures all { OnTrue result (Gathers (K.held sink.old) (K.held sink.new)
        (buffer.old.items ++ entry_lines entries.now) buffer.new.items) }
    ensures front { OnFalse result (AddsFront (K.held sink.old) (K.held sink.new)
        (buffer.old.items ++ entry_lines entries.now)) }
    ensures capacity { vec_capacity buffer.old ≤ vec_capacity buffer.new }

    ensures faults_grow { K.faults sink.old ≤ K.faults sink.new }
    ensures cause { OnFalse result (Rose (K.faults sink.old) (K.faults sink.new)) }
    ensures no_fault { OnTrue result (K.faults sink.new ≡ K.faults sink.old) }
{
    let mut line = LineText::new();
    let mut stated_last = LastMinute::new();
    let mut moment_last = LastMinute::new();
    for entry in entries {
        fill_with_entry(&mut line, &mut stated_last, &mut moment_last, entry);
        if !gather(buffer, line.as_slice(), sink) {
            return false;
        }
    }
    true
}

/// The line that says of how many entries behind it the commands are only supposed.
pub(crate) fn write_supposed(count: usize) -> LineText
    ensures { result.items ≡ supposed_line count }
{
    let mut line = LineText::new();
    put_count(&mut line, b"supposed", count as u64);
    line
}
