//! Lines of a journal that are held until they are written.
ghost use Rattle.std.specs.Prelude.{◌≡◌, ◌≤◌, ◌+◌, ◌++◌, length, codes, vec_capacity};
ghost use Rattle.std.specs.Bool.{OnTrue, OnFalse};
ghost use Rattle.desk_io.specs.Faults.{Rose};
ghost use Rattle.desk_io.specs.Giving.{AddsFront};
ghost use Rattle.day_replay.specs.Gathered.{Gathers};
ghost use Rattle.day_replay.specs.Held.{held_bytes, held_line, held_lines};

use crate::lines::gather_text;
use desk_io::Sink;
use line_writer::done_at;

/// A line that is held.
#[derive(Clone, Copy)]
pub(crate) struct HeldLine<'a> {
    /// The bytes of its record, which are the text of its statement; empty where the whole line is held as text.
    pub(crate) stated: &'a [u8],
    /// How many bytes of it are held as text: the whole line, or what stands behind the record; none, where the record's bytes are held and
    /// it was done when it was stated.
    pub(crate) bytes: usize,
}

// Adds a line of caller 0 to those that wait in the buffer, which has room for it.
#[inline(always)]
fn add_line(buffer: &mut Vec<u8>, stated: &[u8], text: &[u8])
    requires { length buffer.old.items + 2 + length stated.now + length text.now ≤ vec_capacity buffer.old }
    ensures { buffer.new.items ≡ buffer.old.items ++ codes "0|" ++ stated.now ++ text.now }
{
    buffer.extend_from_slice(b"0|").unwrap();
    buffer.extend_from_slice(stated).unwrap();
    buffer.extend_from_slice(text).unwrap();
}

// Adds a line of caller 0 to those that wait in the buffer, and puts these into the sink as often as it is full. It stays a call, since few
// lines come where the buffer is full.
#[inline(never)]
fn gather_parts<K: Sink>(buffer: &mut Vec<u8>, stated: &[u8], text: &[u8], sink: &mut K) -> bool
    ensures all { OnTrue result (Gathers (K.held sink.old) (K.held sink.new)
        (buffer.old.items ++ (codes "0|" ++ stated.now ++ text.now)) buffer.new.items) }
    ensures front { OnFalse result (AddsFront (K.held sink.old) (K.held sink.new)
        (buffer.old.items ++ (codes "0|" ++ stated.now ++ text.now))) }

    ensures faults_grow { K.faults sink.old ≤ K.faults sink.new }
    ensures cause { OnFalse result (Rose (K.faults sink.old) (K.faults sink.new)) }
    ensures no_fault { OnTrue result (K.faults sink.new ≡ K.faults sink.old) }
{
    if !gather_text(buffer, b"0|", sink) {
        return false;
    }
    if !gather_text(buffer, stated, sink) {
        return false;
    }
    gather_text(buffer, text, sink)
}

// Adds a line of caller 0, as `gather_parts` does, which is called where the buffer has no room for it.
#[inline(always)]
fn gather_line<K: Sink>(buffer: &mut Vec<u8>, stated: &[u8], text: &[u8], sink: &mut K) -> bool
    ensures all { OnTrue result (Gathers (K.held sink.old) (K.held sink.new)
        (buffer.old.items ++ (codes "0|" ++ stated.now ++ text.now)) buffer.new.items) }
    ensures front { OnFalse result (AddsFront (K.held sink.old) (K.held sink.new)
        (buffer.old.items ++ (codes "0|" ++ stated.now ++ text.now))) }

    ensures faults_grow { K.faults sink.old ≤ K.faults sink.new }
    ensures cause { OnFalse result (Rose (K.faults sink.old) (K.faults sink.new)) }
    ensures no_fault { OnTrue result (K.faults sink.new ≡ K.faults sink.old) }
{
    if buffer.capacity() - buffer.len() <= 1 + stated.len() + text.len() {
        return gather_parts(buffer, stated, text, sink);
    }
    add_line(buffer, stated, text);
    true
}

/// Adds a line, of which this is held as text, to those that wait in the buffer. It says whether the sink took what was put, and stops at
/// the first fault.
#[inline(always)]
pub(crate) fn gather_held<K: Sink>(
    buffer: &mut Vec<u8>,
    stated: &[u8],
    text: &[u8],
    sink: &mut K,
) -> bool
    ensures all { OnTrue result (Gathers (K.held sink.old) (K.held sink.new)
        (buffer.old.items ++ held_line stated.now text.now) buffer.new.items) }
    ensures front { OnFalse result (AddsFront (K.held sink.old) (K.held sink.new)
        (buffer.old.items ++ held_line stated.now text.now)) }

    ensures faults_grow { K.faults sink.old ≤ K.faults sink.new }
    ensures cause { OnFalse result (Rose (K.faults sink.old) (K.faults sink.new)) }
    ensures no_fault { OnTrue result (K.faults sink.new ≡ K.faults sink.old) }
{
    if stated.is_empty() {
        return gather_text(buffer, text, sink);
    }
    match stated.first_chunk() {
        Some(minute) if text.is_empty() => gather_line(buffer, stated, &done_at(*minute), sink),
        _ => gather_line(buffer, stated, text, sink),
    }
}

/// Adds lines, of which this is held as text, to those that wait in the buffer. It says whether the sink took what was put, and stops at
/// the first fault.
pub(crate) fn gather_all_held<K: Sink>(
    buffer: &mut Vec<u8>,
    lines: &[HeldLine],
    texts: &[u8],
    sink: &mut K,
) -> bool
    requires { held_bytes lines.now ≡ length texts.now }
    ensures all { OnTrue result (Gathers (K.held sink.old) (K.held sink.new)
        (buffer.old.items ++ held_lines lines.now texts.now) buffer.new.items) }
    ensures front { OnFalse result (AddsFront (K.held sink.old) (K.held sink.new)
        (buffer.old.items ++ held_lines lines.now texts.now)) }

    ensures faults_grow { K.faults sink.old ≤ K.faults sink.new }
    ensures cause { OnFalse result (Rose (K.faults sink.old) (K.faults sink.new)) }
    ensures no_fault { OnTrue result (K.faults sink.new ≡ K.faults sink.old) }
{
    let mut left = texts;
    for line in lines {
        let (text, behind) = left.split_at(line.bytes);
        if !gather_held(buffer, line.stated, text, sink) {
            return false;
        }
        left = behind;
    }
    true
}
