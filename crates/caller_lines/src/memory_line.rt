ghost use Rattle.std.specs.Prelude.{◌≡◌, ◌≢◌, ◌<◌, ◌≤◌, ◌+◌, ◌==◌, ◌↔◌, ◌^◌, length, map, drop, true, IsTrue, IfOk};
ghost use Rattle.std.specs.Bool.{OnTrue, OnFalse};
ghost use Rattle.std.specs.List.{list_any};
ghost use Rattle.desk_io.specs.Faults.{Rose};
ghost use Rattle.caller_lines.specs.Given.{answer_of};
ghost use Rattle.caller_lines.specs.LineCalls.{Asked, PutText, texts_in};
ghost use Rattle.caller_lines.specs.Told.{with_last, told_count, WasPut};

use crate::call_log::{CallLog, Part};
use crate::{CallerLine, Heard, LineBuf};
use desk_base::NoMemory;
use std::alloc::Global;
use std::marker::Model;

/// A line in memory, which gives the lines that it has and keeps what is put on it, as far as it has room. It fails at
/// the calls that it is told to fail at.
#[derive(Drop)]
pub struct MemoryLine {
    lines: Vec<Vec<u8>>,
    at: usize,
    failing: Vec<u64>,
    room: usize,
    bytes: Vec<u8>,
    puts: Vec<Part>,
    calls: u64,
    faults: u64,
    told: CallLog,
}

impl Model for MemoryLine {
    ghost use Rattle.std.specs.Prelude.{All, ◌≡◌, ◌<◌, ◌≤◌, ◌^◌, map, drop, slice_range, vec_len, vec_capacity};
    ghost use Rattle.caller_lines.specs.LineCalls.{texts_in};
    ghost use Rattle.caller_lines.specs.MemoryLine.{Talk};

    ghost Value = { Talk };

    ghost view = { λ s. record {
      left = drop s.at (map (λ line. line.items) s.lines.items);
      failing = s.failing.items;
      room = s.room;
      calls = s.calls;
      faults = s.faults;
      told = s.told;
      used = vec_len s.bytes;
    } };

    ghost invariant = { λ s. (s.at ≤ vec_len s.lines)
        × (vec_len s.bytes ≤ s.room) × (s.room ≤ vec_capacity s.bytes)
        × (vec_len s.puts ≤ s.room) × (s.room ≤ vec_capacity s.puts) × (s.room < 2 ^ 32)
        × All (λ put. (put.from ≤ put.to) × (put.to ≤ vec_len s.bytes)) s.puts.items
        × (texts_in s.told ≡ map (λ put. slice_range s.bytes.items put.from put.to) s.puts.items) };
}

impl MemoryLine {
    ghost use Rattle.caller_lines.specs.MemoryLine.{new_talk};

    /// A line that gives these lines, with room for so many bytes of puts and as many puts, fewer than 2^32.
    /// It fails at the calls of `next` and `put` whose numbers, counted together from 1, are in `failing`.
    pub fn new(
        alloc: Global,
        lines: Vec<Vec<u8>>,
        failing: Vec<u64>,
        room: usize,
    ) -> Result<MemoryLine, NoMemory>
        ensures talk { IfOk result (λ line.
            line ≡ new_talk (map (λ one. one.items) lines.items) failing.items room) }
        ensures room { IfOk result (λ _. room < 2 ^ 32) }
    {
        if room > u32::MAX as usize {
            return Err(NoMemory);
        }
        Ok(MemoryLine {
            lines,
            at: 0,
            failing,
            room,
            bytes: Vec::with_capacity(alloc, room)?,
            puts: Vec::with_capacity(alloc, room)?,
            calls: 0,
            faults: 0,
            told: CallLog::new(),
        })
    }
}

impl CallerLine for MemoryLine {
    ghost use Rattle.std.specs.Prelude.{Some, ⊤};
    ghost use Rattle.caller_lines.specs.MemoryLine.{next_given, after_next, takes_put, after_put};

    ghost faults = { λ s. s.faults };

    ghost calls = { λ s. Some s.told };

    ghost settled = { λ _. ⊤ };

    fn next(&mut self, into: &mut LineBuf) -> Heard
        ensures asked { Some self.new.told ≡ with_last (Some self.old.told) (Asked (answer_of result into.new.items)) }
        ensures faults_grow { self.old.faults ≤ self.new.faults }
        ensures cause { result ≡ Heard.Failed → Rose self.old.faults self.new.faults }
        ensures no_fault { result ≢ Heard.Failed → self.new.faults ≡ self.old.faults }

        ensures answer { answer_of result into.new.items ≡ next_given self.old }
        ensures after { self.new ≡ after_next self.old }
    {
        let heard = self.take_line(into);
        self.told.note_answer(heard, into);
        heard
    }

    fn put(&mut self, text: &[u8]) -> bool
        ensures puts { OnTrue result (Some self.new.told ≡ with_last (Some self.old.told) (PutText text.now)) }
        ensures no_put { OnFalse result (Some self.new.told ≡ Some self.old.told) }
        ensures faults_grow { self.old.faults ≤ self.new.faults }
        ensures cause { OnFalse result (Rose self.old.faults self.new.faults) }
        ensures no_fault { OnTrue result (self.new.faults ≡ self.old.faults) }

        ensures answer { result ≡ takes_put self.old (length text.now) }
        ensures after { self.new ≡ after_put self.old text.now }
    {
        self.calls = self.calls.saturating_add(1);
        if is_listed(&self.failing, self.calls)
            || self.room - self.bytes.len() < text.len()
            || self.room <= self.puts.len()
        {
            self.faults = self.faults.saturating_add(1);
            return false;
        }
        self.keep(text);
        true
    }

    fn finish(&mut self) -> bool
        ensures done { result ≡ true }
        ensures same { self.new ≡ self.old }
    {
        true
    }

    fn put_count(&self) -> u32
        ensures { result ≡ told_count (Some self.now.told) }
    {
        self.puts.len() as u32
    }

    fn was_put(&self, number: u32, text: &[u8]) -> bool
        ensures { IsTrue result ↔ WasPut (Some self.now.told) number text.now }
    {
        if number == 0 {
            return false;
        }
        match self.puts.get(number as usize - 1) {
            None => false,
            Some(put) => &self.bytes[put.from..put.to] == text,
        }
    }
}

impl MemoryLine {
    ghost use Rattle.caller_lines.specs.MemoryLine.{first_given, next_given, after_take, kept};

    // Takes the next line and counts the call, and a fault where it is to fail.
    fn take_line(&mut self, into: &mut LineBuf) -> Heard
        ensures answer { answer_of result into.new.items ≡ next_given self.old }
        ensures after { self.new ≡ after_take self.old }
        ensures faults_grow { self.old.faults ≤ self.new.faults }
    {
        self.calls = self.calls.saturating_add(1);
        if is_listed(&self.failing, self.calls) {
            self.faults = self.faults.saturating_add(1);
            return Heard::Failed;
        }
        self.give_first(into)
    }

    // Gives the first line that is left, if there is one.
    fn give_first(&mut self, into: &mut LineBuf) -> Heard
        ensures answer { answer_of result into.new.items ≡ first_given self.old.left }
        ensures after { self.new ≡ record self.old { left = drop 1 self.old.left } }
    {
        let Some(line) = self.lines.get(self.at) else {
            return Heard::End;
        };
        self.at += 1;
        into.clear();
        if into.try_extend_from_slice(line).is_err() {
            return Heard::TooLong;
        }
        Heard::Line
    }

    // Keeps a text, for which there is room.
    fn keep(&mut self, text: &[u8])
        requires bytes { self.old.used + length text.now ≤ self.old.room }
        requires puts { length (texts_in self.old.told) < self.old.room }
        ensures { self.new ≡ kept self.old text.now }
    {
        let from = self.bytes.len();
        self.bytes.extend_from_slice(text).unwrap();
        let to = self.bytes.len();
        let part = Part { from, to };
        self.puts.push_reserved(part);
        self.told.note_put(&self.bytes, part);
    }
}

// Whether the call is among those that fail.
fn is_listed(failing: &[u64], call: u64) -> bool
    ensures { result ≡ list_any (λ n. n == call) failing.now }
{
    failing.iter().any(|number| *number == call)
}
