ghost use Rattle.std.specs.Prelude.{◌≡◌, ◌≢◌, ◌↔◌, ◌⊎◌, ◌≤◌, ◌<◌, ◌+◌, ◌++◌, length, [], false, None, IsTrue, IsNone, IfSome};
ghost use Rattle.std.specs.Bool.{OnTrue, OnFalse};
ghost use Rattle.desk_io.specs.Faults.{Rose, one_more};
ghost use Rattle.caller_lines.specs.FileLine.{HasNoFile, IsSomeBytes, Wrote, GaveOn};
ghost use Rattle.std.specs.Io.KnownBytes.{Consumes, IsAtEnd};
ghost use Rattle.caller_lines.specs.Takes.{left_of, Takes, TookUnfed, HasLonger, Gathers, Cuts};
ghost use Rattle.caller_lines.specs.Given.{answer_of};
ghost use Rattle.caller_lines.specs.Told.{with_last, told_count, WasPut};

use crate::texts_out::TextsOut;
use crate::{CallerLine, Heard, LineBuf};
use desk_io::Errors;
use memchr::memchr;
use std::io::{Read, Write};
use std::marker::Model;

// How many bytes are read at once, at most.
const PIECE: usize = 4_096;

// How many bytes a line may have that is skipped; one of more is a fault.
const LONGEST: usize = 16_777_216;

/// A line over a reader and a writer, which tells nothing of content. It reads a piece at a time, and lets texts wait while it holds
/// more bytes of its caller, so that they are written together: all of them before it reads again. Bytes at the end without a line
/// feed are a line; a line of more than 16,777,216 bytes is a fault, as is each error of the reader or the writer; and without either
/// of them each line that is asked for, and each text that is put, is a fault. There is no other.
#[derive(Drop)]
pub struct FileLine<R, W> {
    reader: Option<R>,
    piece: [u8; PIECE],
    from: usize,
    to: usize,
    out: TextsOut<W>,
    faults: u64,
    errors: Errors,
}

impl<R, W> Model for FileLine<R, W> {
    ghost use Rattle.std.specs.Prelude.{◌≤◌, slice_range};
    ghost use Rattle.caller_lines.specs.FileLine.{Ends};

    ghost Value = { Ends R W };

    ghost view = { λ s. record {
      reader = s.reader;
      writer = s.out.writer;
      held = slice_range s.piece s.from s.to;
      waiting = s.out.waiting.items;
      faults = s.faults;
      errors = s.errors;
    } };

    ghost invariant = { λ s. (s.from ≤ s.to) × (s.to ≤ 4096) };
}

impl<R: Read, W: Write> FileLine<R, W> {
    /// A line of what the reader gives, which writes what is put on it. None is a file that could not be opened.
    pub fn new(reader: Option<R>, writer: Option<W>) -> FileLine<R, W>
        ensures { result ≡ record { reader = reader; writer = writer; held = []; waiting = []; faults = 0; errors = 0 } }
    {
        FileLine {
            reader,
            piece: [0; PIECE],
            from: 0,
            to: 0,
            out: TextsOut::new(writer),
            faults: 0,
            errors: Errors::new(),
        }
    }
}

impl<R: Read + Drop, W: Write + Drop> CallerLine for FileLine<R, W> {
    ghost faults = { λ s. s.faults };

    ghost calls = { λ _. None };

    ghost settled = { λ s. s.waiting ≡ [] };

    fn next(&mut self, into: &mut LineBuf) -> Heard
        ensures faults_grow { self.old.faults ≤ self.new.faults }
        ensures cause { result ≡ Heard.Failed → Rose self.old.faults self.new.faults }
        ensures no_fault { result ≢ Heard.Failed → self.new.faults ≡ self.old.faults }
        ensures count { result ≡ Heard.Failed → self.new.faults ≡ one_more self.old.faults }

        // It fails only where the reader gave an error, a file is missing, or a line has more bytes than may be skipped.
        ensures fault { result ≡ Heard.Failed → Rose self.old.errors self.new.errors ⊎ (HasNoFile self.old
            ⊎ TookUnfed (left_of R.remaining self.old) (left_of R.remaining self.new)) }
        ensures no_error { result ≢ Heard.Failed → self.new.errors ≡ self.old.errors }
        ensures errors_grow { self.old.errors ≤ self.new.errors }
        ensures no_file { HasNoFile self.old → result ≡ Heard.Failed }

        // What waits stays behind what was written, and all of it is written before the reader is asked for more.
        ensures gave { result ≢ Heard.Failed → GaveOn W.contents self.old.writer self.new.writer
            self.old.waiting self.new.waiting [] }
        ensures unasked { result ≢ Heard.Failed → self.new.waiting ≢ [] → self.new.reader ≡ self.old.reader }
        ensures settled { result ≡ Heard.End → self.new.waiting ≡ [] }

        // Of a reader that tells its bytes, what is given is what it had next.
        ensures takes { Takes (left_of R.remaining self.old) (left_of R.remaining self.new)
            (answer_of result into.new.items) }
        ensures too_long { HasLonger (left_of R.remaining self.old)
            → (result ≡ Heard.TooLong) ⊎ (Rose self.old.errors self.new.errors ⊎ HasNoFile self.old) }
    {
        let heard = self.read_line(into);
        if heard == Heard::Failed {
            self.faults = self.faults.saturating_add(1);
        }
        heard
    }

    fn put(&mut self, text: &[u8]) -> bool
        ensures faults_grow { self.old.faults ≤ self.new.faults }
        ensures cause { OnFalse result (Rose self.old.faults self.new.faults) }
        ensures no_fault { OnTrue result (self.new.faults ≡ self.old.faults) }
        ensures count { OnFalse result (self.new.faults ≡ one_more self.old.faults) }

        // It fails only where the writer gave an error or a file is missing.
        ensures fault { OnFalse result (Rose self.old.errors self.new.errors ⊎ HasNoFile self.old) }
        ensures no_error { OnTrue result (self.new.errors ≡ self.old.errors) }
        ensures errors_grow { self.old.errors ≤ self.new.errors }
        ensures no_file { HasNoFile self.old → result ≡ false }

        // The text is behind all that was put before. Where no more bytes of the caller are held, all of that is written.
        ensures gave { OnTrue result (GaveOn W.contents self.old.writer self.new.writer
            self.old.waiting self.new.waiting text.now) }
        ensures at_once { OnTrue result (self.old.held ≡ [] → self.new.waiting ≡ []) }
        ensures held { self.new.held ≡ self.old.held }
        ensures reader { self.new.reader ≡ self.old.reader }
    {
        let put = self.give(text);
        if !put {
            self.faults = self.faults.saturating_add(1);
        }
        put
    }

    fn finish(&mut self) -> bool
        ensures faults_grow { self.old.faults ≤ self.new.faults }
        ensures cause { OnFalse result (Rose self.old.faults self.new.faults) }
        ensures no_fault { OnTrue result (self.new.faults ≡ self.old.faults) }
        ensures count { OnFalse result (self.new.faults ≡ one_more self.old.faults) }

        // It fails only where the writer gave an error or a file is missing.
        ensures fault { OnFalse result (Rose self.old.errors self.new.errors ⊎ HasNoFile self.old) }
        ensures no_error { OnTrue result (self.new.errors ≡ self.old.errors) }
        ensures errors_grow { self.old.errors ≤ self.new.errors }

        // All that was put is written.
        ensures wrote { OnTrue result (Wrote W.contents self.old.writer self.new.writer self.old.waiting) }
        ensures settled { OnTrue result (self.new.waiting ≡ []) }
        ensures held { self.new.held ≡ self.old.held }
        ensures reader { self.new.reader ≡ self.old.reader }
    {
        let written = self.out.write_waiting(&mut self.errors);
        if !written {
            self.faults = self.faults.saturating_add(1);
        }
        written
    }

    fn put_count(&self) -> u32 {
        0
    }

    fn was_put(&self, _number: u32, _text: &[u8]) -> bool {
        false
    }
}

impl<R: Read, W: Write> FileLine<R, W> {
    // Reads the next line, a piece at a time.
    fn read_line(&mut self, into: &mut LineBuf) -> Heard
        ensures fault { result ≡ Heard.Failed → Rose self.old.errors self.new.errors ⊎ (HasNoFile self.old
            ⊎ TookUnfed (left_of R.remaining self.old) (left_of R.remaining self.new)) }
        ensures no_error { result ≢ Heard.Failed → self.new.errors ≡ self.old.errors }
        ensures errors_grow { self.old.errors ≤ self.new.errors }
        ensures no_file { HasNoFile self.old → result ≡ Heard.Failed }
        ensures takes { Takes (left_of R.remaining self.old) (left_of R.remaining self.new)
            (answer_of result into.new.items) }
        ensures gave { result ≢ Heard.Failed → GaveOn W.contents self.old.writer self.new.writer
            self.old.waiting self.new.waiting [] }
        ensures unasked { result ≢ Heard.Failed → self.new.waiting ≢ [] → self.new.reader ≡ self.old.reader }
        ensures settled { result ≡ Heard.End → self.new.waiting ≡ [] }
        ensures faults { self.new.faults ≡ self.old.faults }
    {
        into.clear();
        if self.reader.is_none() || self.out.writer.is_none() {
            return Heard::Failed;
        }
        let mut len = 0;
        while len <= LONGEST {
            match self.gather(into) {
                Gathered::Fed(count) if len + count > LONGEST => return Heard::Failed,
                Gathered::Fed(count) if len + count > 512 => return Heard::TooLong,
                Gathered::Fed(_) => return Heard::Line,
                Gathered::Part(count) => len += count,
                Gathered::End if len > 512 => return Heard::TooLong,
                Gathered::End if len > 0 => return Heard::Line,
                Gathered::End => return Heard::End,
                Gathered::Failed => return Heard::Failed,
            }
        }
        Heard::Failed
    }

    // Gathers what is held, up to a line feed, and reads a piece first where none is held.
    fn gather(&mut self, into: &mut LineBuf) -> Gathered
        ensures some { IsSomeBytes result }
        ensures error { result ≡ Gathered.Failed → Rose self.old.errors self.new.errors ⊎ HasNoFile self.old }
        ensures no_error { result ≢ Gathered.Failed → self.new.errors ≡ self.old.errors }
        ensures errors_grow { self.old.errors ≤ self.new.errors }
        ensures there { HasNoFile self.new → HasNoFile self.old }
        ensures gathers { Gathers (left_of R.remaining self.old) (left_of R.remaining self.new)
            into.old.items into.new.items result }
        ensures gave { result ≢ Gathered.Failed → GaveOn W.contents self.old.writer self.new.writer
            self.old.waiting self.new.waiting [] }
        ensures unasked { result ≢ Gathered.Failed → self.new.waiting ≢ [] → self.new.reader ≡ self.old.reader }
        ensures settled { result ≡ Gathered.End → self.new.waiting ≡ [] }
        ensures faults { self.new.faults ≡ self.old.faults }
    {
        if !self.fill() {
            return Gathered::Failed;
        }
        if self.from == self.to {
            return Gathered::End;
        }
        self.cut_held(into)
    }

    // Cuts off what is held, up to its first line feed.
    fn cut_held(&mut self, into: &mut LineBuf) -> Gathered
        requires { 0 < length self.old.held }
        ensures some { IsSomeBytes result }
        ensures cuts { Cuts self.old.held self.new.held into.old.items into.new.items result }
        ensures reader { self.new.reader ≡ self.old.reader }
        ensures writer { self.new.writer ≡ self.old.writer }
        ensures waiting { self.new.waiting ≡ self.old.waiting }
        ensures faults { self.new.faults ≡ self.old.faults }
        ensures errors { self.new.errors ≡ self.old.errors }
    {
        let held = &self.piece[self.from..self.to];
        match memchr(b'\n', held) {
            None => {
                let count = held.len();
                add(into, held);
                self.from = self.to;
                Gathered::Part(count)
            }
            Some(count) => {
                add(into, &held[..count]);
                self.from += count + 1;
                Gathered::Fed(count)
            }
        }
    }

    // Reads a piece where none is held, and writes all that waits before; and says whether the reader and the writer did it without an
    // error.
    fn fill(&mut self) -> bool
        ensures error { OnFalse result (Rose self.old.errors self.new.errors ⊎ HasNoFile self.old) }
        ensures no_error { OnTrue result (self.new.errors ≡ self.old.errors) }
        ensures errors_grow { self.old.errors ≤ self.new.errors }
        ensures there { HasNoFile self.new → HasNoFile self.old }
        ensures kept { Consumes (left_of R.remaining self.old) (left_of R.remaining self.new) [] }
        ensures end { OnTrue result (self.new.held ≡ [] → IsAtEnd (left_of R.remaining self.new)) }
        ensures gave { OnTrue result (GaveOn W.contents self.old.writer self.new.writer
            self.old.waiting self.new.waiting []) }
        ensures unasked { OnTrue result (self.new.waiting ≢ [] → self.new.reader ≡ self.old.reader) }
        ensures settled { OnTrue result (self.new.held ≡ [] → self.new.waiting ≡ []) }
        ensures faults { self.new.faults ≡ self.old.faults }
    {
        if self.from < self.to {
            return self.out.writer.is_some();
        }
        if !self.out.write_waiting(&mut self.errors) {
            return false;
        }
        self.ask()
    }

    // Reads a piece in place of what was held, where nothing waits: this is the one place where the reader is asked. It says whether the
    // reader did it without an error.
    fn ask(&mut self) -> bool
        requires { self.old.waiting ≡ [] }
        ensures error { OnFalse result (Rose self.old.errors self.new.errors ⊎ HasNoFile self.old) }
        ensures no_error { OnTrue result (self.new.errors ≡ self.old.errors) }
        ensures errors_grow { self.old.errors ≤ self.new.errors }
        ensures there { HasNoFile self.new → HasNoFile self.old }
        ensures kept { self.old.held ≡ [] → Consumes (left_of R.remaining self.old) (left_of R.remaining self.new) [] }
        ensures end { OnTrue result (self.new.held ≡ [] → IsAtEnd (left_of R.remaining self.new)) }
        ensures writer { self.new.writer ≡ self.old.writer }
        ensures waiting { self.new.waiting ≡ [] }
        ensures faults { self.new.faults ≡ self.old.faults }
    {
        self.from = 0;
        self.to = 0;
        let Some(reader) = &mut self.reader else {
            return false;
        };
        match self.errors.read(reader, &mut self.piece) {
            Ok(count) => {
                self.to = count;
                true
            }
            Err(_) => false,
        }
    }

    // Lets a text wait while bytes of the caller are held, and else writes it behind all that waits; and says whether that was done
    // without an error, where both files are there.
    fn give(&mut self, text: &[u8]) -> bool
        ensures fault { OnFalse result (Rose self.old.errors self.new.errors ⊎ HasNoFile self.old) }
        ensures no_error { OnTrue result (self.new.errors ≡ self.old.errors) }
        ensures errors_grow { self.old.errors ≤ self.new.errors }
        ensures no_file { HasNoFile self.old → result ≡ false }
        ensures gave { OnTrue result (GaveOn W.contents self.old.writer self.new.writer
            self.old.waiting self.new.waiting text.now) }
        ensures at_once { OnTrue result (self.old.held ≡ [] → self.new.waiting ≡ []) }
        ensures held { self.new.held ≡ self.old.held }
        ensures reader { self.new.reader ≡ self.old.reader }
        ensures faults { self.new.faults ≡ self.old.faults }
    {
        if self.reader.is_none() {
            return false;
        }
        self.out.put(&mut self.errors, text, self.from == self.to)
    }
}

// What was gathered of a line.
#[derive(Clone, Copy, Debug)]
enum Gathered {
    // So many bytes and a line feed behind them.
    Fed(usize),
    // So many bytes, more than none, of a line that goes on.
    Part(usize),
    // No byte is left.
    End,
    // The reader had a fault.
    Failed,
}

// Adds a part of a line, if it fits; a line of which a part doesn't fit is too long.
fn add(into: &mut LineBuf, part: &[u8])
    ensures { length into.old.items + length part.now ≤ 512
        → into.new.items ≡ into.old.items ++ part.now }
{
    let _ = into.try_extend_from_slice(part);
}
