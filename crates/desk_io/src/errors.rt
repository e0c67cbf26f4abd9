//! Readers and writers asked, and their errors counted.
ghost use Rattle.std.specs.Prelude.{◌≡◌, ◌≤◌, length, OnOk};
ghost use Rattle.std.specs.Io.{ReadsAtMost, WritesAtMost};
ghost use Rattle.std.specs.Io.KnownBytes.{ReadConsumes, WriteAppends, Appends};
ghost use Rattle.desk_io.specs.Errors.{errors_after, errors_written};

use std::io::{self, Read, Write};
use std::marker::Model;

/// How many errors the readers and writers gave that were asked through it. The count starts at 0 and stops at 2^64 - 1, and nothing
/// else raises it: a fault that needs one more of these is one that came.
#[derive(Debug, Drop)]
pub struct Errors {
    count: u64,
}

impl Model for Errors {
    ghost use Rattle.std.specs.Prelude.{ℕ};

    ghost Value = { ℕ };

    ghost view = { λ s. s.count };
}

impl Errors {
    /// None yet.
    pub fn new() -> Errors
        ensures { result ≡ 0 }
    {
        Errors { count: 0 }
    }

    /// Asks the reader for bytes.
    pub fn read<R: Read>(&mut self, reader: &mut R, into: &mut [u8]) -> io::Result<usize>
        ensures bound { ReadsAtMost result into.new }
        ensures bytes { ReadConsumes (R.remaining reader.old) (R.remaining reader.new) result into.new }
        ensures count { self.new ≡ errors_after result self.old }
        ensures faults_grow { self.old ≤ self.new }
    {
        let answer = reader.read(into);
        if answer.is_err() {
            self.count = self.count.saturating_add(1);
        }
        answer
    }

    /// Gives the writer a piece. To take nothing of some bytes is an error of it.
    pub fn write<W: Write>(&mut self, writer: &mut W, from: &[u8]) -> io::Result<usize>
        ensures bound { WritesAtMost result from.now }
        ensures bytes { WriteAppends (W.contents writer.old) (W.contents writer.new) result from.now }
        ensures count { self.new ≡ errors_written result (length from.now) self.old }
        ensures faults_grow { self.old ≤ self.new }
    {
        let answer = writer.write(from);
        match &answer {
            Ok(count) if *count > 0 || from.is_empty() => {}
            _ => self.count = self.count.saturating_add(1),
        }
        answer
    }

    /// Gives the writer all the bytes.
    pub fn write_all<W: Write>(&mut self, writer: &mut W, from: &[u8]) -> io::Result<()>
        ensures bytes { OnOk result (Appends (W.contents writer.old) (W.contents writer.new) from.now) }
        ensures count { self.new ≡ errors_after result self.old }
        ensures faults_grow { self.old ≤ self.new }
    {
        let answer = writer.write_all(from);
        if answer.is_err() {
            self.count = self.count.saturating_add(1);
        }
        answer
    }
}
