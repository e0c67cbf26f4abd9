//! The form that keeps its journal while it serves callers.
ghost use Rattle.std.specs.Prelude.{◌≡◌, ◌≢◌, ◌⊎◌, ◌+◌, ◌≤◌, length};
ghost use Rattle.desk_model.specs.declared.limits.TheConstants.{LAST_CALLER};
ghost use Rattle.kept_desk.specs.Opened.{IsOpened};
ghost use Rattle.crewdesk_main.specs.Forms.{KeepsCounts};

use crate::audit_form::tell;
use audit_desk::JOURNAL_BYTES;
use call_history::CountedBook;
use caller_lines::{CallerLine, FileLine};
use desk_base::NoMemory;
use desk_io::{Sink, Source, Status};
use desk_model::{Booked, LAST_CALLER};
use fast_core::FastCore;
use journal_device::{Found, JournalFile};
use kept_desk::{
    Guard, Guarded, JOURNAL_ENTRIES, Opened, Refused, SystemClock, UntilEnd, open_desk, serve_kept,
    whole_lines,
};
use std::fs::{self, File, Files, OpenOptions};
use std::sync::Wait;
use std::thread::Threads;
use std::time::{Clock, Instant};
use std::{io, str};

// A sync that takes more microseconds is slow: more than the wakes by which callers hand a turn on.
const SLOW_SYNC: u128 = 50;

// A journal with room for fewer entries than this is nearly full.
const NEARLY_FULL: u32 = 20_000;

/// Serves callers at a desk whose journal is kept in the file of the first name: each entry's line is in it, and synced, before its reply is
/// put. A file that has a journal is gone on with, and the source is left alone; for one that has none the source has a day file. The
/// other names are the callers': the caller of each says what is in the file `NAME.in`, up to the line `end`, and has the replies in
/// `NAME.out`. Where there is a guard, what they state too far ahead of the clock is answered with the clock's minute. What is in the files
/// no clause says.
pub fn keep_callers<R, S: Source, K: Sink>(
    rt: &R,
    clock: &SystemClock<HostRuntime>,
    guard: Option<Guard>,
    words: &[String],
    source: &mut S,
    sink: &mut K,
) -> Status
where
    R: Files<File = File> + Threads + Wait + Sync + AllocGlobal + Eprint + Clock,
    requires some { 2 ≤ length words.now }
    requires most { length words.now ≤ LAST_CALLER + 1 }
    ensures form { result ≢ Status.Usage }
    ensures counts { KeepsCounts result (S.faults source.old) (S.faults source.new)
        (K.held sink.old) (K.held sink.new) (K.faults sink.old) (K.faults sink.new) }
{
    let [journal, names @ ..] = words else {
        unreachable!()
    };
    let mut file = match JournalFile::open(rt, journal.as_str()) {
        Ok(file) => file,
        Err(refusal) => {
            let _ = eprintln!(rt; "{}: {}", journal.as_str(), refusal);
            return Status::WriteFault;
        }
    };
    let text = match file.read_all(rt.alloc(), JOURNAL_BYTES) {
        Ok(text) => text,
        Err(fault) => return no_journal(rt, journal.as_str(), Status::from(fault)),
    };
    let is_slow = is_slow(rt, &mut file, text.len() as u64);
    match open_desk(rt.alloc(), source, file, &text, names.len() as u8, sink) {
        Ok(opened) => {
            say_opened(rt, &text, &opened);
            drop(text);
            let opened = opened.deferring(is_slow);
            serve_names(rt, clock, guard, opened, names)
        }
        Err(Refused::Ended(status)) => status,
        Err(Refused::Found(verdict)) => tell(rt.alloc(), &verdict, sink),
        Err(Refused::Fault(_file)) => Status::WriteFault,
    }
}

// Whether the file takes so long to sync that several entries are better kept by one sync: it is synced once, at the length that it has.
fn is_slow<R: Clock>(rt: &R, file: &mut JournalFile<File>, len: u64) -> bool {
    let Ok(before) = Instant::now(rt) else {
        return false;
    };
    file.cut(len)
        && before
            .elapsed(rt)
            .is_ok_and(|took| took.as_micros() > SLOW_SYNC)
}

// Says that a journal could not be read, and passes on how the run ends by that.
fn no_journal<R: Eprint>(rt: &R, journal: &str, status: Status) -> Status
    ensures { result ≡ status }
{
    let _ = eprintln!(rt; "{journal}: not read");
    status
}

// Says where a desk begins, or goes on: how many bytes were cut off, how many entries there are, and the moment of the last.
fn say_opened<R: Eprint, D: Found>(rt: &R, text: &[u8], opened: &Opened<D>) {
    let cut = text.len().saturating_sub(whole_lines(text));
    if cut > 0 {
        let _ = eprintln!(rt; "cut {cut} bytes");
    }
    let book = opened.book.book();
    let moment = match book.last() {
        Some(entry) => entry.moment(),
        None => opened.opening.start(),
    };
    let count = book.count();
    let word = if text.is_empty() { "begun" } else { "resumed" };
    let moment = moment.write();
    let moment = str::from_utf8(&moment).unwrap_or("");
    let _ = eprintln!(rt; "{word} {count} {moment}");
    let left = JOURNAL_ENTRIES.saturating_sub(count);
    if left < NEARLY_FULL {
        let _ = eprintln!(rt; "room for {left} entries");
    }
}

// Serves the callers of these names at a desk that was opened for as many. Where the files of one can't be opened the others are served, and the
// run ends as one with a fault.
fn serve_names<R, D: Found + Send>(
    rt: &R,
    clock: &SystemClock<HostRuntime>,
    guard: Option<Guard>,
    opened: Opened<D>,
    names: &[String],
) -> Status
where
    R: Files<File = File> + Threads + Wait + Sync + AllocGlobal + Eprint,
    requires opened { IsOpened opened.opening (⟦<CountedBook<FastCore> as Booked>⟧.history opened.book.book)
        opened.wall (⟦<CountedBook<FastCore> as Booked>⟧.room opened.book.book) opened.book.sound (D.kept opened.book.device) opened.quota (length names.now) }
    requires some { 1 ≤ length names.now }
    requires most { length names.now ≤ LAST_CALLER }
    ensures { (result ≡ Status.Fine) ⊎ ((result ≡ Status.WriteFault) ⊎ (result ≡ Status.NoMemory)) }
{
    let mut lines: Vec<Box<dyn CallerLine + Send>> = Vec::new(rt.alloc());
    let mut all_there = true;
    for name in names {
        let Ok((line, is_there)) = line_of(rt, clock, guard, name.as_str()) else {
            return Status::NoMemory;
        };
        all_there &= is_there;
        if lines.push(line).is_err() {
            return Status::NoMemory;
        }
    }
    match serve_kept(rt, rt.alloc(), opened, &mut lines) {
        Ok(book) if book.is_sound() && all_there => Status::Fine,
        Ok(_book) => Status::WriteFault,
        Err(NoMemory) => Status::NoMemory,
    }
}

// A caller's line over files, which ends with the caller's line `end`, and is held against a clock; one at no offset tells no minute.
type KeptLine = UntilEnd<Guarded<FileLine<File, File>, SystemClock<HostRuntime>>>;

// The line of a caller over the files of this name, and whether they could be opened.
fn line_of<R>(
    rt: &R,
    clock: &SystemClock<HostRuntime>,
    guard: Option<Guard>,
    name: &str,
) -> Result<(Box<KeptLine>, bool), NoMemory>
where
    R: Files<File = File> + AllocGlobal + Eprint,
{
    let said = format!(in rt.alloc(); "{name}.in")?;
    let replies = format!(in rt.alloc(); "{name}.out")?;
    let reader = open_said(rt, said.as_str());
    let writer = open_replies(rt, replies.as_str());
    let is_there = reader.is_ok() && writer.is_ok();
    if !is_there {
        let _ = eprintln!(rt; "{name}: cannot be opened");
    }
    let line = FileLine::new(reader.ok(), writer.ok());
    let (clock, ahead) = match guard {
        Some(guard) => (clock.at(Some(guard.offset)), guard.ahead),
        None => (clock.at(None), 0),
    };
    let line = Guarded::new(rt.alloc(), line, clock, ahead);
    Ok((Box::new(rt.alloc(), UntilEnd::new(line))?, is_there))
}

// Opens what a caller says: a plain file to its end; a pipe to write to it too, so that it neither waits for a writer nor ends with one.
fn open_said<R: Files<File = File>>(rt: &R, name: &str) -> io::Result<File> {
    let is_file = fs::metadata(rt, name)?.is_file();
    OpenOptions::new().read(true).write(!is_file).open(rt, name)
}

// Opens the place of a caller's replies: a plain file is made anew; a pipe is opened to read from it too, so that it waits for no reader.
fn open_replies<R: Files<File = File>>(rt: &R, name: &str) -> io::Result<File> {
    match fs::metadata(rt, name) {
        Ok(found) if !found.is_file() => OpenOptions::new().read(true).write(true).open(rt, name),
        _ => File::create(rt, name),
    }
}
