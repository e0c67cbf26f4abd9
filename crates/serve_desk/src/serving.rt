//! Callers served behind a day file.
ghost use Rattle.std.specs.Prelude.{◌≡◌, ◌≢◌, ◌<◌, ◌≤◌, ◌↔◌, ◌+◌, ◌*◌, IfOk, IsErr, length, [], vec_len, vec_capacity};
ghost use Rattle.std.specs.List.{All};
ghost use Rattle.desk_model.specs.histories.Legal.{IsLegal};
ghost use Rattle.desk_model.specs.statements.Fits.{IsStated};
ghost use Rattle.desk_model.specs.statements.Opening.{IsOpening};
ghost use Rattle.command_parser.specs.declared.limits.TheConstants.{RECORD_LIMIT};
ghost use Rattle.day_replay.specs.Ends.{EndsWriting};
ghost use Rattle.day_replay.specs.Replay.{EndsDay};
ghost use Rattle.serve_desk.specs.AllLines.{AreAllServed};
ghost use Rattle.serve_desk.specs.Serve.{IsNoNumberOfLines, ServesDay};
ghost use Rattle.serve_desk.specs.ServeBy.{ServesBehindBy, ServesDayBy, ServesHistoryBy, served_by};
ghost use Rattle.serve_desk.specs.Told.{lines_of};
ghost use Rattle.serve_desk.specs.WatchLines.{WatchesDay};

use crate::day_book::book_of_day;
use crate::{CALLS_PER_LINE, Sessions, serve_lines, watch_lines};
use board_window::NewWall;
use call_history::Book;
use caller_lines::CallerLine;
use command_parser::DayFile;
use day_replay::{PIECE_BYTES, take_day, write_history};
use desk_base::NoMemory;
use desk_io::{Sink, Source, Status};
use desk_model::{Booked, DeskCore, LAST_CALLER, Opening, one_history_is_legal};
use std::alloc::Global;
use std::sync::Wait;
use std::thread::Threads;

/// Reads a day file from the source and answers its commands as caller 0; then serves 1 to 63 lines at the same time, line i as
/// caller i, from 1, with 5,000 calls of each; and when all have ended, writes the journal of the whole to the sink. It takes all
/// memory of its own before it asks the first line: want of memory in reading a line is told on that line. `Usage` comes where
/// there is no line, or there are more, and then nothing is read.
pub fn serve<R: Threads + Wait + Sync, S: Source, K: Sink>(
    rt: &R,
    alloc: Global,
    source: &mut S,
    lines: &mut Vec<Box<dyn CallerLine + Send>>,
    sink: &mut K,
) -> Status
    ensures usage { result ≡ Status.Usage ↔ IsNoNumberOfLines (vec_len lines.old) }
    ensures ends { EndsDay result (ServesDay (S.left source.old) (S.left source.new)
        (lines_of ⟦<(dyn CallerLine + Send) as CallerLine>⟧ lines.old.items)
        (lines_of ⟦<(dyn CallerLine + Send) as CallerLine>⟧ lines.new.items))
        (S.left source.old) (S.left source.new) (S.faults source.old) (S.faults source.new)
        (K.held sink.old) (K.held sink.new) (K.faults sink.old) (K.faults sink.new) }
    ensures unasked { result ≢ Status.Fine → result ≢ Status.WriteFault → lines.new ≡ lines.old }
    ensures unread { result ≡ Status.Usage → S.left source.new ≡ S.left source.old }
{
    serve_by(rt, alloc, Sessions::WithoutLooks, source, lines, sink)
}

/// As `serve`, and answers the looks of the lines beside, by sessions with looks: each line has a view of the desk's boards, for which
/// all memory is taken before the first line is asked.
pub fn watch<R: Threads + Wait + Sync, S: Source, K: Sink>(
    rt: &R,
    alloc: Global,
    source: &mut S,
    lines: &mut Vec<Box<dyn CallerLine + Send>>,
    sink: &mut K,
) -> Status
    ensures usage { result ≡ Status.Usage ↔ IsNoNumberOfLines (vec_len lines.old) }
    ensures ends { EndsDay result (WatchesDay (S.left source.old) (S.left source.new)
        (lines_of ⟦<(dyn CallerLine + Send) as CallerLine>⟧ lines.old.items)
        (lines_of ⟦<(dyn CallerLine + Send) as CallerLine>⟧ lines.new.items))
        (S.left source.old) (S.left source.new) (S.faults source.old) (S.faults source.new)
        (K.held sink.old) (K.held sink.new) (K.faults sink.old) (K.faults sink.new) }
    ensures unasked { result ≢ Status.Fine → result ≢ Status.WriteFault → lines.new ≡ lines.old }
    ensures unread { result ≡ Status.Usage → S.left source.new ≡ S.left source.old }
{
    serve_by(rt, alloc, Sessions::WithLooks, source, lines, sink)
}

/// As `serve`, or as `watch`: by sessions of this kind.
pub fn serve_by<R: Threads + Wait + Sync, S: Source, K: Sink>(
    rt: &R,
    alloc: Global,
    sessions: Sessions,
    source: &mut S,
    lines: &mut Vec<Box<dyn CallerLine + Send>>,
    sink: &mut K,
) -> Status
    ensures usage { result ≡ Status.Usage ↔ IsNoNumberOfLines (vec_len lines.old) }
    ensures ends { EndsDay result (ServesDayBy sessions (S.left source.old) (S.left source.new)
        (lines_of ⟦<(dyn CallerLine + Send) as CallerLine>⟧ lines.old.items)
        (lines_of ⟦<(dyn CallerLine + Send) as CallerLine>⟧ lines.new.items))
        (S.left source.old) (S.left source.new) (S.faults source.old) (S.faults source.new)
        (K.held sink.old) (K.held sink.new) (K.faults sink.old) (K.faults sink.new) }
    ensures unasked { result ≢ Status.Fine → result ≢ Status.WriteFault → lines.new ≡ lines.old }
    ensures unread { result ≡ Status.Usage → S.left source.new ≡ S.left source.old }
{
    if lines.is_empty() || lines.len() > usize::from(LAST_CALLER) {
        return Status::Usage;
    }
    match take_day(alloc, source, sink) {
        Ok(day) => serve_day(rt, alloc, sessions, day, lines, sink),
        Err(status) => status,
    }
}

// Answers the day file's commands, serves the lines and writes the journal of the whole. All memory is taken before the first line
// is asked.
fn serve_day<R: Threads + Wait + Sync, K: Sink>(
    rt: &R,
    alloc: Global,
    sessions: Sessions,
    day: DayFile,
    lines: &mut Vec<Box<dyn CallerLine + Send>>,
    sink: &mut K,
) -> Status
    requires some { 1 ≤ vec_len lines.old }
    requires most { vec_len lines.old ≤ LAST_CALLER }
    requires few { vec_len day.commands < RECORD_LIMIT }
    requires opening { IsOpening day.opening }
    requires stated { All IsStated day.commands.items }
    ensures ends { EndsWriting result
        (ServesHistoryBy sessions day.opening day.commands.items
        (lines_of ⟦<(dyn CallerLine + Send) as CallerLine>⟧ lines.old.items)
        (lines_of ⟦<(dyn CallerLine + Send) as CallerLine>⟧ lines.new.items))
        (K.held sink.old) (K.held sink.new) (K.faults sink.old) (K.faults sink.new) }
    ensures unasked { result ≡ Status.NoMemory → lines.new ≡ lines.old }
{
    // What the desk answers is a legal history.
    one_history_is_legal();
    let Ok(mut buffer) = Vec::with_capacity(alloc, PIECE_BYTES) else {
        return Status::NoMemory;
    };
    match book_of_day(alloc, &day, lines.len()) {
        Ok(book) => {
            let opening = day.opening;
            drop(day);
            serve_book(
                rt,
                alloc,
                sessions,
                &opening,
                book,
                lines,
                &mut buffer,
                sink,
            )
        }
        Err(_) => Status::NoMemory,
    }
}

// Serves the lines at a desk over a book that was opened so, and writes the journal of the whole.
fn serve_book<C: DeskCore + Send, R: Threads + Wait + Sync, K: Sink>(
    rt: &R,
    alloc: Global,
    sessions: Sessions,
    opening: &Opening,
    book: Book<C>,
    lines: &mut Vec<Box<dyn CallerLine + Send>>,
    buffer: &mut Vec<u8>,
    sink: &mut K,
) -> Status
    requires opening { opening.now ≡ (⟦<Book<C> as Booked>⟧.history book).opening }
    requires some { 1 ≤ vec_len lines.old }
    requires most { vec_len lines.old ≤ LAST_CALLER }
    requires room { length (⟦<Book<C> as Booked>⟧.history book).entries + vec_len lines.old * CALLS_PER_LINE
        ≤ ⟦<Book<C> as Booked>⟧.room book }
    requires empty { buffer.old.items ≡ [] }
    requires buffer_room { 512 ≤ vec_capacity buffer.old }
    ensures ends { EndsWriting result
        (ServesBehindBy sessions (⟦<Book<C> as Booked>⟧.history book)
        (lines_of ⟦<(dyn CallerLine + Send) as CallerLine>⟧ lines.old.items)
        (lines_of ⟦<(dyn CallerLine + Send) as CallerLine>⟧ lines.new.items))
        (K.held sink.old) (K.held sink.new) (K.faults sink.old) (K.faults sink.new) }
    ensures unasked { result ≡ Status.NoMemory → lines.new ≡ lines.old }
{
    let Ok(book) = serve_all(rt, alloc, sessions, opening, book, lines) else {
        return Status::NoMemory;
    };
    if write_history(opening, book.entries(), buffer, sink) {
        Status::Fine
    } else {
        Status::WriteFault
    }
}

// Serves the lines at one desk over a book that was opened so, by sessions of this kind.
fn serve_all<C: DeskCore + Send, R: Threads + Wait + Sync>(
    rt: &R,
    alloc: Global,
    sessions: Sessions,
    opening: &Opening,
    book: Book<C>,
    lines: &mut Vec<Box<dyn CallerLine + Send>>,
) -> Result<Book<C>, NoMemory>
    requires opening { opening.now ≡ (⟦<Book<C> as Booked>⟧.history book).opening }
    requires some { 1 ≤ vec_len lines.old }
    requires most { vec_len lines.old ≤ LAST_CALLER }
    requires room { length (⟦<Book<C> as Booked>⟧.history book).entries + vec_len lines.old * CALLS_PER_LINE
        ≤ ⟦<Book<C> as Booked>⟧.room book }
    ensures opening { IfOk result (λ after. (⟦<Book<C> as Booked>⟧.history after).opening
        ≡ (⟦<Book<C> as Booked>⟧.history book).opening) }
    ensures legal { IfOk result (λ after. IsLegal (⟦<Book<C> as Booked>⟧.history after)) }
    ensures served { IfOk result (λ after. AreAllServed
        (served_by sessions (⟦<Book<C> as Booked>⟧.history book).opening
        (length (⟦<Book<C> as Booked>⟧.history book).entries) (⟦<Book<C> as Booked>⟧.history after).entries)
        (⟦<Book<C> as Booked>⟧.history book).entries (⟦<Book<C> as Booked>⟧.history after).entries
        (lines_of ⟦<(dyn CallerLine + Send) as CallerLine>⟧ lines.old.items)
        (lines_of ⟦<(dyn CallerLine + Send) as CallerLine>⟧ lines.new.items)) }
    ensures unasked { IsErr result → lines.new ≡ lines.old }
{
    match sessions {
        Sessions::WithoutLooks => serve_lines(rt, alloc, book, lines),
        Sessions::WithLooks => watch_book(rt, alloc, opening, book, lines),
    }
}

// The same, by sessions with looks.
fn watch_book<C: DeskCore + Send, R: Threads + Wait + Sync>(
    rt: &R,
    alloc: Global,
    opening: &Opening,
    book: Book<C>,
    lines: &mut Vec<Box<dyn CallerLine + Send>>,
) -> Result<Book<C>, NoMemory>
    requires opening { opening.now ≡ (⟦<Book<C> as Booked>⟧.history book).opening }
    requires some { 1 ≤ vec_len lines.old }
    requires most { vec_len lines.old ≤ LAST_CALLER }
    requires room { length (⟦<Book<C> as Booked>⟧.history book).entries + vec_len lines.old * CALLS_PER_LINE
        ≤ ⟦<Book<C> as Booked>⟧.room book }
    ensures opening { IfOk result (λ after. (⟦<Book<C> as Booked>⟧.history after).opening
        ≡ (⟦<Book<C> as Booked>⟧.history book).opening) }
    ensures legal { IfOk result (λ after. IsLegal (⟦<Book<C> as Booked>⟧.history after)) }
    ensures served { IfOk result (λ after. AreAllServed
        (served_by Sessions.WithLooks (⟦<Book<C> as Booked>⟧.history book).opening
        (length (⟦<Book<C> as Booked>⟧.history book).entries) (⟦<Book<C> as Booked>⟧.history after).entries)
        (⟦<Book<C> as Booked>⟧.history book).entries (⟦<Book<C> as Booked>⟧.history after).entries
        (lines_of ⟦<(dyn CallerLine + Send) as CallerLine>⟧ lines.old.items)
        (lines_of ⟦<(dyn CallerLine + Send) as CallerLine>⟧ lines.new.items)) }
    ensures unasked { IsErr result → lines.new ≡ lines.old }
{
    book.is_legal();
    let wall = NewWall::with_entries(alloc, opening, book.entries())?;
    watch_lines(rt, alloc, book, wall, CALLS_PER_LINE, lines)
}
