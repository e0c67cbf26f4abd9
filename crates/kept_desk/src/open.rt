//! A desk that is opened on a device.
ghost use Rattle.std.specs.Prelude.{◌≡◌, ◌≢◌, ◌⊎◌, ℕ, ◌≤◌, ◌<◌, ◌+◌, ◌*◌, List, [], length, take, IfOk, IfErr};
ghost use Rattle.std.specs.Io.KnownBytes.{Keeps};
ghost use Rattle.day_replay.specs.Replay.{IsNoDay};
ghost use Rattle.desk_io.specs.Faults.{Rose};
ghost use Rattle.desk_model.specs.declared.limits.TheConstants.{LAST_CALLER};
ghost use Rattle.audit_desk.specs.Found.{Begins, Finds, IsJournal};
ghost use Rattle.journal_device.specs.Device.{Tells};
ghost use Rattle.kept_desk.specs.Opened.{IsOpened, BeginsDay, FindsWhole, GoesOnBehind, IsEnded, WhereEnded, WhereFault, WhereFound};

use crate::journal_book::book_of_journal;
use crate::limits::JOURNAL_ENTRIES;
use crate::line_end::whole_lines;
use crate::{Opened, Refused};
use audit_desk::{JOURNAL_BYTES, Verdict, audit};
use board_window::NewWall;
use call_history::CountedBook;
use day_replay::take_day;
use desk_io::{Sink, Source, Status};
use desk_model::{Booked, LAST_CALLER, one_history_is_legal};
use fast_core::FastCore;
use journal_device::Found;
use kept_book::KeptBook;
use serve_desk::{CALLS_PER_LINE, book_of_day};
use std::alloc::Global;

/// Opens a desk on a device that has this text, for 1 to 63 callers. Where there is none the desk is that of the day file that the source
/// has, whose journal is written to the device first. Else the text up to its last line feed is audited, and the desk goes on behind
/// it; what stands behind that line feed is a line that a stop cut off, and is taken away. Each caller has 5,000 calls, or fewer where the
/// journal, with at most 515,000 entries, has no room for more.
pub fn open_desk<S: Source, K: Sink, D: Found>(
    alloc: Global,
    source: &mut S,
    device: D,
    text: &[u8],
    callers: u8,
    sink: &mut K,
) -> Result<Opened<D>, Refused<D>>
    requires text { Tells (D.there device) text.now }
    requires most { length text.now ≤ JOURNAL_BYTES }
    requires some { 1 ≤ callers }
    requires few { callers ≤ LAST_CALLER }
    ensures opened { IfOk result (λ opened. IsOpened opened.opening (⟦<CountedBook<FastCore> as Booked>⟧.history opened.book.book)
        opened.wall (⟦<CountedBook<FastCore> as Booked>⟧.room opened.book.book) opened.book.sound (D.kept opened.book.device) opened.quota callers) }
    ensures begun { text.now ≡ [] → IfOk result (λ opened.
        BeginsDay (S.left source.old) (S.left source.new) (⟦<CountedBook<FastCore> as Booked>⟧.history opened.book.book)) }
    ensures behind { text.now ≢ [] → IfOk result (λ opened.
        GoesOnBehind text.now (⟦<CountedBook<FastCore> as Booked>⟧.history opened.book.book)) }
    ensures found { IfErr result (λ refused. WhereFound refused (λ verdict. verdict ≢ Verdict.NoMemory → FindsWhole text.now verdict)) }
    ensures fault { IfErr result (λ refused. WhereFault refused (λ after. Rose (D.faults device) (D.faults after))) }
    ensures unasked { text.now ≢ [] → (source.new ≡ source.old) × (sink.new ≡ sink.old) }
    ensures ended { IfErr result (λ refused. WhereEnded refused IsNoDay) }
    ensures read_count { ¬ IsEnded result Status.ReadFault → S.faults source.new ≡ S.faults source.old }
    ensures silent { ¬ IsEnded result Status.Unreadable → Keeps (K.held sink.old) (K.held sink.new) }
    ensures silent_count { ¬ IsEnded result Status.Unreadable → K.faults sink.new ≡ K.faults sink.old }
    ensures source_faults_grow { S.faults source.old ≤ S.faults source.new }
    ensures sink_faults_grow { K.faults sink.old ≤ K.faults sink.new }
{
    if text.is_empty() {
        return begin(alloc, source, device, callers, sink);
    }
    go_on(alloc, device, text, callers)
}

// A desk on a device that has nothing: that of the day file that the source has.
fn begin<S: Source, K: Sink, D: Found>(
    alloc: Global,
    source: &mut S,
    device: D,
    callers: u8,
    sink: &mut K,
) -> Result<Opened<D>, Refused<D>>
    requires empty { Tells (D.there device) [] }
    requires few { callers ≤ LAST_CALLER }
    ensures opened { IfOk result (λ opened. IsOpened opened.opening (⟦<CountedBook<FastCore> as Booked>⟧.history opened.book.book)
        opened.wall (⟦<CountedBook<FastCore> as Booked>⟧.room opened.book.book) opened.book.sound (D.kept opened.book.device) opened.quota callers) }
    ensures begun { IfOk result (λ opened.
        BeginsDay (S.left source.old) (S.left source.new) (⟦<CountedBook<FastCore> as Booked>⟧.history opened.book.book)) }
    ensures found { IfErr result (λ refused. WhereFound refused (λ verdict. ⊥)) }
    ensures fault { IfErr result (λ refused. WhereFault refused (λ after. Rose (D.faults device) (D.faults after))) }
    ensures ended { IfErr result (λ refused. WhereEnded refused IsNoDay) }
    ensures read_count { ¬ IsEnded result Status.ReadFault → S.faults source.new ≡ S.faults source.old }
    ensures silent { ¬ IsEnded result Status.Unreadable → Keeps (K.held sink.old) (K.held sink.new) }
    ensures silent_count { ¬ IsEnded result Status.Unreadable → K.faults sink.new ≡ K.faults sink.old }
    ensures source_faults_grow { S.faults source.old ≤ S.faults source.new }
    ensures sink_faults_grow { K.faults sink.old ≤ K.faults sink.new }
{
    one_history_is_legal();
    let day = match take_day(alloc, source, sink) {
        Ok(day) => day,
        Err(status) => return Err(Refused::Ended(status)),
    };
    let Ok(book) = book_of_day(alloc, &day, usize::from(callers)) else {
        return Err(Refused::Ended(Status::NoMemory));
    };
    let opening = day.opening;
    drop(day);
    book.is_legal();
    let Ok(wall) = NewWall::with_entries(alloc, &opening, book.entries()) else {
        return Err(Refused::Ended(Status::NoMemory));
    };
    let (book, entries) = book.into_parts();
    let device = match device.go_on(0) {
        Ok(device) => device,
        Err(device) => return Err(Refused::Fault(device)),
    };
    match KeptBook::begin(&opening, &entries, book, device) {
        Ok(book) => Ok(Opened {
            opening,
            book,
            wall,
            quota: CALLS_PER_LINE,
        }),
        Err(device) => Err(Refused::Fault(device)),
    }
}

// A desk that goes on behind the whole lines of a text that the device has.
fn go_on<D: Found>(
    alloc: Global,
    device: D,
    text: &[u8],
    callers: u8,
) -> Result<Opened<D>, Refused<D>>
    requires text { Tells (D.there device) text.now }
    requires most { length text.now ≤ JOURNAL_BYTES }
    requires some { 1 ≤ callers }
    requires few { callers ≤ LAST_CALLER }
    ensures opened { IfOk result (λ opened. IsOpened opened.opening (⟦<CountedBook<FastCore> as Booked>⟧.history opened.book.book)
        opened.wall (⟦<CountedBook<FastCore> as Booked>⟧.room opened.book.book) opened.book.sound (D.kept opened.book.device) opened.quota callers) }
    ensures behind { IfOk result (λ opened. GoesOnBehind text.now (⟦<CountedBook<FastCore> as Booked>⟧.history opened.book.book)) }
    ensures found { IfErr result (λ refused. WhereFound refused (λ verdict. verdict ≢ Verdict.NoMemory → FindsWhole text.now verdict)) }
    ensures fault { IfErr result (λ refused. WhereFault refused (λ after. Rose (D.faults device) (D.faults after))) }
    ensures ended { IfErr result (λ refused. WhereEnded refused IsNoDay) }
{
    let len = whole_lines(text);
    match audit(alloc, &text[..len]) {
        Verdict::Legal(count) => stand_behind(alloc, device, text, len, count, callers),
        verdict => Err(Refused::Found(verdict)),
    }
}

// A desk that goes on behind the first bytes of a text that the device has: they are a journal of so many entries.
fn stand_behind<D: Found>(
    alloc: Global,
    device: D,
    text: &[u8],
    len: usize,
    count: u32,
    callers: u8,
) -> Result<Opened<D>, Refused<D>>
    requires text { Tells (D.there device) text.now }
    requires within { len ≤ length text.now }
    requires journal { IsJournal (take len text.now) count }
    requires some { 1 ≤ callers }
    requires few { callers ≤ LAST_CALLER }
    ensures opened { IfOk result (λ opened. IsOpened opened.opening (⟦<CountedBook<FastCore> as Booked>⟧.history opened.book.book)
        opened.wall (⟦<CountedBook<FastCore> as Booked>⟧.room opened.book.book) opened.book.sound (D.kept opened.book.device) opened.quota callers) }
    ensures behind { IfOk result (λ opened. Begins (take len text.now) (⟦<CountedBook<FastCore> as Booked>⟧.history opened.book.book) []) }
    ensures found { IfErr result (λ refused. WhereFound refused (λ verdict. ⊥)) }
    ensures fault { IfErr result (λ refused. WhereFault refused (λ after. Rose (D.faults device) (D.faults after))) }
    ensures ended { IfErr result (λ refused. WhereEnded refused IsNoDay) }
{
    let quota = quota_behind(count, callers);
    if quota == 0 {
        return Err(Refused::Ended(Status::TooLong));
    }
    let calls = u32::from(callers) * quota;
    let Ok((opening, book, wall)) = book_of_journal(alloc, &text[..len], count, calls) else {
        return Err(Refused::Ended(Status::NoMemory));
    };
    match device.go_on(len as u64) {
        Ok(device) => Ok(Opened {
            opening,
            book: KeptBook::new(book, device),
            wall,
            quota,
        }),
        Err(device) => Err(Refused::Fault(device)),
    }
}

// How many calls each caller has behind a journal of so many entries.
fn quota_behind(count: u32, callers: u8) -> u32
    requires { 1 ≤ callers }
    ensures most { result ≤ CALLS_PER_LINE }
    ensures room { 0 < result → count + callers * result ≤ JOURNAL_ENTRIES }
{
    let room = JOURNAL_ENTRIES.saturating_sub(count);
    (room / u32::from(callers)).min(CALLS_PER_LINE)
}
