//! Lines served at a desk whose journal is kept.
ghost use Rattle.std.specs.Prelude.{◌≡◌, ◌≤◌, length, vec_len, false, IfOk, IsErr};
ghost use Rattle.std.specs.Bool.{OnTrue};
ghost use Rattle.desk_model.specs.histories.Legal.{IsLegal};
ghost use Rattle.desk_model.specs.texts.Journal.{journal};
ghost use Rattle.journal_device.specs.Device.{Tells};
ghost use Rattle.kept_book.specs.Kept.{KeepsFront};
ghost use Rattle.serve_desk.specs.AllLines.{AreAllServed};
ghost use Rattle.serve_desk.specs.Told.{lines_of};
ghost use Rattle.serve_desk.specs.WatchLines.{watched_with};
ghost use Rattle.kept_desk.specs.Opened.{IsOpened};

use crate::Opened;
use call_history::{CountedBook, Steps};
use caller_lines::CallerLine;
use desk_base::NoMemory;
use desk_model::{Booked, LAST_CALLER};
use fast_core::FastCore;
use journal_device::Device;
use kept_book::KeptBook;
use serve_desk::watch_lines;
use std::alloc::Global;
use std::sync::Wait;
use std::thread::Threads;

/// Serves 1 to 63 lines at a desk that was opened for as many, as `watch_lines` does: the line of an entry is put only where the entry's own
/// line is kept, and where it can't be kept the session is told so and ends. So what is kept at the end begins with the journal of a history that
/// has each entry whose line was put, whatever faults the device had. It gives the book as it stands when all sessions have ended, and takes all
/// memory of its own before it asks the first line.
pub fn serve_kept<D: Device + Send, R: Threads + Wait + Sync>(
    rt: &R,
    alloc: Global,
    opened: Opened<D>,
    lines: &mut Vec<Box<dyn CallerLine + Send>>,
) -> Result<KeptBook<CountedBook<FastCore>, D>, NoMemory>
    requires opened { IsOpened opened.opening (⟦<CountedBook<FastCore> as Booked>⟧.history opened.book.book)
        opened.wall (⟦<CountedBook<FastCore> as Booked>⟧.room opened.book.book) opened.book.sound (D.kept opened.book.device) opened.quota (vec_len lines.old) }
    requires some { 1 ≤ vec_len lines.old }
    requires most { vec_len lines.old ≤ LAST_CALLER }
    ensures opening { IfOk result (λ kept. (⟦<CountedBook<FastCore> as Booked>⟧.history kept.book).opening ≡ opened.opening) }
    ensures legal { IfOk result (λ kept. IsLegal (⟦<CountedBook<FastCore> as Booked>⟧.history kept.book)) }
    ensures served { IfOk result (λ kept. AreAllServed
        (watched_with false (D.kept kept.device) opened.quota opened.opening (length (⟦<CountedBook<FastCore> as Booked>⟧.history opened.book.book).entries)
        (⟦<CountedBook<FastCore> as Booked>⟧.history kept.book).entries)
        (⟦<CountedBook<FastCore> as Booked>⟧.history opened.book.book).entries (⟦<CountedBook<FastCore> as Booked>⟧.history kept.book).entries
        (lines_of ⟦<(dyn CallerLine + Send) as CallerLine>⟧ lines.old.items)
        (lines_of ⟦<(dyn CallerLine + Send) as CallerLine>⟧ lines.new.items)) }
    ensures unasked { IsErr result → lines.new ≡ lines.old }

    // What is kept is the journal of the first entries, and of all of them where the device had no fault, also when it was synced at last.
    ensures front { IfOk result (λ kept. ∥ KeepsFront (D.kept kept.device) (⟦<CountedBook<FastCore> as Booked>⟧.history kept.book) ∥₁) }
    ensures whole { IfOk result (λ kept. OnTrue kept.sound
        (Tells (D.kept kept.device) (journal (⟦<CountedBook<FastCore> as Booked>⟧.history kept.book)))) }
{
    let Opened {
        opening: _,
        book,
        wall,
        quota,
    } = opened;
    let mut book = watch_lines(rt, alloc, book, wall, quota, lines)?;
    book.keep();
    book.is_sound();
    Ok(book)
}
