//! A journal, held until it is written.
ghost use Rattle.std.specs.Prelude.{◌≡◌, ◌≢◌, ◌≤◌, [], IfOk, IsTrue, length, vec_capacity};
ghost use Rattle.std.specs.Bool.{OnTrue, OnFalse};
ghost use Rattle.std.specs.Io.KnownBytes.{Appends};
ghost use Rattle.desk_io.specs.Faults.{Rose};
ghost use Rattle.desk_io.specs.Giving.{AddsFront};
ghost use Rattle.desk_model.specs.statements.Entry.{EntryValue};
ghost use Rattle.command_parser.specs.Spelled.{SpellsStated};
ghost use Rattle.day_replay.specs.FromDay.{IsTextOf};
ghost use Rattle.day_replay.specs.Held.{AddsLine, HoldsJournal, held_bytes, held_text};

use crate::day_kept::DayKept;
use crate::gather;
use crate::held_line::{HeldLine, gather_all_held};
use command_parser::{RECORD_LIMIT, SHORTEST_RECORD};
use desk_base::NoMemory;
use desk_io::{Sink, put_all};
use desk_model::{EntryRef, Opening, Reply};
use line_writer::{LineText, add_outcome, fill_with_entry, write_opening};
use record_rows::LastMinute;
use std::alloc::Global;

// How many bytes the line of an entry of caller 0 has at most beside those of its record. These are held too where `csv` read the record;
// room that is not used takes no memory.
const LINE_ROOM: usize = 70;

// The bytes, or none where there are none at hand.
fn bytes_or_none(line: Option<&[u8]>) -> &[u8]
    ensures { (e : EntryValue) → IsTextOf line.entry e → result.now ≢ [] → SpellsStated result.now e.stated }
{
    match line {
        Some(bytes) => bytes,
        None => &[],
    }
}

// Whether the entry's command was done, at the minute at which it was stated. Where it says no, nothing is said: more is held then.
fn is_done_when_stated(entry: &EntryRef) -> bool
    ensures done { IsTrue result → entry.now.reply ≡ Reply.Done }
    ensures when { IsTrue result → entry.now.moment ≡ entry.now.stated.minute }
{
    matches!(entry.reply(), Reply::Done) && entry.moment() == entry.stated().minute()
}

/// The journal of a day, held until all of the day file was read: of each line the record's own bytes, and what stands behind them as text,
/// unless it was done when it was stated.
#[derive(Drop)]
pub(crate) struct HeldJournal<'a> {
    opening: LineText,
    lines: Vec<HeldLine<'a>>,
    texts: Vec<u8>,
    // The line at hand, and the minutes that the lines before it named.
    line: LineText,
    stated: LastMinute,
    moment: LastMinute,
}

impl HeldJournal<'_> {
    /// Writes it, as much of it at once as the buffer holds. It says whether the sink took all, and stops at the first fault.
    pub(crate) fn write<K: Sink>(&self, buffer: &mut Vec<u8>, sink: &mut K) -> bool
        requires empty { buffer.old.items ≡ [] }
        requires room { 512 ≤ vec_capacity buffer.old }
        requires held { held_bytes self.now.lines.items ≡ length self.now.texts.items }

        ensures all { OnTrue result (Appends (K.held sink.old) (K.held sink.new) (held_text self.now)) }
        ensures front { OnFalse result (AddsFront (K.held sink.old) (K.held sink.new) (held_text self.now)) }
        ensures faults_grow { K.faults sink.old ≤ K.faults sink.new }
        ensures cause { OnFalse result (Rose (K.faults sink.old) (K.faults sink.new)) }
        ensures no_fault { OnTrue result (K.faults sink.new ≡ K.faults sink.old) }
    {
        if !gather(buffer, self.opening.as_slice(), sink) {
            return false;
        }
        if !gather_all_held(buffer, &self.lines, &self.texts, sink) {
            return false;
        }
        put_all(sink, buffer)
    }

    // Adds what is held as text of the line of an entry: all of it, where no bytes of its statement are at hand; none, where they are and it
    // was done when it was stated. `last` is the minute that was stated last: it only spares work.
    fn add_text(
        &mut self,
        stated: &[u8],
        last: &LastMinute,
        entry: &EntryRef,
    ) -> Result<(), NoMemory>
        ensures added { IfOk result (λ _.
            AddsLine stated.now self.old.texts.items self.new.texts.items entry.now) }
        ensures opening { self.new.opening ≡ self.old.opening }
        ensures lines { self.new.lines ≡ self.old.lines }
    {
        if stated.is_empty() {
            fill_with_entry(
                &mut self.line,
                &mut self.stated,
                &mut self.moment,
                &entry.to_entry(),
            );
            self.texts.extend_from_slice(self.line.as_slice())?;
            Ok(())
        } else if is_done_when_stated(entry) {
            Ok(())
        } else {
            self.moment.follow(last, entry.moment());
            add_outcome(&mut self.texts, &mut self.line, &mut self.moment, entry)
        }
    }
}

impl<'a> DayKept<'a> for HeldJournal<'a> {
    ghost kept_of = { HoldsJournal };

    fn of_opening(
        alloc: Global,
        opening: &Opening,
        bytes: usize,
    ) -> Result<HeldJournal<'a>, NoMemory> {
        let records = (bytes / SHORTEST_RECORD).min(RECORD_LIMIT);
        Ok(HeldJournal {
            opening: write_opening(opening),
            lines: Vec::with_capacity(alloc, records)?,
            texts: Vec::with_capacity(alloc, bytes.saturating_add(records * LINE_ROOM))?,
            line: LineText::new(),
            stated: LastMinute::new(),
            moment: LastMinute::new(),
        })
    }

    fn keep(
        &mut self,
        entry: &EntryRef,
        line: Option<&'a [u8]>,
        stated: &LastMinute,
    ) -> Result<(), NoMemory> {
        let before = self.texts.len();
        let stated_bytes = bytes_or_none(line);
        self.add_text(stated_bytes, stated, entry)?;
        let bytes = self.texts.len() - before;
        self.lines.push(HeldLine {
            stated: stated_bytes,
            bytes,
        })?;
        Ok(())
    }
}
