//! The tally of a desk.
ghost use Rattle.std.specs.Prelude.{◌≡◌, ◌≤◌, ◌<◌, ◌+◌, ◌^◌, ◌++◌, ℕ, List, length, if◌then◌else◌};
ghost use Rattle.arrayvec.specs.ArrayVec.{array_vec_len};
ghost use Rattle.desk_model.specs.statements.Entry.{EntryValue};
ghost use Rattle.desk_model.specs.histories.History.{History, opened, with_entry};
ghost use Rattle.line_writer.specs.declared.reply_sort.ReplySort.TheVariants as sort;
ghost use Rattle.line_writer.specs.Tally.{Counts, tally_text, count_line, count};

use crate::line_text::{LineText, put, put_byte};
use crate::reply_sort::ReplySort;
use desk_base::Minute;
use desk_model::{EntryRef, Opening, what_an_entry_makes_of_the_desk};
use itoa::Buffer;

/// How many commands a desk was given, how many it answered in each sort of way, and its last moment.
#[derive(Clone, Copy)]
pub struct Tally {
    pub(crate) commands: u64,
    pub(crate) done: u64,
    pub(crate) offered: u64,
    pub(crate) unfilled: u64,
    pub(crate) denied: u64,
    pub(crate) told: u64,
    pub(crate) refused: u64,
    pub(crate) moment: Minute,
}

// One more where it is so; behind the last number that there is comes 0.
fn raised(count: u64, so: bool) -> u64
    ensures { count + 1 < 2 ^ 64 → result ≡ count + (if so then 1 else 0) }
{
    count.wrapping_add(u64::from(so))
}

impl Tally {
    /// That of a desk that was opened so and was given no command yet.
    pub fn new(opening: &Opening) -> Tally
        ensures { Counts result (opened opening.now) }
    {
        Tally {
            commands: 0,
            done: 0,
            offered: 0,
            unfilled: 0,
            denied: 0,
            told: 0,
            refused: 0,
            moment: opening.start(),
        }
    }

    /// Counts the next entry, unless there are 2^64 - 1 before it.
    pub fn count(&mut self, entry: &EntryRef)
        ensures { (h : History) → length h.entries + 1 < 2 ^ 64 → Counts self.old h
            → Counts self.new (with_entry h entry.now) }
    {
        what_an_entry_makes_of_the_desk();
        a_tally_adds_up();
        let sort = ReplySort::of(&entry.reply());
        self.commands = raised(self.commands, true);
        self.done = raised(self.done, sort.is(ReplySort::Done));
        self.offered = raised(self.offered, sort.is(ReplySort::Offered));
        self.unfilled = raised(self.unfilled, sort.is(ReplySort::Unfilled));
        self.denied = raised(self.denied, sort.is(ReplySort::Denied));
        self.told = raised(self.told, sort.is(ReplySort::Told));
        self.refused = raised(self.refused, sort.is(ReplySort::Refused));
        self.moment = entry.moment();
    }

    /// The tally in eight lines: how many commands, how many of them done, offered, unfilled, denied, read and refused, and the
    /// last moment.
    pub fn write(&self) -> LineText
        ensures { (h : History) → Counts self.now h → result.items ≡ tally_text h }
    {
        let mut text = LineText::new();
        put_count(&mut text, b"commands", self.commands);
        put_count(&mut text, b"done", self.done);
        put_count(&mut text, b"offered", self.offered);
        put_count(&mut text, b"unfilled", self.unfilled);
        put_count(&mut text, b"denied", self.denied);
        put_count(&mut text, b"read", self.told);
        put_count(&mut text, b"refused", self.refused);
        put(&mut text, b"moment ");
        put(&mut text, &self.moment.write());
        put_byte(&mut text, b'\n');
        text
    }
}

/// Adds a line with a word and a number, 20 digits at most.
pub fn put_count(text: &mut LineText, word: &[u8], count: u64)
    requires { array_vec_len text.old + length word.now + 22 ≤ 512 }
    ensures text { text.new.items ≡ text.old.items ++ count_line word.now count }
    ensures len { array_vec_len text.new ≤ array_vec_len text.old + length word.now + 22 }
{
    put(text, word);
    put_byte(text, b' ');
    put(text, Buffer::new().format(count).as_bytes());
    put_byte(text, b'\n');
}

/// The six sorts of a tally add up to all commands. It does nothing: its clause is the law.
pub fn a_tally_adds_up()
    ensures { (entries : List EntryValue) → count sort.Done entries + count sort.Offered entries
        + count sort.Unfilled entries + count sort.Denied entries + count sort.Told entries
        + count sort.Refused entries ≡ length entries }
{}
