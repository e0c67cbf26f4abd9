//! What is kept of a day's entries.
ghost use Rattle.std.specs.Prelude.{◌≡◌, IfOk};

use desk_base::NoMemory;
use desk_model::{EntryRef, Opening};
use record_rows::LastMinute;
use std::alloc::Global;

/// What is kept of a day's entries, as they are answered one after another.
pub trait DayKept<'a>: Drop {
    ghost use Rattle.std.specs.Prelude.{◌<◌, ◌+◌, ◌^◌, length};
    ghost use Rattle.desk_model.specs.histories.History.{History, opened, with_entry};
    ghost use Rattle.day_replay.specs.FromDay.{IsTextOf};

    // It is what is kept of this history.
    ghost kept_of: { Self → History → Type 0 };

    /// That of a desk that was opened so and has answered nothing yet, for a day file of so many bytes.
    fn of_opening(alloc: Global, opening: &Opening, bytes: usize) -> Result<Self, NoMemory>
        ensures { IfOk result (λ kept. kept_of kept (opened opening.now)) };

    /// Keeps the next entry, of caller 0. `line` is the text of its statement, where that is at hand, and `stated` the minute that was stated last.
    fn keep(
        &mut self,
        entry: &EntryRef,
        line: Option<&'a [u8]>,
        stated: &LastMinute,
    ) -> Result<(), NoMemory>
        ensures { IfOk result (λ _. (h : History) → kept_of self.old h
            → length h.entries + 1 < 2 ^ 64 → entry.now.caller ≡ 0 → IsTextOf line.entry entry.now
            → kept_of self.new (with_entry h entry.now)) };
}
