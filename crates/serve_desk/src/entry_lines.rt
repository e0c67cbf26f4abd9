//! The lines of entries, in one buffer.
ghost use Rattle.std.specs.Prelude.{◌≡◌};
ghost use Rattle.desk_model.specs.texts.Journal.{entry_line};

use desk_model::Entry;
use line_writer::{LineText, fill_with_entry};
use record_rows::LastMinute;

/// Writes the lines of entries, one after another. It keeps what spares work from one to the next.
#[derive(Drop)]
pub(crate) struct EntryLines {
    line: LineText,
    stated: LastMinute,
    moment: LastMinute,
}

impl EntryLines {
    /// None is written yet.
    pub(crate) fn new() -> EntryLines {
        EntryLines {
            line: LineText::new(),
            stated: LastMinute::new(),
            moment: LastMinute::new(),
        }
    }

    /// The minute that was stated last.
    pub(crate) fn last_stated(&mut self) -> &mut LastMinute {
        &mut self.stated
    }

    /// The entry's line of the journal, with its line feed.
    pub(crate) fn write(&mut self, entry: &Entry) -> &[u8]
        ensures { result.now ≡ entry_line entry.now }
    {
        fill_with_entry(&mut self.line, &mut self.stated, &mut self.moment, entry);
        self.line.as_slice()
    }
}
