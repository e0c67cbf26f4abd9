//! Entries as lines of the journal.
ghost use Rattle.std.specs.Prelude.{◌≡◌};
ghost use Rattle.desk_model.specs.texts.Journal.{entry_line};

use crate::line_text::{LineText, put_byte, put_number};
use crate::outcome_line::put_outcome;
use crate::stated_line::put_stated;
use desk_model::Entry;
use record_rows::LastMinute;

/// The entry's line of the journal, `caller|command|moment|reply`, with its line feed.
pub fn write_entry(entry: &Entry) -> LineText
    ensures { result.items ≡ entry_line entry.now }
{
    let mut line = LineText::new();
    let mut stated = LastMinute::new();
    let mut moment = LastMinute::new();
    fill_with_entry(&mut line, &mut stated, &mut moment, entry);
    line
}

/// Makes a line that of the entry. What stood in it is gone. `stated` and `moment` are those that the lines before it named last:
/// they only spare work.
pub fn fill_with_entry(
    line: &mut LineText,
    stated: &mut LastMinute,
    moment: &mut LastMinute,
    entry: &Entry,
)
    ensures { line.new.items ≡ entry_line entry.now }
{
    line.clear();
    put_number(line, u32::from(entry.caller()));
    put_byte(line, b'|');
    put_stated(line, stated, entry.stated());
    put_byte(line, b'|');
    moment.follow(stated, entry.moment());
    put_outcome(line, moment, entry.moment(), &entry.reply());
}
