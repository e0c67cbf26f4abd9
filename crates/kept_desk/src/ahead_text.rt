ghost use Rattle.std.specs.Prelude.{◌≡◌};
ghost use Rattle.kept_desk.specs.Ahead.{ahead_text};

use desk_base::Minute;
use line_writer::LineText;

/// The text for a line that states a minute too far ahead, with the minute that the clock told.
pub(crate) fn write_ahead(now: Minute) -> LineText
    ensures { result.items ≡ ahead_text now }
{
    let mut text = LineText::new();
    text.try_extend_from_slice(b"ahead ").unwrap();
    text.try_extend_from_slice(&now.write()).unwrap();
    text.push(b'\n');
    text
}
