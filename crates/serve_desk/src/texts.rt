//! The texts that a session puts on a line beside the lines of entries.
ghost use Rattle.std.specs.Prelude.{◌≡◌};
ghost use Rattle.serve_desk.specs.Texts.{malformed};

use itoa::Buffer;
use line_writer::LineText;

/// The line gave one line more than may be heard.
pub const TOO_MANY: &[u8] = b"too many\n";

/// The line gave a line of more than 512 bytes.
pub const TOO_LONG: &[u8] = b"too long\n";

/// Memory was wanting for the reading of a line.
pub const NO_MEMORY: &[u8] = b"no memory\n";

/// The line gave a command, and its entry could not be kept.
pub const JOURNAL_FAULT: &[u8] = b"journal fault\n";

/// The line gave a command, and its seat has no call left.
pub const SPENT: &[u8] = b"spent\n";

/// The text for a line that states no command, with the number of its first wrong field, from 1, or 0 where it isn't one record.
pub(crate) fn write_malformed(field: u8) -> LineText
    ensures { result.items ≡ malformed field }
{
    let mut text = LineText::new();
    text.try_extend_from_slice(b"malformed ").unwrap();
    text.try_extend_from_slice(Buffer::new().format(field).as_bytes())
        .unwrap();
    text.push(b'\n');
    text
}
