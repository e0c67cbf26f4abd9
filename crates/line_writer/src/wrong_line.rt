//! The line that says which field of a day file is wrong.
ghost use Rattle.std.specs.Prelude.{◌≡◌};
ghost use Rattle.line_writer.specs.Line.{wrong_line};

use crate::line_text::{LineText, put, put_byte, put_number};

/// The line that says which field of which record is the first wrong one. Both are counted from 1.
pub fn write_wrong(record_no: u32, field: u8) -> LineText
    ensures { result.items ≡ wrong_line record_no field }
{
    let mut line = LineText::new();
    put(&mut line, b"unreadable ");
    put_number(&mut line, record_no);
    put_byte(&mut line, b' ');
    put_number(&mut line, u32::from(field));
    put_byte(&mut line, b'\n');
    line
}
