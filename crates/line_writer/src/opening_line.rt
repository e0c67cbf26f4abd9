//! The journal's first line.
ghost use Rattle.std.specs.Prelude.{◌≡◌, ◌≤◌, length};
ghost use Rattle.desk_model.specs.texts.Journal.{opening_line};
ghost use Rattle.desk_model.specs.statements.Opening.{edition_fields};
ghost use Rattle.line_writer.specs.Marked.{marked};

use crate::line_text::{LineText, put, put_byte, put_number};
use desk_model::{Edition, Opening};

/// The opening's line of the journal.
pub fn write_opening(opening: &Opening) -> LineText
    ensures { result.items ≡ opening_line opening.now }
{
    let window = opening.window();
    let mut line = LineText::new();
    put(&mut line, &opening.start().write());
    put(&mut line, b",open,");
    put(&mut line, &window.first().write());
    put_byte(&mut line, b',');
    put_number(&mut line, u32::from(window.months()));
    put_byte(&mut line, b',');
    put_number(&mut line, u32::from(opening.answer()));
    put(&mut line, edition_text(opening.edition()));
    put_byte(&mut line, b'\n');
    line
}

// What names the edition behind the fields that both have.
fn edition_text(edition: Edition) -> &'static [u8]
    ensures text { result.now ≡ marked (edition_fields edition) }
    ensures len { length result.now ≤ 2 }
{
    match edition {
        Edition::One => b"",
        Edition::Two => b",2",
    }
}
