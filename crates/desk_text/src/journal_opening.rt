//! The opening, read from the journal's first line.
ghost use Rattle.std.specs.Prelude.{◌≡◌, IfSome};
ghost use Rattle.desk_model.specs.statements.Opening.{OpeningValue};
ghost use Rattle.command_parser.specs.OpeningRecord.{IsOpeningLine};

use crate::cut::before;
use command_parser::opening_of;
use desk_model::Opening;
use record_rows::{Fields, fill_with_line};

/// The opening of the journal's first line, `M,open,month,months,answer` with its line feed, in the second edition with a sixth
/// field, `2`; `None` for every other text: the line is the one spelling of its opening.
pub fn read_opening(line: &[u8]) -> Option<Opening>
    ensures some { IfSome result (IsOpeningLine line.now) }
    ensures only { (o : OpeningValue) → IsOpeningLine line.now o → result ≡ Some o }
{
    let mut fields = Fields::new();
    fill_with_line(&mut fields, before(line, b"\n")?);
    opening_of(fields.as_slice())
}
