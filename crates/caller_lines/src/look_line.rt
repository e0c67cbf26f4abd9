//! A line that asks for a look at a board.
ghost use Rattle.std.specs.Prelude.{◌≡◌, ℕ, List, ◌∷◌, [], map, IfOk, IfSome, IsNone};
ghost use Rattle.desk_base.specs.Parts.{parts_by};
ghost use Rattle.record_rows.specs.Rows.{records_of, row_fields};
ghost use Rattle.caller_lines.specs.Looks.{IsLookLine, IsNoLook, IsLookRecord};

use crate::only_record::only_record;
use command_parser::read_position;
use desk_base::{Code, NoMemory};
use record_rows::{Fields, Row, fill_with_line, is_plain};
use std::alloc::Global;

/// A look that a line asks for: who stands at this position of the board, from 1.
#[derive(Clone, Copy, Debug)]
pub(crate) struct LookLine {
    pub board: Code,
    pub position: u16,
}

/// The look that a line asks for; `None` where it asks for none. The line has to be one record of the fields `look`, a board's
/// code and a position, 1 to 9,999, as `csv` reads it, with or without a line feed.
pub(crate) fn read_look(alloc: Global, line: &[u8]) -> Result<Option<LookLine>, NoMemory>
    ensures look { IfOk result (λ found. IfSome found (λ look. IsLookLine line.now look.board look.position)) }
    ensures none { IfOk result (λ found. IsNone found → IsNoLook line.now) }
{
    if is_plain(line) {
        return Ok(read_plain(line));
    }
    match only_record(alloc, line)? {
        Some(row) => Ok(read_row(&row)),
        None => Ok(None),
    }
}

// Reads a line that is one record, whose fields stand between its commas. It needs no reader of records, which is dear to make
// for each.
fn read_plain(line: &[u8]) -> Option<LookLine>
    requires { records_of line.now ≡ parts_by 44 line.now ∷ [] }
    ensures look { IfSome result (λ look. IsLookLine line.now look.board look.position) }
    ensures none { IsNone result → IsNoLook line.now }
{
    if !line.starts_with(b"look,") {
        return None;
    }
    let mut fields = Fields::new();
    fill_with_line(&mut fields, line);
    look_of(fields.as_slice())
}

// The look that a record asks for.
fn read_row(row: &Row) -> Option<LookLine>
    ensures some { IfSome result (λ look. IsLookRecord (row_fields row.now) look.board look.position) }
    ensures none { IsNone result → (board : List ℕ) (position : ℕ) → ¬ IsLookRecord (row_fields row.now) board position }
{
    let mut fields = Fields::new();
    row.fill_fields(&mut fields);
    look_of(fields.as_slice())
}

// The look that a record's fields ask for.
fn look_of(fields: &[&[u8]]) -> Option<LookLine>
    ensures some { IfSome result (λ look. IsLookRecord (map (λ field. field.now) fields.now) look.board look.position) }
    ensures none { IsNone result → (board : List ℕ) (position : ℕ)
        → ¬ IsLookRecord (map (λ field. field.now) fields.now) board position }
{
    let [word, board, position] = fields else {
        return None;
    };
    if *word != b"look".as_slice() {
        return None;
    }
    Some(LookLine {
        board: Code::read(board)?,
        position: read_position(position)?,
    })
}
