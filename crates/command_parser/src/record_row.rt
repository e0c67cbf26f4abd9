//! What the records of a text state.
ghost use Rattle.std.specs.Prelude.{◌≡◌, IfOk, IfErr, IfSome, IsTrue};
ghost use Rattle.record_rows.specs.Rows.{row_fields};
ghost use Rattle.desk_model.specs.statements.Opening.{OpeningValue};
ghost use Rattle.desk_model.specs.statements.Statement.{StatedValue};
ghost use Rattle.command_parser.specs.OpeningRecord.{StatesOpening};
ghost use Rattle.command_parser.specs.RecordForms.{IsWrongAt};
ghost use Rattle.command_parser.specs.Spelled.{StatesCommand};

use crate::command_record::{put_stated, read_stated};
use crate::first_wrong::wrong_field;
use crate::opening_record::opening_of;
use desk_model::{Opening, Stated};
use record_rows::{Fields, LastMinute, Row, fill_with_line};

/// The command that a record states, and the minute at which it was stated. Where it states none it is the number, from 1,
/// of its first wrong field.
pub(crate) fn read_row(last: &mut LastMinute, row: &Row) -> Result<Stated, u8>
    ensures some { IfOk result (StatesCommand (row_fields row.now)) }
    ensures only { (s : StatedValue) → StatesCommand (row_fields row.now) s → result ≡ Ok s }
    ensures wrong { IfErr result (IsWrongAt (row_fields row.now)) }
{
    match stated_in_row(last, row) {
        Some(stated) => Ok(stated),
        None => Err(wrong_in_row(row)),
    }
}

/// The command that a record states, and the minute at which it was stated; `None` where it states none.
pub(crate) fn stated_in_row(last: &mut LastMinute, row: &Row) -> Option<Stated>
    ensures some { IfSome result (StatesCommand (row_fields row.now)) }
    ensures only { (s : StatedValue) → StatesCommand (row_fields row.now) s → result ≡ Some s }
{
    let mut fields = Fields::new();
    row.fill_fields(&mut fields);
    read_stated(last, fields.as_slice())
}

/// Puts the command that a record states, and the minute at which it was stated, in place of what `stated` has; false where it states
/// none. Where the record's fields stand in its line they are put in place of those that `fields` has.
pub(crate) fn put_stated_in_row<'a>(
    stated: &mut Stated,
    last: &mut LastMinute,
    fields: &mut Fields<'a>,
    row: &Row<'a>,
) -> bool
    ensures some { IsTrue result → StatesCommand (row_fields row.now) stated.new }
    ensures only { (s : StatedValue) → StatesCommand (row_fields row.now) s → IsTrue result }
{
    match row.line() {
        Some(line) => {
            fill_with_line(fields, line);
            put_stated(stated, last, fields.as_slice())
        }
        None => {
            let mut fields = Fields::new();
            row.fill_fields(&mut fields);
            put_stated(stated, last, fields.as_slice())
        }
    }
}

/// The number, from 1, of a wrong record's first wrong field.
pub(crate) fn wrong_in_row(row: &Row) -> u8
    ensures { IsWrongAt (row_fields row.now) result }
{
    let mut fields = Fields::new();
    row.fill_fields(&mut fields);
    wrong_field(fields.as_slice())
}

/// The opening that a record states; `None` where it states none.
pub(crate) fn read_opening_row(row: &Row) -> Option<Opening>
    ensures some { IfSome result (StatesOpening (row_fields row.now)) }
    ensures only { (opening : OpeningValue) → StatesOpening (row_fields row.now) opening
        → result ≡ Some opening }
{
    let mut fields = Fields::new();
    row.fill_fields(&mut fields);
    opening_of(fields.as_slice())
}
