//! A caller's line.
ghost use Rattle.std.specs.Prelude.{◌≡◌, ◌≢◌, ◌⊎◌, [], ◌∷◌, IfOk, IfErr, IsErrOf};
ghost use Rattle.desk_base.specs.Parts.{parts_by};
ghost use Rattle.record_rows.specs.Rows.{records_of};
ghost use Rattle.desk_model.specs.statements.Statement.{StatedValue};
ghost use Rattle.command_parser.specs.CommandLine.{IsCommandLine, HasFail};
ghost use Rattle.command_parser.specs.declared.read_fail.ReadFail.{ReadFail as Fail};

use crate::command_record::read_record;
use crate::read_fail::ReadFail;
use crate::record_row::read_row;
use desk_model::Stated;
use record_rows::{Fields, LastMinute, Row, Rows, fill_with_line, is_plain};
use std::alloc::Global;

/// The command that a caller's line states, and the minute at which it was stated. The line has to be one record, as
/// `csv` reads it, with or without a line feed.
pub fn read_command(alloc: Global, line: &[u8]) -> Result<Stated, ReadFail>
    ensures some { IfOk result (IsCommandLine line.now) }
    ensures fail { IfErr result (λ fail. fail ≢ ReadFail.NoMemory → HasFail line.now fail) }

    // And each comes where its cause is, unless memory is wanting.
    ensures only { (s : StatedValue) → IsCommandLine line.now s
        → (result ≡ Ok s) ⊎ (IsErrOf result ReadFail.NoMemory) }
    ensures tells { (fail : Fail) → HasFail line.now fail
        → (IsErrOf result fail) ⊎ (IsErrOf result ReadFail.NoMemory) }
{
    read_next_command(alloc, &mut LastMinute::new(), line)
}

/// As `read_command`, of a line that comes behind others. `last` is the minute that they stated last: it only spares work.
pub fn read_next_command(
    alloc: Global,
    last: &mut LastMinute,
    line: &[u8],
) -> Result<Stated, ReadFail>
    ensures some { IfOk result (IsCommandLine line.now) }
    ensures fail { IfErr result (λ fail. fail ≢ ReadFail.NoMemory → HasFail line.now fail) }

    // And each comes where its cause is, unless memory is wanting.
    ensures only { (s : StatedValue) → IsCommandLine line.now s
        → (result ≡ Ok s) ⊎ (IsErrOf result ReadFail.NoMemory) }
    ensures tells { (fail : Fail) → HasFail line.now fail
        → (IsErrOf result fail) ⊎ (IsErrOf result ReadFail.NoMemory) }
{
    read_line(alloc, last, line)
}

// Reads a line. Most are plain, and need no reader of records, which is dear to make for each.
fn read_line(alloc: Global, last: &mut LastMinute, line: &[u8]) -> Result<Stated, ReadFail>
    ensures some { IfOk result (IsCommandLine line.now) }
    ensures fail { IfErr result (λ fail. fail ≢ ReadFail.NoMemory → HasFail line.now fail) }
{
    if is_plain(line) {
        read_plain(last, line)
    } else {
        read_only_record(alloc, last, line)
    }
}

// Reads a line that is one record, whose fields stand between its commas.
fn read_plain(last: &mut LastMinute, line: &[u8]) -> Result<Stated, ReadFail>
    requires { records_of line.now ≡ parts_by 44 line.now ∷ [] }
    ensures some { IfOk result (IsCommandLine line.now) }
    ensures fail { IfErr result (λ fail. fail ≢ ReadFail.NoMemory → HasFail line.now fail) }
{
    let mut fields = Fields::new();
    fill_with_line(&mut fields, line);
    match read_record(last, fields.as_slice()) {
        Ok(stated) => Ok(stated),
        Err(field) => Err(ReadFail::Malformed(field)),
    }
}

// Reads the line's first record, and sees that it has no second one.
fn read_only_record(alloc: Global, last: &mut LastMinute, line: &[u8]) -> Result<Stated, ReadFail>
    ensures some { IfOk result (IsCommandLine line.now) }
    ensures fail { IfErr result (λ fail. fail ≢ ReadFail.NoMemory → HasFail line.now fail) }
{
    let mut rows = Rows::of(alloc, line);
    let mut row = Row::new(alloc);
    if !rows.next(&mut row)? {
        return Err(ReadFail::Malformed(0));
    }
    let read = read_row(last, &row);
    if rows.next(&mut row)? {
        return Err(ReadFail::Malformed(0));
    }
    match read {
        Ok(stated) => Ok(stated),
        Err(field) => Err(ReadFail::Malformed(field)),
    }
}
