//! Lines that state a minute ahead of one.
ghost use Rattle.std.specs.Prelude.{◌≡◌, ℕ, ◌∷◌, [], map, IfOk, IfSome, IsNone};
ghost use Rattle.std.specs.Bool.{OnTrue, OnFalse};
ghost use Rattle.desk_base.specs.Parts.{parts_by};
ghost use Rattle.desk_model.specs.statements.Statement.{StatedValue};
ghost use Rattle.record_rows.specs.Rows.{records_of, row_fields};
ghost use Rattle.command_parser.specs.CommandLine.{IsCommandLine};
ghost use Rattle.kept_desk.specs.Ahead.{IsAhead, IsWithin, IsCommandAt};
ghost use Rattle.kept_desk.specs.Beginning.{BeginsWith, LineBeginsWith, IsCrewAt};

use command_parser::{ReadFail, read_command, read_vac};
use desk_base::{Minute, NoMemory};
use record_rows::{Fields, Row, Rows, fill_with_line, is_plain};
use std::alloc::Global;

/// A minute that a record begins with.
#[derive(Clone, Copy, Debug)]
struct Beginning {
    minute: Minute,
    // Whether the record is a crew call's.
    is_crew: bool,
}

/// Whether a line states a later minute than this one, as a command or as a crew call. The line is read as sessions read it. Memory is
/// wanted only for a line with quotes, and for one that begins with a later minute.
pub fn is_ahead(alloc: Global, line: &[u8], latest: u64) -> Result<bool, NoMemory>
    ensures ahead { IfOk result (λ is. OnTrue is (IsAhead latest line.now)) }
    ensures within { IfOk result (λ is. OnFalse is (IsWithin latest line.now)) }
{
    match read_beginning(alloc, line)? {
        Some(beginning) if beginning.minute.number() > latest => {
            Ok(beginning.is_crew || is_command(alloc, line)?)
        }
        _ => Ok(false),
    }
}

// Whether a line is a command.
fn is_command(alloc: Global, line: &[u8]) -> Result<bool, NoMemory>
    ensures some { IfOk result (λ is. OnTrue is ((minute : ℕ) × IsCommandAt line.now minute)) }
    ensures none { IfOk result (λ is. OnFalse is ((s : StatedValue) → ¬ IsCommandLine line.now s)) }
{
    match read_command(alloc, line) {
        Ok(_stated) => Ok(true),
        Err(ReadFail::Malformed(_field)) => Ok(false),
        Err(ReadFail::NoMemory) => Err(NoMemory),
    }
}

// With what a line begins that is one record.
fn read_beginning(alloc: Global, line: &[u8]) -> Result<Option<Beginning>, NoMemory>
    ensures { IfOk result (LineBeginsWith line.now) }
{
    if is_plain(line) {
        return Ok(read_plain(line));
    }
    read_only_record(alloc, line)
}

// The same of a line whose fields stand between its commas.
fn read_plain(line: &[u8]) -> Option<Beginning>
    requires { records_of line.now ≡ parts_by 44 line.now ∷ [] }
    ensures { LineBeginsWith line.now result }
{
    let mut fields = Fields::new();
    fill_with_line(&mut fields, line);
    beginning_of(fields.as_slice())
}

// The same of a line as `csv` reads it.
fn read_only_record(alloc: Global, line: &[u8]) -> Result<Option<Beginning>, NoMemory>
    ensures { IfOk result (LineBeginsWith line.now) }
{
    let mut rows = Rows::of(alloc, line);
    let mut row = Row::new(alloc);
    if !rows.next(&mut row)? {
        return Ok(None);
    }
    let beginning = read_row(&row);
    if rows.next(&mut row)? {
        return Ok(None);
    }
    Ok(beginning)
}

// With what a record begins.
fn read_row(row: &Row) -> Option<Beginning>
    ensures { BeginsWith (row_fields row.now) result }
{
    let mut fields = Fields::new();
    row.fill_fields(&mut fields);
    beginning_of(fields.as_slice())
}

// With what a record's fields begin.
fn beginning_of(fields: &[&[u8]]) -> Option<Beginning>
    ensures { BeginsWith (map (λ field. field.now) fields.now) result }
{
    let [first, ..] = fields else {
        return None;
    };
    Some(Beginning {
        minute: Minute::read(first)?,
        is_crew: crew_minute(fields).is_some(),
    })
}

// The minute of the crew call that a record's fields ask for.
fn crew_minute(fields: &[&[u8]]) -> Option<Minute>
    ensures some { IfSome result (IsCrewAt (map (λ field. field.now) fields.now)) }
    ensures none { IsNone result → (minute : ℕ) → ¬ IsCrewAt (map (λ field. field.now) fields.now) minute }
{
    let [minute, word, first, second] = fields else {
        return None;
    };
    if *word != b"crew".as_slice() {
        return None;
    }
    let minute = Minute::read(minute)?;
    let _first = read_vac(first)?;
    let _second = read_vac(second)?;
    Some(minute)
}
