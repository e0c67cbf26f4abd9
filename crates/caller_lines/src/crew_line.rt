//! A line that asks for a crew call.
ghost use Rattle.std.specs.Prelude.{◌≡◌, ℕ, ◌∷◌, [], map, IfOk, IfSome, IsNone};
ghost use Rattle.caller_lines.specs.CrewLines.{IsCrewLine, IsCrewRecord, IsNoCrew};
ghost use Rattle.desk_base.specs.Parts.{parts_by};
ghost use Rattle.record_rows.specs.Rows.{records_of, row_fields};

use crate::only_record::only_record;
use command_parser::read_vac;
use desk_base::{Minute, NoMemory, VacNo};
use record_rows::{Fields, Row, fill_with_line, is_plain};
use std::alloc::Global;

/// A crew call that a line asks for: these vacancies, at this minute.
#[derive(Clone, Copy, Debug)]
pub(crate) struct CrewLine {
    pub minute: Minute,
    pub first: VacNo,
    pub second: VacNo,
}

/// The crew call that a line asks for; `None` where it asks for none. The line has to be one record of a minute, `crew` and two
/// vacancies' numbers, as `csv` reads it, with or without a line feed.
pub(crate) fn read_crew(alloc: Global, line: &[u8]) -> Result<Option<CrewLine>, NoMemory>
    ensures crew { IfOk result (λ found. IfSome found (λ crew. IsCrewLine line.now crew.minute crew.first crew.second)) }
    ensures none { IfOk result (λ found. IsNone found → IsNoCrew line.now) }
{
    if is_plain(line) {
        return Ok(read_plain(line));
    }
    match only_record(alloc, line)? {
        Some(row) => Ok(read_row(&row)),
        None => Ok(None),
    }
}

// Reads a line that is one record, whose fields stand between its commas.
fn read_plain(line: &[u8]) -> Option<CrewLine>
    requires { records_of line.now ≡ parts_by 44 line.now ∷ [] }
    ensures crew { IfSome result (λ crew. IsCrewLine line.now crew.minute crew.first crew.second) }
    ensures none { IsNone result → IsNoCrew line.now }
{
    let mut fields = Fields::new();
    fill_with_line(&mut fields, line);
    crew_of(fields.as_slice())
}

// The crew call that a record asks for.
fn read_row(row: &Row) -> Option<CrewLine>
    ensures some { IfSome result (λ crew. IsCrewRecord (row_fields row.now) crew.minute crew.first crew.second) }
    ensures none { IsNone result → (minute first second : ℕ) → ¬ IsCrewRecord (row_fields row.now) minute first second }
{
    let mut fields = Fields::new();
    row.fill_fields(&mut fields);
    crew_of(fields.as_slice())
}

// The crew call that a record's fields ask for.
fn crew_of(fields: &[&[u8]]) -> Option<CrewLine>
    ensures some { IfSome result (λ crew. IsCrewRecord (map (λ field. field.now) fields.now) crew.minute crew.first crew.second) }
    ensures none { IsNone result → (minute first second : ℕ)
        → ¬ IsCrewRecord (map (λ field. field.now) fields.now) minute first second }
{
    let [minute, word, first, second] = fields else {
        return None;
    };
    if *word != b"crew".as_slice() {
        return None;
    }
    Some(CrewLine {
        minute: Minute::read(minute)?,
        first: read_vac(first)?,
        second: read_vac(second)?,
    })
}
