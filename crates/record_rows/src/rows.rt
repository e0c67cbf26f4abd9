//! Records, one after another.
ghost use Rattle.std.specs.Prelude.{◌≡◌, ℕ, List, [], false, IfOk};
ghost use Rattle.std.specs.Bool.{MatchBool};
ghost use Rattle.csv.specs.Records.{fields_of};
ghost use Rattle.record_rows.specs.Rows.{HasLeft, ReaderHas, ReaderTook, TookFirst, records_of, row_fields};

use crate::plain::{has_plain_lines, next_line};
use crate::row::Row;
use csv::{ByteRecord, Reader, ReaderBuilder};
use desk_base::NoMemory;
use std::alloc::Global;

// Where records are read from.
#[derive(Drop)]
pub(crate) enum Source<'a> {
    // What is left of a text whose lines are its records, but for empty ones.
    Lines(&'a [u8]),
    // Any text.
    Reader(Reader<&'a [u8]>),
}

/// The records of a text that are still to be read. Fields are separated by commas and may be quoted, as `csv` has it;
/// there is no header row, records may be of any lengths, nothing is trimmed, and empty lines hold no record. A byte order
/// mark at the front of the text is dropped.
pub struct Rows<'a> {
    pub(crate) source: Source<'a>,
}

impl Drop for Rows<'_> {
    fn drop(self) {
        let Self { source: _ } = self;
    }
}

// A reader of all records of a text.
fn reader_of<'a>(alloc: Global, text: &'a [u8]) -> Reader<&'a [u8]>
    ensures { ReaderHas result (records_of text.now) }
{
    ReaderBuilder::new()
        .has_headers(false)
        .flexible(true)
        .from_reader(alloc, text)
}

// Reads the next record. It is false where none is left. It stays a call, so that the way of a plain line is short.
#[inline(never)]
fn read_next(rdr: &mut Reader<&[u8]>, row: &mut ByteRecord) -> Result<bool, NoMemory>
    ensures { IfOk result (λ found. (left : List (List (List ℕ))) → ReaderHas rdr.old left
        → MatchBool found (ReaderTook left (fields_of row.new) rdr.new) (left ≡ [])) }
{
    let Ok(found) = rdr.read_byte_record(row) else {
        return Err(NoMemory);
    };
    Ok(found)
}

impl<'a> Rows<'a> {
    /// All records of a text.
    pub fn of(alloc: Global, text: &'a [u8]) -> Rows<'a>
        ensures { HasLeft result (records_of text.now) }
    {
        let source = if has_plain_lines(text) {
            Source::Lines(text)
        } else {
            Source::Reader(reader_of(alloc, text))
        };
        Rows { source }
    }

    // Lets the text go for one of no lines. It stays a call, since it is done behind the last record.
    #[inline(never)]
    fn end(&mut self)
        ensures { HasLeft self.new [] }
    {
        self.source = Source::Lines(&[]);
    }

    /// Reads the next record into `row`. It is false where none is left, and then at each later call; `NoMemory` where there is none
    /// for what `csv` reads, behind which nothing is said of it any more.
    pub fn next(&mut self, row: &mut Row<'a>) -> Result<bool, NoMemory>
        ensures first { IfOk result (λ found. (left : List (List (List ℕ))) → HasLeft self.old left
            → MatchBool found (TookFirst left (row_fields row.new) self.new) (left ≡ [])) }
        ensures spent { IfOk result (λ found. found ≡ false → HasLeft self.new []) }
    {
        match &mut self.source {
            Source::Lines(left) => match next_line(left) {
                Some((line, behind)) => {
                    *left = behind;
                    row.line = Some(line);
                    Ok(true)
                }
                None => Ok(false),
            },
            Source::Reader(rdr) => {
                row.line = None;
                if read_next(rdr, &mut row.read)? {
                    return Ok(true);
                }
                self.end();
                Ok(false)
            }
        }
    }
}
