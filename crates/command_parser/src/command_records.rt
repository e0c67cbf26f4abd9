//! Records of commands, read one after another.
ghost use Rattle.std.specs.Prelude.{◌≡◌, ◌≢◌, ◌<◌, ◌≤◌, ◌+◌, ◌^◌, ◌++◌, ◌∷◌, ◌↔◌, [], ℕ, List, length, IsTrue, IfOk, IfErr};
ghost use Rattle.std.specs.Bool.{MatchBool};
ghost use Rattle.record_rows.specs.Rows.{HasLeft};
ghost use Rattle.desk_model.specs.statements.Statement.{StatedValue};

use crate::more_fault::MoreFault;
use crate::record_row::{put_stated_in_row, wrong_in_row};
use crate::stated_record::some_statement;
use desk_base::NoMemory;
use desk_model::Stated;
use record_rows::{Fields, LastMinute, Row, Rows};
use std::alloc::Global;

/// Records of commands that are still to be read, and what the one that was read last states.
pub struct CommandRecords<'a> {
    rows: Rows<'a>,
    row: Row<'a>,
    // The fields of the record, where they stand in its line.
    fields: Fields<'a>,
    // What it states, and that line; before the first they mean nothing.
    stated: Stated,
    line: Option<&'a [u8]>,
    last: LastMinute,
    // The number of the next record.
    next_no: u64,
    // How many more records there may be.
    left: u32,
    ghost numbers: { next_no + left ≤ 2 ^ 32 },
}

impl Drop for CommandRecords<'_> {
    fn drop(self) {
        let Self {
            rows: _,
            row: _,
            fields: _,
            stated: _,
            line: _,
            last: _,
            next_no: _,
            left: _,
        } = self;
    }
}

impl<'a> CommandRecords<'a> {
    ghost use Rattle.command_parser.specs.CommandRecords.{HasRead, HasRecordFault, IsSpelled, StateAll, records_left, last_line, last_stated};

    /// The records that are left, the first of which has this number; there may be so many of them. `row` is for them to be read into.
    pub(crate) fn of(rows: Rows<'a>, row: Row<'a>, first: u32, most: u32) -> CommandRecords<'a>
        requires { first + most ≤ 2 ^ 32 }
        ensures unread { (all : List (List (List ℕ))) → HasLeft rows.entry all
            → HasRead first most all [] result }
        ensures left { records_left result ≡ most }
    {
        CommandRecords {
            rows,
            row,
            fields: Fields::new(),
            stated: some_statement(),
            line: None,
            last: LastMinute::new(),
            next_no: u64::from(first),
            left: most,
        }
    }

    /// What the record that was read last states.
    pub fn stated(&self) -> &Stated
        ensures { result.now ≡ last_stated self.now }
    {
        &self.stated
    }

    /// That record's bytes; `None` where `csv` read it.
    pub fn line(&self) -> Option<&'a [u8]>
        ensures { result ≡ last_line self.now }
    {
        self.line
    }

    /// The minute of the record that was read last, and its text.
    pub fn last_minute(&self) -> &LastMinute {
        &self.last
    }

    /// Reads the next record; false where none is left. Of the faults the first that holds is told: too many records, and then one that
    /// states no command, behind which the others are counted before it is told. Behind a fault nothing is said of the records any more.
    #[inline(always)]
    pub fn next(&mut self) -> Result<bool, MoreFault>
        ensures reads { (first most : ℕ) (all : List (List (List ℕ))) (commands : List StatedValue)
            → HasRead first most all commands self.old
            → IfOk result (λ found. MatchBool found
            (HasRead first most all (commands ++ last_stated self.new ∷ []) self.new) (StateAll most all commands)) }
        ensures fault { (first most : ℕ) (all : List (List (List ℕ))) (commands : List StatedValue)
            → HasRead first most all commands self.old
            → IfErr result (λ fault. fault ≢ MoreFault.NoMemory
            → HasRecordFault first most all fault) }
        ensures spelled { IfOk result (λ found. IsTrue found → IsSpelled self.new) }
        ensures left { IfOk result (λ found. IsTrue found
            → records_left self.new + 1 ≡ records_left self.old) }
    {
        if !self.rows.next(&mut self.row)? {
            return Ok(false);
        }
        if self.left == 0 {
            return Err(MoreFault::TooMany);
        }
        let record_no = self.next_no as u32;
        self.left -= 1;
        self.next_no += 1;
        self.line = self.row.line();
        if put_stated_in_row(
            &mut self.stated,
            &mut self.last,
            &mut self.fields,
            &self.row,
        ) {
            return Ok(true);
        }
        let field = wrong_in_row(&self.row);
        if has_more(&mut self.rows, &mut self.row, self.left)? {
            Err(MoreFault::TooMany)
        } else {
            Err(MoreFault::Unreadable { record_no, field })
        }
    }

    /// Reads all records that are left, with room for so many commands at first.
    pub(crate) fn read_all(&mut self, alloc: Global, room: usize) -> Result<Vec<Stated>, MoreFault>
        ensures all { (first most : ℕ) (all : List (List (List ℕ)))
            → HasRead first most all [] self.old
            → IfOk result (λ commands. StateAll most all commands.items) }
        ensures fault { (first most : ℕ) (all : List (List (List ℕ)))
            → HasRead first most all [] self.old
            → IfErr result (λ fault. fault ≢ MoreFault.NoMemory
            → HasRecordFault first most all fault) }
    {
        let mut commands = Vec::with_capacity(alloc, room)?;
        loop {
            match self.next() {
                Ok(true) => commands.push(self.stated)?,
                Ok(false) => return Ok(commands),
                Err(fault) => return Err(fault),
            }
        }
    }
}

/// Whether there are more records left than so many.
pub(crate) fn has_more<'a>(
    rows: &mut Rows<'a>,
    row: &mut Row<'a>,
    most: u32,
) -> Result<bool, NoMemory>
    ensures { IfOk result (λ more. (all : List (List (List ℕ))) → HasLeft rows.old all
        → (IsTrue more ↔ most < length all)) }
{
    for _passed in 0..most {
        if !rows.next(row)? {
            return Ok(false);
        }
    }
    rows.next(row)
}
