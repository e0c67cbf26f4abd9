//! Day files that were opened.
ghost use Rattle.std.specs.Prelude.{◌≡◌, ◌≢◌, ℕ, List, IfOk, IfErr};
ghost use Rattle.desk_model.specs.statements.Statement.{StatedValue};
ghost use Rattle.command_parser.specs.CommandRecords.{HasRecordFault, IsOpen, StateAll, records_left};
ghost use Rattle.command_parser.specs.DayFile.{IsDayFile, HasFault, day_fault};
ghost use Rattle.command_parser.specs.declared.more_fault.MoreFault.{MoreFault as Fault};
ghost use Rattle.command_parser.specs.declared.limits.TheConstants.{COMMAND_LIMIT};
ghost use Rattle.command_parser.specs.declared.open_day.OpenDay.{OpenDay as OpenValue};

use crate::command_records::{CommandRecords, has_more};
use crate::day_fault::DayFault;
use crate::limits::COMMAND_LIMIT;
use crate::record_row::read_opening_row;
use desk_model::Opening;
use record_rows::{Row, Rows};
use std::alloc::Global;

/// A day file whose commands are still to be read.
pub struct OpenDay<'a> {
    /// The opening, its first record.
    pub opening: Opening,
    /// The records after it.
    pub records: CommandRecords<'a>,
}

impl Drop for OpenDay<'_> {
    fn drop(self) {
        let Self {
            opening: _,
            records: _,
        } = self;
    }
}

impl<'a> OpenDay<'a> {
    /// Opens the day file that the bytes are: reads its first record. Where that is no opening the others are counted, since too many records
    /// are told before that.
    pub fn of(alloc: Global, bytes: &'a [u8]) -> Result<OpenDay<'a>, DayFault>
        ensures opened { IfOk result (λ day. (rest : List (List (List ℕ))) × IsOpen bytes.now day rest) }
        ensures left { IfOk result (λ day. records_left day.records ≡ COMMAND_LIMIT) }
        ensures fault { IfErr result (λ fault. fault ≢ DayFault.NoMemory
            → HasFault bytes.now fault) }
    {
        let mut rows = Rows::of(alloc, bytes);
        let mut row = Row::new(alloc);
        if !rows.next(&mut row)? {
            return Err(DayFault::NoOpening);
        }
        match read_opening_row(&row) {
            Some(opening) => Ok(OpenDay {
                opening,
                records: CommandRecords::of(rows, row, 2, COMMAND_LIMIT),
            }),
            None => {
                if has_more(&mut rows, &mut row, COMMAND_LIMIT)? {
                    Err(DayFault::TooMany)
                } else {
                    Err(DayFault::NoOpening)
                }
            }
        }
    }
}

/// Where the records behind an opening state commands the bytes are the day file of these, and where they have a fault that is one of the
/// day file. It does nothing: its clauses are the law.
pub fn an_open_day_is_read_by_its_commands()
    ensures day { (bytes : List ℕ) (day : OpenValue) (rest : List (List (List ℕ))) (commands : List StatedValue)
        → IsOpen bytes day rest → StateAll COMMAND_LIMIT rest commands
        → IsDayFile bytes day.opening commands }
    ensures fault { (bytes : List ℕ) (day : OpenValue) (rest : List (List (List ℕ))) (fault : Fault)
        → IsOpen bytes day rest → HasRecordFault 2 COMMAND_LIMIT rest fault
        → HasFault bytes (day_fault fault) }
{}
