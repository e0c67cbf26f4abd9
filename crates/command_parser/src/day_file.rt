//! Day files.
ghost use Rattle.std.specs.Prelude.{◌≡◌, ◌≢◌, ◌⊎◌, ℕ, List, IfOk, IfErr, IsErrOf};
ghost use Rattle.std.specs.Result.{IsOkUnless};
ghost use Rattle.desk_model.specs.statements.Opening.{OpeningValue};
ghost use Rattle.desk_model.specs.statements.Statement.{StatedValue};
ghost use Rattle.command_parser.specs.DayFile.{IsDayFile, HasFault};
ghost use Rattle.command_parser.specs.declared.day_fault.DayFault.{DayFault as Fault};

use crate::day_fault::DayFault;
use crate::limits::{RECORD_LIMIT, SHORTEST_RECORD};
use crate::open_day::{OpenDay, an_open_day_is_read_by_its_commands};
use desk_model::{Opening, Stated};
use std::alloc::Global;

/// A day file: how the desk was opened, and what it was told and asked then, in order.
#[derive(Drop)]
pub struct DayFile {
    /// The opening, its first record.
    pub opening: Opening,
    /// The commands of the records after it.
    pub commands: Vec<Stated>,
}

/// The day file that the bytes are. Its records are those that `csv` reads, with no header row. Of the faults the first
/// that holds is told: too many records, no opening, and then a record that states no command.
pub fn read_day(alloc: Global, bytes: &[u8]) -> Result<DayFile, DayFault>
    ensures day { IfOk result (λ day. IsDayFile bytes.now day.opening day.commands.items) }
    ensures fault { IfErr result (λ fault. fault ≢ DayFault.NoMemory
        → HasFault bytes.now fault) }

    // And each comes where its cause is, unless memory is wanting.
    ensures reads { (o : OpeningValue) (commands : List StatedValue)
        → IsDayFile bytes.now o commands → IsOkUnless result DayFault.NoMemory }
    ensures tells { (fault : Fault) → HasFault bytes.now fault
        → (IsErrOf result fault) ⊎ (IsErrOf result DayFault.NoMemory) }
{
    read_records(alloc, bytes)
}

// The same, as it is read.
fn read_records(alloc: Global, bytes: &[u8]) -> Result<DayFile, DayFault>
    ensures day { IfOk result (λ day. IsDayFile bytes.now day.opening day.commands.items) }
    ensures fault { IfErr result (λ fault. fault ≢ DayFault.NoMemory
        → HasFault bytes.now fault) }
{
    an_open_day_is_read_by_its_commands();
    let mut day = OpenDay::of(alloc, bytes)?;
    let room = (bytes.len() / SHORTEST_RECORD).min(RECORD_LIMIT);
    let commands = day.records.read_all(alloc, room)?;
    Ok(DayFile {
        opening: day.opening,
        commands,
    })
}

/// Bytes are one day file at most. It does nothing: its clause is the law.
pub fn bytes_are_one_day_file()
    ensures { (bytes : List ℕ) (o p : OpeningValue) (cs ds : List StatedValue)
        → IsDayFile bytes o cs → IsDayFile bytes p ds → (o ≡ p) × (cs ≡ ds) }
{}
