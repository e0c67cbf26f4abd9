//! Commands that a journal goes on with.
ghost use Rattle.std.specs.Prelude.{◌≡◌, ◌≢◌, ◌⊎◌, ℕ, List, IfOk, IfErr, IsErrOf};
ghost use Rattle.std.specs.Result.{IsOkUnless};
ghost use Rattle.desk_model.specs.statements.Statement.{StatedValue};
ghost use Rattle.command_parser.specs.MoreCommands.{AreCommands, HasMoreFault};
ghost use Rattle.command_parser.specs.declared.more_fault.MoreFault.{MoreFault as Fault};

use crate::command_records::CommandRecords;
use crate::limits::SHORTEST_RECORD;
use crate::more_fault::MoreFault;
use desk_model::Stated;
use record_rows::{Row, Rows};
use std::alloc::Global;

/// The commands that the records of the bytes state, of which there is room for so many. The records are those that `csv`
/// reads, with no header row. Of the faults the first that holds is told: too many records, and then one that states no command.
pub fn read_more(alloc: Global, bytes: &[u8], room: u32) -> Result<Vec<Stated>, MoreFault>
    ensures commands { IfOk result (λ commands. AreCommands bytes.now room commands.items) }
    ensures fault { IfErr result (λ fault. fault ≢ MoreFault.NoMemory
        → HasMoreFault bytes.now room fault) }

    // And each comes where its cause is, unless memory is wanting.
    ensures reads { (commands : List StatedValue) → AreCommands bytes.now room commands
        → IsOkUnless result MoreFault.NoMemory }
    ensures tells { (fault : Fault) → HasMoreFault bytes.now room fault
        → (IsErrOf result fault) ⊎ (IsErrOf result MoreFault.NoMemory) }
{
    read_rows(alloc, bytes, room)
}

// The same, as it is read.
fn read_rows(alloc: Global, bytes: &[u8], room: u32) -> Result<Vec<Stated>, MoreFault>
    ensures commands { IfOk result (λ commands. AreCommands bytes.now room commands.items) }
    ensures fault { IfErr result (λ fault. fault ≢ MoreFault.NoMemory
        → HasMoreFault bytes.now room fault) }
{
    let mut records = CommandRecords::of(Rows::of(alloc, bytes), Row::new(alloc), 1, room);
    records.read_all(alloc, (bytes.len() / SHORTEST_RECORD).min(room as usize))
}

/// Bytes state one list of commands at most. It does nothing: its clause is the law.
pub fn bytes_state_one_list_of_commands()
    ensures { (bytes : List ℕ) (room : ℕ) (cs ds : List StatedValue) → AreCommands bytes room cs → AreCommands bytes room ds → cs ≡ ds }
{}
