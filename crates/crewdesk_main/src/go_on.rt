//! A desk that goes on behind a journal.
ghost use Rattle.std.specs.Prelude.{◌≡◌, ◌≢◌, ◌≤◌, ◌⊎◌, [], false, length, vec_capacity};
ghost use Rattle.std.specs.Bool.{OnTrue, OnFalse};
ghost use Rattle.std.specs.Io.KnownBytes.{Appends, Keeps};
ghost use Rattle.desk_io.specs.Faults.{Rose};
ghost use Rattle.desk_io.specs.Giving.{AddsFront};
ghost use Rattle.desk_model.specs.histories.History.{History};
ghost use Rattle.desk_model.specs.texts.Journal.{journal};
ghost use Rattle.command_parser.specs.MoreCommands.{HasMoreFault};
ghost use Rattle.crewdesk_main.specs.Continue.{room_behind};
ghost use Rattle.day_replay.specs.Ends.{WritesOrFails, writes};
ghost use Rattle.crewdesk_main.specs.GoesOn.{EndsByTheCommands, FindsWrongField, GoesOn};
ghost use Rattle.day_replay.specs.Replay.{goes_on};

use command_parser::{MoreFault, read_more};
use day_replay::{PIECE_BYTES, tell_wrong, write_entries};
use desk_io::{Sink, Status, put_all};
use desk_model::{DeskCore, Stated};
use kept_desk::JOURNAL_ENTRIES;
use std::alloc::Global;

/// Reads the commands behind a journal of so many entries, steps the desk that stands behind it through them as caller 0, and
/// writes the journal that goes on with their entries; where a command is wrong it writes a line that says which field.
pub(crate) fn go_on<C: DeskCore, K: Sink>(
    alloc: Global,
    core: &mut C,
    count: u32,
    text: &[u8],
    more: &[u8],
    sink: &mut K,
) -> Status
    requires room { JOURNAL_ENTRIES ≤ C.room core.old }
    ensures fine { result ≡ Status.Fine → GoesOn (C.stands core.old) text.now more.now (room_behind count)
        (Appends (K.held sink.old) (K.held sink.new)) }
    ensures write_fault { result ≡ Status.WriteFault → GoesOn (C.stands core.old) text.now more.now (room_behind count)
        (AddsFront (K.held sink.old) (K.held sink.new)) }
    ensures write_cause { result ≡ Status.WriteFault → Rose (K.faults sink.old) (K.faults sink.new) }
    ensures too_long { result ≡ Status.TooLong → HasMoreFault more.now (room_behind count) MoreFault.TooMany }
    ensures unreadable { result ≡ Status.Unreadable → FindsWrongField more.now (room_behind count)
        (WritesOrFails (K.held sink.old) (K.held sink.new) (K.faults sink.old) (K.faults sink.new)) }
    ensures by_the_commands { EndsByTheCommands result more.now (room_behind count) }
    ensures silent { writes result ≡ false → Keeps (K.held sink.old) (K.held sink.new) }
    ensures write_count { result ≢ Status.WriteFault → result ≢ Status.Unreadable → K.faults sink.new ≡ K.faults sink.old }
    ensures faults_grow { K.faults sink.old ≤ K.faults sink.new }
    ensures only { (result ≡ Status.Fine) ⊎ ((result ≡ Status.WriteFault) ⊎ ((result ≡ Status.TooLong)
        ⊎ ((result ≡ Status.Unreadable) ⊎ (result ≡ Status.NoMemory)))) }
{
    match read_more(alloc, more, JOURNAL_ENTRIES.saturating_sub(count)) {
        Ok(commands) => print_more(alloc, core, text, &commands, sink),
        Err(MoreFault::TooMany) => Status::TooLong,
        Err(MoreFault::Unreadable { record_no, field }) => tell_wrong(record_no, field, sink),
        Err(MoreFault::NoMemory) => Status::NoMemory,
    }
}

// Writes the journal, and goes on with these commands. All memory is taken before anything is written.
fn print_more<C: DeskCore, K: Sink>(
    alloc: Global,
    core: &mut C,
    text: &[u8],
    commands: &[Stated],
    sink: &mut K,
) -> Status
    requires left { length commands.now ≤ C.room core.old }
    ensures fine { result ≡ Status.Fine → (h : History) → C.stands core.old h → text.now ≡ journal h
        → Appends (K.held sink.old) (K.held sink.new) (journal (goes_on h commands.now)) }
    ensures write_fault { result ≡ Status.WriteFault → (h : History) → C.stands core.old h → text.now ≡ journal h
        → AddsFront (K.held sink.old) (K.held sink.new) (journal (goes_on h commands.now)) }
    ensures silent { result ≡ Status.NoMemory → Keeps (K.held sink.old) (K.held sink.new) }
    ensures write_cause { result ≡ Status.WriteFault → Rose (K.faults sink.old) (K.faults sink.new) }
    ensures write_count { result ≢ Status.WriteFault → K.faults sink.new ≡ K.faults sink.old }
    ensures faults_grow { K.faults sink.old ≤ K.faults sink.new }
    ensures only { (result ≡ Status.Fine) ⊎ ((result ≡ Status.WriteFault) ⊎ (result ≡ Status.NoMemory)) }
{
    let Ok(mut buffer) = Vec::with_capacity(alloc, PIECE_BYTES) else {
        return Status::NoMemory;
    };
    if write_more(core, text, commands, &mut buffer, sink) {
        Status::Fine
    } else {
        Status::WriteFault
    }
}

// Writes the journal, and behind it the lines of the entries of these commands. It says whether the sink took all, and stops at
// the first fault.
fn write_more<C: DeskCore, K: Sink>(
    core: &mut C,
    text: &[u8],
    commands: &[Stated],
    buffer: &mut Vec<u8>,
    sink: &mut K,
) -> bool
    requires left { length commands.now ≤ C.room core.old }
    requires empty { buffer.old.items ≡ [] }
    requires room { 512 ≤ vec_capacity buffer.old }
    ensures all { OnTrue result ((h : History) → C.stands core.old h → text.now ≡ journal h
        → Appends (K.held sink.old) (K.held sink.new) (journal (goes_on h commands.now))) }
    ensures front { OnFalse result ((h : History) → C.stands core.old h → text.now ≡ journal h
        → AddsFront (K.held sink.old) (K.held sink.new) (journal (goes_on h commands.now))) }
    ensures faults_grow { K.faults sink.old ≤ K.faults sink.new }
    ensures cause { OnFalse result (Rose (K.faults sink.old) (K.faults sink.new)) }
    ensures no_fault { OnTrue result (K.faults sink.new ≡ K.faults sink.old) }
{
    put_all(sink, text) && write_entries(core, commands, buffer, sink)
}
