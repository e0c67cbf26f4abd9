//! A day file, taken from a source.
ghost use Rattle.std.specs.Prelude.{◌≡◌, ◌≢◌, ◌<◌, ◌≤◌, ◌⊎◌, vec_len, IfOk, IfErr, IsErrOf};
ghost use Rattle.std.specs.List.{All};
ghost use Rattle.std.specs.Io.KnownBytes.{Keeps};
ghost use Rattle.desk_io.specs.Faults.{Rose};
ghost use Rattle.desk_io.specs.Input.{TookMore, TookFront};
ghost use Rattle.desk_model.specs.statements.Fits.{IsStated};
ghost use Rattle.desk_model.specs.statements.Opening.{IsOpening};
ghost use Rattle.line_writer.specs.Line.{wrong_line};
ghost use Rattle.command_parser.specs.DayFile.{IsDayFile, HasTooMany, HasNoOpening};
ghost use Rattle.command_parser.specs.declared.limits.TheConstants.{RECORD_LIMIT};
ghost use Rattle.day_replay.specs.Ends.{WasRead, WritesOrFails};
ghost use Rattle.day_replay.specs.FromDay.{WasMade};
ghost use Rattle.day_replay.specs.Replay.{FindsWrong, EndsByTheDay, IsNoDay, taking_status};

use crate::from_day::FromDay;
use command_parser::{DayFault, DayFile};
use desk_io::{Sink, Source, Status, put_all, take_all};
use line_writer::write_wrong;
use std::alloc::Global;

/// Takes all that the source has, and reads it as a day file. Where it is none the run ends with the status that is
/// answered: `ReadFault`, `TooLong`, `NoMemory`, `NoOpening`, or `Unreadable`, for which it writes a line to the sink that
/// says which field of which record is wrong, or a front of it where the sink has a fault.
pub fn take_day<S: Source, K: Sink>(
    alloc: Global,
    source: &mut S,
    sink: &mut K,
) -> Result<DayFile, Status>
    ensures day { IfOk result (λ day.
        WasRead DAY_BYTES (S.left source.old) (S.left source.new)
        (λ bytes. IsDayFile bytes day.opening day.commands.items)) }
    ensures opening { IfOk result (λ day. IsOpening day.opening) }
    ensures stated { IfOk result (λ day. All IsStated day.commands.items) }
    ensures few { IfOk result (λ day. vec_len day.commands < RECORD_LIMIT) }

    ensures read_fault { IsErrOf result Status.ReadFault
        → Rose (S.faults source.old) (S.faults source.new) }
    ensures no_fault { ¬ IsErrOf result Status.ReadFault
        → S.faults source.new ≡ S.faults source.old }
    ensures too_long { IsErrOf result Status.TooLong
        → TookMore (S.left source.old) (S.left source.new) DAY_BYTES
        ⊎ WasRead DAY_BYTES (S.left source.old) (S.left source.new) HasTooMany }
    ensures not_too_long { ¬ IsErrOf result Status.TooLong
        → TookFront (S.left source.old) (S.left source.new) DAY_BYTES }
    ensures no_opening { IsErrOf result Status.NoOpening
        → WasRead DAY_BYTES (S.left source.old) (S.left source.new) HasNoOpening }
    ensures unreadable { IsErrOf result Status.Unreadable
        → FindsWrong (S.left source.old) (S.left source.new)
        (WritesOrFails (K.held sink.old) (K.held sink.new)
        (K.faults sink.old) (K.faults sink.new)) }
    ensures only { IfErr result IsNoDay }
    ensures silent { ¬ IsErrOf result Status.Unreadable
        → Keeps (K.held sink.old) (K.held sink.new) }
    ensures silent_count { ¬ IsErrOf result Status.Unreadable
        → K.faults sink.new ≡ K.faults sink.old }
    ensures source_faults_grow { S.faults source.old ≤ S.faults source.new }
    ensures sink_faults_grow { K.faults sink.old ≤ K.faults sink.new }

    // And each comes where its cause is, unless memory or a fault is in the way.
    ensures by_the_day { EndsByTheDay (taking_status result) (S.left source.old) }
{
    let mut bytes = Vec::new(alloc);
    take_made(alloc, &mut bytes, source, sink)
}

/// As `take_day`, with what is made of the day file as it is read. What is made may refer to the bytes, which are kept for it in `bytes`.
pub(crate) fn take_made<'a, D: FromDay<'a>, S: Source, K: Sink>(
    alloc: Global,
    bytes: &'a mut Vec<u8>,
    source: &mut S,
    sink: &mut K,
) -> Result<D, Status>
    ensures made { IfOk result (λ made.
        WasMade (S.left source.old) (S.left source.new) (D.made_of made)) }

    ensures read_fault { IsErrOf result Status.ReadFault
        → Rose (S.faults source.old) (S.faults source.new) }
    ensures no_fault { ¬ IsErrOf result Status.ReadFault
        → S.faults source.new ≡ S.faults source.old }
    ensures too_long { IsErrOf result Status.TooLong
        → TookMore (S.left source.old) (S.left source.new) DAY_BYTES
        ⊎ WasRead DAY_BYTES (S.left source.old) (S.left source.new) HasTooMany }
    ensures not_too_long { ¬ IsErrOf result Status.TooLong
        → TookFront (S.left source.old) (S.left source.new) DAY_BYTES }
    ensures no_opening { IsErrOf result Status.NoOpening
        → WasRead DAY_BYTES (S.left source.old) (S.left source.new) HasNoOpening }
    ensures unreadable { IsErrOf result Status.Unreadable
        → FindsWrong (S.left source.old) (S.left source.new)
        (WritesOrFails (K.held sink.old) (K.held sink.new)
        (K.faults sink.old) (K.faults sink.new)) }
    ensures only { IfErr result IsNoDay }
    ensures silent { ¬ IsErrOf result Status.Unreadable
        → Keeps (K.held sink.old) (K.held sink.new) }
    ensures silent_count { ¬ IsErrOf result Status.Unreadable
        → K.faults sink.new ≡ K.faults sink.old }
    ensures source_faults_grow { S.faults source.old ≤ S.faults source.new }
    ensures sink_faults_grow { K.faults sink.old ≤ K.faults sink.new }

    // And each comes where its cause is, unless memory or a fault is in the way.
    ensures by_the_day { EndsByTheDay (taking_status result) (S.left source.old) }
{
    *bytes = match take_all(alloc, source, DAY_BYTES) {
        Ok(bytes) => bytes,
        Err(fault) => return Err(Status::from(fault)),
    };
    match D::from_day(alloc, bytes) {
        Ok(made) => Ok(made),
        Err(DayFault::TooMany) => Err(Status::TooLong),
        Err(DayFault::NoOpening) => Err(Status::NoOpening),
        Err(DayFault::Unreadable { record_no, field }) => {
            Err(tell_wrong(record_no, field, sink))
        }
        Err(DayFault::NoMemory) => Err(Status::NoMemory),
    }
}

/// Writes which field of which record is wrong, or a front of that line where the sink has a fault.
pub fn tell_wrong<K: Sink>(record_no: u32, field: u8, sink: &mut K) -> Status
    ensures unreadable { result ≡ Status.Unreadable }
    ensures written { WritesOrFails (K.held sink.old) (K.held sink.new)
        (K.faults sink.old) (K.faults sink.new) (wrong_line record_no field) }
    ensures faults_grow { K.faults sink.old ≤ K.faults sink.new }
{
    let _whole = put_all(sink, write_wrong(record_no, field).as_slice());
    Status::Unreadable
}

/// How many bytes a day file may have.
pub const DAY_BYTES: usize = 16_777_216;

/// How many bytes a day file may have. It does nothing: its clause is the law.
pub fn the_most_bytes_of_a_day_file()
    ensures { DAY_BYTES ≡ 16_777_216 }
{}
