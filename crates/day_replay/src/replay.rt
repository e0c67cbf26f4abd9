ghost use Rattle.std.specs.Prelude.{◌≡◌, ◌≢◌, length};
ghost use Rattle.day_replay.specs.Ends.{EndsWriting};
ghost use Rattle.desk_model.specs.texts.Journal.{journal};
ghost use Rattle.line_writer.specs.Tally.{tally_text};
ghost use Rattle.day_replay.specs.Forecast.{forecast_text, when_text};
ghost use Rattle.day_replay.specs.Held.{held_bytes, held_text};
ghost use Rattle.day_replay.specs.Replay.{EndsDay, Replays, day_history, text_of};

use crate::day_forecast::{forecast_day, write_forecast};
use crate::day_input::take_made;
use crate::day_when::when_after;
use crate::earliest_line::write_earliest;
use crate::held_journal::HeldJournal;
use crate::replayed::Replayed;
use crate::{DayForm, PIECE_BYTES, take_day};
use command_parser::DayFile;
use desk_base::{PersonNo, VacNo};
use desk_io::{Sink, Source, Status, put_all};
use desk_model::one_history_is_legal;
use fast_core::FastCore;
use line_writer::Tally;
use std::alloc::Global;

/// Reads a day file from the source, replays its commands and writes what is asked for to the sink: the journal, the tally, what would
/// be answered to the last commands, or from when on nothing bars somebody from a vacancy; where a field of the file is wrong it writes a
/// line that says which, or a front of it where the sink has a fault. It reads all of its input, and takes all memory for the replay,
/// before it writes anything.
pub fn replay_day<S: Source, K: Sink>(
    alloc: Global,
    form: DayForm,
    source: &mut S,
    sink: &mut K,
) -> Status
    ensures form { result ≢ Status.Usage }
    ensures ends { EndsDay result (Replays (S.left source.old) (S.left source.new) (text_of form))
        (S.left source.old) (S.left source.new) (S.faults source.old) (S.faults source.new)
        (K.held sink.old) (K.held sink.new) (K.faults sink.old) (K.faults sink.new) }
{
    match form {
        DayForm::Replay => replay_journal(alloc, source, sink),
        DayForm::Tally => replay_tally(alloc, source, sink),
        DayForm::Forecast { supposed } => replay_forecast(alloc, supposed, source, sink),
        DayForm::When { vac, person } => replay_when(alloc, vac, person, source, sink),
    }
}

// Writes the journal.
fn replay_journal<S: Source, K: Sink>(alloc: Global, source: &mut S, sink: &mut K) -> Status
    ensures form { result ≢ Status.Usage }
    ensures ends { EndsDay result (Replays (S.left source.old) (S.left source.new) journal)
        (S.left source.old) (S.left source.new) (S.faults source.old) (S.faults source.new)
        (K.held sink.old) (K.held sink.new) (K.faults sink.old) (K.faults sink.new) }
{
    // What the desk answers is a legal history.
    one_history_is_legal();
    let mut bytes = Vec::new(alloc);
    match take_made::<Replayed<HeldJournal>, S, K>(alloc, &mut bytes, source, sink) {
        Ok(day) => print_journal(alloc, &day.kept, sink),
        Err(status) => status,
    }
}

// Writes the journal that is held. All memory is taken before anything is written.
fn print_journal<K: Sink>(alloc: Global, held: &HeldJournal, sink: &mut K) -> Status
    requires { held_bytes held.now.lines.items ≡ length held.now.texts.items }
    ensures { EndsWriting result (λ Writes. Writes (held_text held.now))
        (K.held sink.old) (K.held sink.new) (K.faults sink.old) (K.faults sink.new) }
{
    let Ok(mut buffer) = Vec::with_capacity(alloc, PIECE_BYTES) else {
        return Status::NoMemory;
    };
    if held.write(&mut buffer, sink) {
        Status::Fine
    } else {
        Status::WriteFault
    }
}

// Writes the tally.
fn replay_tally<S: Source, K: Sink>(alloc: Global, source: &mut S, sink: &mut K) -> Status
    ensures form { result ≢ Status.Usage }
    ensures ends { EndsDay result (Replays (S.left source.old) (S.left source.new) tally_text)
        (S.left source.old) (S.left source.new) (S.faults source.old) (S.faults source.new)
        (K.held sink.old) (K.held sink.new) (K.faults sink.old) (K.faults sink.new) }
{
    one_history_is_legal();
    let mut bytes = Vec::new(alloc);
    match take_made::<Replayed<Tally>, S, K>(alloc, &mut bytes, source, sink) {
        Ok(day) => put_text(sink, day.kept.write().as_slice()),
        Err(status) => status,
    }
}

// Writes what would be answered to the last commands, behind the journal of the others.
fn replay_forecast<S: Source, K: Sink>(
    alloc: Global,
    asked: u32,
    source: &mut S,
    sink: &mut K,
) -> Status
    ensures form { result ≢ Status.Usage }
    ensures ends { EndsDay result
        (Replays (S.left source.old) (S.left source.new) (forecast_text asked))
        (S.left source.old) (S.left source.new) (S.faults source.old) (S.faults source.new)
        (K.held sink.old) (K.held sink.new) (K.faults sink.old) (K.faults sink.new) }
{
    one_history_is_legal();
    match take_day(alloc, source, sink) {
        Ok(day) => print_forecast(alloc, asked, &day, sink),
        Err(status) => status,
    }
}

// Writes from when on nothing bars the person from the vacancy.
fn replay_when<S: Source, K: Sink>(
    alloc: Global,
    vac: VacNo,
    person: PersonNo,
    source: &mut S,
    sink: &mut K,
) -> Status
    ensures form { result ≢ Status.Usage }
    ensures ends { EndsDay result
        (Replays (S.left source.old) (S.left source.new) (when_text vac person))
        (S.left source.old) (S.left source.new) (S.faults source.old) (S.faults source.new)
        (K.held sink.old) (K.held sink.new) (K.faults sink.old) (K.faults sink.new) }
{
    one_history_is_legal();
    match take_day(alloc, source, sink) {
        Ok(day) => print_when(alloc, vac, person, &day, sink),
        Err(status) => status,
    }
}

// Replays the day file's commands on a new desk, the last of them on a copy. All memory is taken before anything is written.
fn print_forecast<K: Sink>(alloc: Global, asked: u32, day: &DayFile, sink: &mut K) -> Status
    ensures { EndsWriting result
        (λ Writes. Writes (forecast_text asked (day_history day.now.opening day.now.commands.items)))
        (K.held sink.old) (K.held sink.new) (K.faults sink.old) (K.faults sink.new) }
{
    let Ok(mut core) = FastCore::new(alloc, day.opening, day.commands.len() as u64) else {
        return Status::NoMemory;
    };
    let Ok(mut buffer) = Vec::with_capacity(alloc, PIECE_BYTES) else {
        return Status::NoMemory;
    };
    let Ok(told) = forecast_day(alloc, &mut core, &day.commands, asked) else {
        return Status::NoMemory;
    };
    if write_forecast(
        &day.opening,
        &told.answered,
        &told.supposed,
        &mut buffer,
        sink,
    ) {
        Status::Fine
    } else {
        Status::WriteFault
    }
}

// Replays the day file's commands on a new desk, and asks it.
fn print_when<K: Sink>(
    alloc: Global,
    vac: VacNo,
    person: PersonNo,
    day: &DayFile,
    sink: &mut K,
) -> Status
    ensures { EndsWriting result
        (λ Writes. Writes (when_text vac person (day_history day.now.opening day.now.commands.items)))
        (K.held sink.old) (K.held sink.new) (K.faults sink.old) (K.faults sink.new) }
{
    let Ok(mut core) = FastCore::new(alloc, day.opening, day.commands.len() as u64) else {
        return Status::NoMemory;
    };
    let told = when_after(&mut core, &day.commands, vac, person);
    put_text(sink, write_earliest(&told).as_slice())
}

// Puts a text into the sink.
fn put_text<K: Sink>(sink: &mut K, text: &[u8]) -> Status
    ensures { EndsWriting result (λ Writes. Writes text.now)
        (K.held sink.old) (K.held sink.new) (K.faults sink.old) (K.faults sink.new) }
{
    if put_all(sink, text) {
        Status::Fine
    } else {
        Status::WriteFault
    }
}
