//! The forms that tell the tours of a journal.
ghost use Rattle.std.specs.Prelude.{◌≡◌, ◌≢◌, ◌≤◌, ◌⊎◌, [], false, IfOk, string_bytes};
ghost use Rattle.std.specs.Io.KnownBytes.{Appends, Keeps as Stays};
ghost use Rattle.desk_io.specs.Faults.{Rose};
ghost use Rattle.desk_io.specs.Giving.{AddsFront};
ghost use Rattle.desk_io.specs.Input.{TookMore, TookFront};
ghost use Rattle.desk_model.specs.histories.History.{History};
ghost use Rattle.audit_desk.specs.Found.{HasNoOpening};
ghost use Rattle.duty_record.specs.Kept.{Keeps};
ghost use Rattle.day_replay.specs.Ends.{WasRead, WritesOrFails, writes};
ghost use Rattle.crewdesk_main.specs.Lines.{HasTooManyLines, HasFewLines};
ghost use Rattle.crewdesk_main.specs.Records.{Tells, TellsLine, tours_text};

use crate::audit_form::tell;
use crate::read_tours::read_tours;
use crate::take_journal::take_journal;
use crate::tour_form::TourForm;
use crate::write_text::write_text;
use audit_desk::JOURNAL_BYTES;
use desk_base::NoMemory;
use desk_io::{Sink, Source, Status};
use duty_record::{DutyRecords, to_json};
use std::alloc::Global;

/// Reads a journal from the source as it stands, legal or not, and writes the records that are asked for to the sink, as JSON on
/// a line; where a line is no entry's it writes which. It reads all of its input, and takes all memory, before it writes anything.
pub fn tell_tours<S: Source, K: Sink>(
    alloc: Global,
    form: TourForm,
    source: &mut S,
    sink: &mut K,
) -> Status
    ensures fine { result ≡ Status.Fine → Tells (S.left source.old) (S.left source.new) (tours_text form)
        (Appends (K.held sink.old) (K.held sink.new)) }
    ensures write_fault { result ≡ Status.WriteFault
        → Tells (S.left source.old) (S.left source.new) (tours_text form)
        (AddsFront (K.held sink.old) (K.held sink.new)) }
    ensures write_cause { result ≡ Status.WriteFault → Rose (K.faults sink.old) (K.faults sink.new) }
    ensures read_cause { result ≡ Status.ReadFault → Rose (S.faults source.old) (S.faults source.new) }
    ensures too_long { result ≡ Status.TooLong
        → TookMore (S.left source.old) (S.left source.new) JOURNAL_BYTES
        ⊎ WasRead JOURNAL_BYTES (S.left source.old) (S.left source.new) HasTooManyLines }
    ensures not_too_long { result ≢ Status.TooLong
        → TookFront (S.left source.old) (S.left source.new) JOURNAL_BYTES }
    ensures no_opening { result ≡ Status.NoOpening
        → WasRead JOURNAL_BYTES (S.left source.old) (S.left source.new)
        (λ text. HasFewLines text × HasNoOpening text) }
    ensures unreadable { result ≡ Status.Unreadable
        → TellsLine (S.left source.old) (S.left source.new)
        (WritesOrFails (K.held sink.old) (K.held sink.new) (K.faults sink.old) (K.faults sink.new)) }
    ensures form { result ≢ Status.Usage }
    ensures legal { result ≢ Status.AuditWrong }
    ensures silent { writes result ≡ false → Stays (K.held sink.old) (K.held sink.new) }
    ensures read_count { result ≢ Status.ReadFault → S.faults source.new ≡ S.faults source.old }
    ensures write_count { result ≢ Status.WriteFault → result ≢ Status.Unreadable
        → K.faults sink.new ≡ K.faults sink.old }
    ensures source_faults_grow { S.faults source.old ≤ S.faults source.new }
    ensures sink_faults_grow { K.faults sink.old ≤ K.faults sink.new }
{
    let text = match take_journal(alloc, source) {
        Ok(text) => text,
        Err(fault) => return Status::from(fault),
    };
    match read_tours(alloc, &text) {
        Ok(records) => write_tours(alloc, form, &records, sink),
        Err(verdict) => tell(alloc, &verdict, sink),
    }
}

// Writes the records that are asked for.
fn write_tours<K: Sink>(
    alloc: Global,
    form: TourForm,
    records: &DutyRecords,
    sink: &mut K,
) -> Status
    ensures fine { result ≡ Status.Fine → (h : History) → Keeps records.now h
        → Appends (K.held sink.old) (K.held sink.new) (tours_text form h) }
    ensures write_fault { result ≡ Status.WriteFault → (h : History) → Keeps records.now h
        → AddsFront (K.held sink.old) (K.held sink.new) (tours_text form h) }
    ensures write_cause { result ≡ Status.WriteFault → Rose (K.faults sink.old) (K.faults sink.new) }
    ensures silent { result ≡ Status.NoMemory → Stays (K.held sink.old) (K.held sink.new) }
    ensures write_count { result ≢ Status.WriteFault → K.faults sink.new ≡ K.faults sink.old }
    ensures faults_grow { K.faults sink.old ≤ K.faults sink.new }
    ensures only { (result ≡ Status.Fine)
        ⊎ ((result ≡ Status.WriteFault) ⊎ (result ≡ Status.NoMemory)) }
{
    match text_of(alloc, form, records) {
        Ok(text) => write_text(sink, text.as_bytes()),
        Err(_) => Status::NoMemory,
    }
}

// The text of the records that are asked for.
fn text_of(alloc: Global, form: TourForm, records: &DutyRecords) -> Result<String, NoMemory>
    ensures { IfOk result (λ text. (h : History) → Keeps records.now h
        → string_bytes text ≡ tours_text form h) }
{
    let told = match form {
        TourForm::Record(person) => records.tours(person)?,
        TourForm::Excess => records.excess_list()?,
    };
    let mut text = to_json(alloc, &told)?;
    text.push('\n')?;
    Ok(text)
}
