//! The form that audits a journal.
ghost use Rattle.std.specs.Prelude.{◌≡◌, ◌≢◌, ◌≤◌, ◌⊎◌, false, true};
ghost use Rattle.std.specs.Io.KnownBytes.{Appends, Keeps};
ghost use Rattle.desk_io.specs.Faults.{Rose};
ghost use Rattle.desk_io.specs.Giving.{AddsFront};
ghost use Rattle.desk_io.specs.Input.{TookMore, TookFront};
ghost use Rattle.audit_desk.specs.VerdictText.{verdict_text};
ghost use Rattle.crewdesk_main.specs.Audit.{Audits, EndsByTheJournal, IsAudited, ends_as};
ghost use Rattle.day_replay.specs.Ends.{WasRead, WritesOrFails, writes};
ghost use Rattle.crewdesk_main.specs.Lines.{HasTooManyLines};

use crate::take_journal::take_journal;
use crate::write_text::write_text;
use audit_desk::{JOURNAL_BYTES, Verdict, an_audit_finds_one_verdict, audit, write_verdict};
use desk_io::{Sink, Source, Status, put_all};
use std::alloc::Global;

/// Reads a journal from the source, audits it, and writes to the sink whether it is legal or what is wrong in it. It reads all
/// of its input, and takes all memory, before it writes anything.
pub fn audit_journal<S: Source, K: Sink>(alloc: Global, source: &mut S, sink: &mut K) -> Status
    ensures fine { result ≡ Status.Fine → Audits (S.left source.old) (S.left source.new) Status.Fine
        (Appends (K.held sink.old) (K.held sink.new)) }
    ensures write_fault { result ≡ Status.WriteFault → Audits (S.left source.old) (S.left source.new) Status.Fine
        (AddsFront (K.held sink.old) (K.held sink.new)) }
    ensures write_cause { result ≡ Status.WriteFault → Rose (K.faults sink.old) (K.faults sink.new) }
    ensures read_cause { result ≡ Status.ReadFault → Rose (S.faults source.old) (S.faults source.new) }
    ensures too_long { result ≡ Status.TooLong
        → TookMore (S.left source.old) (S.left source.new) JOURNAL_BYTES
        ⊎ WasRead JOURNAL_BYTES (S.left source.old) (S.left source.new) HasTooManyLines }
    ensures not_too_long { result ≢ Status.TooLong
        → TookFront (S.left source.old) (S.left source.new) JOURNAL_BYTES }
    ensures no_opening { result ≡ Status.NoOpening
        → WasRead JOURNAL_BYTES (S.left source.old) (S.left source.new) (λ text. IsAudited text Verdict.NoOpening) }
    ensures wrong { result ≡ Status.AuditWrong
        → Audits (S.left source.old) (S.left source.new) Status.AuditWrong
        (WritesOrFails (K.held sink.old) (K.held sink.new) (K.faults sink.old) (K.faults sink.new)) }
    ensures unreadable { result ≡ Status.Unreadable
        → Audits (S.left source.old) (S.left source.new) Status.Unreadable
        (WritesOrFails (K.held sink.old) (K.held sink.new) (K.faults sink.old) (K.faults sink.new)) }
    ensures by_the_journal { EndsByTheJournal result (S.left source.old) }
    ensures form { result ≢ Status.Usage }
    ensures silent { writes result ≡ false → Keeps (K.held sink.old) (K.held sink.new) }
    ensures read_count { result ≢ Status.ReadFault → S.faults source.new ≡ S.faults source.old }
    ensures write_count { result ≢ Status.WriteFault → result ≢ Status.AuditWrong
        → result ≢ Status.Unreadable → K.faults sink.new ≡ K.faults sink.old }
    ensures source_faults_grow { S.faults source.old ≤ S.faults source.new }
    ensures sink_faults_grow { K.faults sink.old ≤ K.faults sink.new }
{
    let text = match take_journal(alloc, source) {
        Ok(text) => text,
        Err(fault) => return Status::from(fault),
    };
    an_audit_finds_one_verdict();
    tell(alloc, &audit(alloc, &text), sink)
}

/// Writes the lines that tell a verdict, and says how an audit ends that finds it: where the sink has a fault a legal journal
/// ends it with that.
pub fn tell<K: Sink>(alloc: Global, verdict: &Verdict, sink: &mut K) -> Status
    ensures only { (result ≡ ends_as verdict.now)
        ⊎ ((result ≡ Status.NoMemory) ⊎ ((ends_as verdict.now ≡ Status.Fine) × (result ≡ Status.WriteFault))) }
    ensures fine { result ≡ Status.Fine
        → Appends (K.held sink.old) (K.held sink.new) (verdict_text verdict.now) }
    ensures write_fault { result ≡ Status.WriteFault
        → AddsFront (K.held sink.old) (K.held sink.new) (verdict_text verdict.now) }
    ensures told { writes result ≡ true
        → WritesOrFails (K.held sink.old) (K.held sink.new)
        (K.faults sink.old) (K.faults sink.new) (verdict_text verdict.now) }
    ensures silent { writes result ≡ false → Keeps (K.held sink.old) (K.held sink.new) }
    ensures write_cause { result ≡ Status.WriteFault → Rose (K.faults sink.old) (K.faults sink.new) }
    ensures write_count { result ≢ Status.WriteFault → result ≢ Status.AuditWrong
        → result ≢ Status.Unreadable → K.faults sink.new ≡ K.faults sink.old }
    ensures faults_grow { K.faults sink.old ≤ K.faults sink.new }
{
    let Ok(text) = write_verdict(alloc, verdict) else {
        return Status::NoMemory;
    };
    match verdict {
        Verdict::Legal(_) => write_text(sink, &text),
        Verdict::Wrong { .. } => {
            let _whole = put_all(sink, &text);
            Status::AuditWrong
        }
        Verdict::Unreadable(_) => {
            let _whole = put_all(sink, &text);
            Status::Unreadable
        }
        Verdict::NoOpening => Status::NoOpening,
        Verdict::NoMemory => Status::NoMemory,
    }
}
