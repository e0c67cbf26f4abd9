//! The form that goes on with a journal.
ghost use Rattle.std.specs.Prelude.{◌≡◌, ◌≢◌, ◌≤◌, ◌⊎◌, false};
ghost use Rattle.std.specs.Io.KnownBytes.{Appends, Keeps};
ghost use Rattle.desk_io.specs.Faults.{Rose};
ghost use Rattle.desk_io.specs.Giving.{AddsFront};
ghost use Rattle.desk_io.specs.Input.{TookMore, TookFront};
ghost use Rattle.crewdesk_main.specs.Audit.{IsAudited};
ghost use Rattle.crewdesk_main.specs.Continue.{Continues, EndsByTheText, FindsVerdict, FindsWrongCommand, IsTooLong};
ghost use Rattle.day_replay.specs.Ends.{EndsAs, Tells, TellsMore, WasRead, WritesOrFails, writes};
ghost use Rattle.crewdesk_main.specs.Parts.{journal_of};

use crate::continue_text::continue_text;
use audit_desk::{JOURNAL_BYTES, Verdict};
use desk_io::{Sink, Source, Status, take_all};
use std::alloc::Global;

/// Reads a journal from the source, and commands behind it, and writes the journal that goes on with them to the sink, with
/// their entries of caller 0; where the journal is wrong it writes what an audit does, and where a command is wrong a line that
/// says which field. It reads all of its input, and takes all memory, before it writes anything.
pub fn continue_journal<S: Source, K: Sink>(alloc: Global, source: &mut S, sink: &mut K) -> Status
    ensures fine { result ≡ Status.Fine
        → Continues (WasRead JOURNAL_BYTES (S.left source.old) (S.left source.new))
        (Appends (K.held sink.old) (K.held sink.new)) }
    ensures write_fault { result ≡ Status.WriteFault
        → Continues (WasRead JOURNAL_BYTES (S.left source.old) (S.left source.new))
        (AddsFront (K.held sink.old) (K.held sink.new)) }
    ensures write_cause { result ≡ Status.WriteFault → Rose (K.faults sink.old) (K.faults sink.new) }
    ensures read_cause { result ≡ Status.ReadFault → Rose (S.faults source.old) (S.faults source.new) }
    ensures too_long { result ≡ Status.TooLong
        → TookMore (S.left source.old) (S.left source.new) JOURNAL_BYTES
        ⊎ WasRead JOURNAL_BYTES (S.left source.old) (S.left source.new) IsTooLong }
    ensures not_too_long { result ≢ Status.TooLong
        → TookFront (S.left source.old) (S.left source.new) JOURNAL_BYTES }
    ensures no_opening { result ≡ Status.NoOpening
        → WasRead JOURNAL_BYTES (S.left source.old) (S.left source.new)
        (λ text. IsAudited (journal_of text) Verdict.NoOpening) }
    ensures wrong { result ≡ Status.AuditWrong
        → FindsVerdict (WasRead JOURNAL_BYTES (S.left source.old) (S.left source.new)) Status.AuditWrong
        (WritesOrFails (K.held sink.old) (K.held sink.new) (K.faults sink.old) (K.faults sink.new)) }
    ensures unreadable { result ≡ Status.Unreadable
        → FindsVerdict (WasRead JOURNAL_BYTES (S.left source.old) (S.left source.new)) Status.Unreadable
        (WritesOrFails (K.held sink.old) (K.held sink.new) (K.faults sink.old) (K.faults sink.new))
        ⊎ FindsWrongCommand (WasRead JOURNAL_BYTES (S.left source.old) (S.left source.new))
        (WritesOrFails (K.held sink.old) (K.held sink.new) (K.faults sink.old) (K.faults sink.new)) }
    ensures more_bytes { TellsMore JOURNAL_BYTES (S.left source.old) → EndsAs result Status.TooLong }
    ensures by_the_text { EndsByTheText result (Tells JOURNAL_BYTES (S.left source.old)) }
    ensures form { result ≢ Status.Usage }
    ensures silent { writes result ≡ false → Keeps (K.held sink.old) (K.held sink.new) }
    ensures read_count { result ≢ Status.ReadFault → S.faults source.new ≡ S.faults source.old }
    ensures write_count { result ≢ Status.WriteFault → result ≢ Status.AuditWrong
        → result ≢ Status.Unreadable → K.faults sink.new ≡ K.faults sink.old }
    ensures source_faults_grow { S.faults source.old ≤ S.faults source.new }
    ensures sink_faults_grow { K.faults sink.old ≤ K.faults sink.new }
{
    let text = match take_all(alloc, source, JOURNAL_BYTES) {
        Ok(text) => text,
        Err(fault) => return Status::from(fault),
    };
    continue_text(alloc, &text, sink)
}
