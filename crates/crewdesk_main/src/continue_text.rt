//! A text that is a journal, and commands that it goes on with.
ghost use Rattle.std.specs.Prelude.{◌≡◌, ◌≢◌, ◌≤◌, ◌⊎◌, length, false};
ghost use Rattle.std.specs.Io.KnownBytes.{Appends, Keeps};
ghost use Rattle.desk_io.specs.Faults.{Rose};
ghost use Rattle.desk_io.specs.Giving.{AddsFront};
ghost use Rattle.crewdesk_main.specs.Audit.{IsAudited};
ghost use Rattle.crewdesk_main.specs.Continue.{Continues, EndsByTheText, FindsVerdict, FindsWrongCommand, IsTooLong};
ghost use Rattle.day_replay.specs.Ends.{WritesOrFails, writes};
ghost use Rattle.crewdesk_main.specs.Parts.{journal_of};

use crate::audit_form::tell;
use crate::count_lines::count_lines;
use crate::cut_at_plus::cut_at_plus;
use crate::go_on::go_on;
use crate::limits::JOURNAL_LINES;
use audit_desk::{JOURNAL_BYTES, Verdict, an_audit_finds_one_verdict, resume};
use desk_io::{Sink, Status};
use desk_model::one_history_is_legal;
use kept_desk::JOURNAL_ENTRIES;
use std::alloc::Global;

/// Writes the journal that goes on with the commands of a text of at most 268,435,456 bytes; where its journal is wrong, what an
/// audit writes, and where a command is wrong a line that says which field. It takes all memory before it writes anything.
pub(crate) fn continue_text<K: Sink>(alloc: Global, text: &[u8], sink: &mut K) -> Status
    requires { length text.now ≤ JOURNAL_BYTES }
    ensures fine { result ≡ Status.Fine
        → Continues (λ P. P text.now) (Appends (K.held sink.old) (K.held sink.new)) }
    ensures write_fault { result ≡ Status.WriteFault
        → Continues (λ P. P text.now) (AddsFront (K.held sink.old) (K.held sink.new)) }
    ensures write_cause { result ≡ Status.WriteFault → Rose (K.faults sink.old) (K.faults sink.new) }
    ensures too_long { result ≡ Status.TooLong → IsTooLong text.now }
    ensures no_opening { result ≡ Status.NoOpening → IsAudited (journal_of text.now) Verdict.NoOpening }
    ensures wrong { result ≡ Status.AuditWrong → FindsVerdict (λ P. P text.now) Status.AuditWrong
        (WritesOrFails (K.held sink.old) (K.held sink.new) (K.faults sink.old) (K.faults sink.new)) }
    ensures unreadable { result ≡ Status.Unreadable
        → FindsVerdict (λ P. P text.now) Status.Unreadable
        (WritesOrFails (K.held sink.old) (K.held sink.new) (K.faults sink.old) (K.faults sink.new))
        ⊎ FindsWrongCommand (λ P. P text.now)
        (WritesOrFails (K.held sink.old) (K.held sink.new) (K.faults sink.old) (K.faults sink.new)) }
    ensures by_the_text { EndsByTheText result (λ P. P text.now) }
    ensures form { (result ≢ Status.Usage) × (result ≢ Status.ReadFault) }
    ensures silent { writes result ≡ false → Keeps (K.held sink.old) (K.held sink.new) }
    ensures write_count { result ≢ Status.WriteFault → result ≢ Status.AuditWrong
        → result ≢ Status.Unreadable → K.faults sink.new ≡ K.faults sink.old }
    ensures faults_grow { K.faults sink.old ≤ K.faults sink.new }
{
    let (journal, more) = cut_at_plus(text);
    if JOURNAL_LINES < count_lines(journal) {
        return Status::TooLong;
    }
    // What the desk answers is a legal history, and an audit finds one verdict.
    one_history_is_legal();
    an_audit_finds_one_verdict();
    match resume(alloc, journal, JOURNAL_ENTRIES) {
        Ok(mut resumed) => go_on(alloc, &mut resumed.core, resumed.count, journal, more, sink),
        Err(verdict) => tell(alloc, &verdict, sink),
    }
}
