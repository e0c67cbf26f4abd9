//! Journals, taken from a source.
ghost use Rattle.std.specs.Prelude.{◌≡◌, ◌⊎◌, ◌≤◌, vec_len, IfOk, IsErrOf};
ghost use Rattle.desk_io.specs.Faults.{Rose};
ghost use Rattle.desk_io.specs.Input.{TookAll, TookMore, TookFront};
ghost use Rattle.day_replay.specs.Ends.{WasRead};
ghost use Rattle.crewdesk_main.specs.Lines.{HasFewLines, HasTooManyLines};

use crate::count_lines::count_lines;
use crate::limits::JOURNAL_LINES;
use audit_desk::JOURNAL_BYTES;
use desk_io::{InputFault, Source, take_all};
use std::alloc::Global;

/// Takes all that the source has, as a journal: at most 268,435,456 bytes, in at most 515,001 lines.
pub fn take_journal<S: Source>(alloc: Global, source: &mut S) -> Result<Vec<u8>, InputFault>
    ensures bounded { IfOk result (λ text. vec_len text ≤ JOURNAL_BYTES) }
    ensures whole { IfOk result (λ text.
        TookAll (S.left source.old) (S.left source.new) text.items) }
    ensures few { IfOk result (λ text. HasFewLines text.items) }

    ensures read_fault { IsErrOf result InputFault.ReadFault
        → Rose (S.faults source.old) (S.faults source.new) }
    ensures no_fault { ¬ IsErrOf result InputFault.ReadFault
        → S.faults source.new ≡ S.faults source.old }
    ensures too_long { IsErrOf result InputFault.TooLong
        → TookMore (S.left source.old) (S.left source.new) JOURNAL_BYTES
        ⊎ WasRead JOURNAL_BYTES (S.left source.old) (S.left source.new) HasTooManyLines }
    ensures not_too_long { ¬ IsErrOf result InputFault.TooLong
        → TookFront (S.left source.old) (S.left source.new) JOURNAL_BYTES }
    ensures faults_grow { S.faults source.old ≤ S.faults source.new }
{
    let text = take_all(alloc, source, JOURNAL_BYTES)?;
    if count_lines(&text) <= JOURNAL_LINES {
        Ok(text)
    } else {
        Err(InputFault::TooLong)
    }
}
