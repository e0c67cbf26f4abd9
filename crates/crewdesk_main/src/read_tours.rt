//! The tours of a journal, read as it stands.
ghost use Rattle.std.specs.Prelude.{◌≡◌, ◌≢◌, ◌≤◌, ◌<◌, ◌+◌, ◌^◌, ◌++◌, length, IfOk, IfErr, ℕ, List, []};
ghost use Rattle.desk_model.specs.statements.Opening.{OpeningValue, IsOpening};
ghost use Rattle.desk_model.specs.histories.History.{opened, History};
ghost use Rattle.desk_model.specs.texts.Journal.{journal};
ghost use Rattle.crewdesk_main.specs.Records.{KeepsJournal, IsUnread, StartsWith, HasNoEntry};
ghost use Rattle.audit_desk.specs.Found.{HasNoOpening};

use audit_desk::{JOURNAL_BYTES, Verdict, first_line};
use desk_text::{Statement, each_line_ends_once, read_next_entry, read_opening};
use duty_record::DutyRecords;
use record_rows::{Fields, LastMinute};
use std::alloc::Global;

/// What a journal of at most 268,435,456 bytes tells of tours, whether or not it is legal; or which line is the first that is no
/// entry's, or that the first is no opening's.
pub fn read_tours(alloc: Global, text: &[u8]) -> Result<DutyRecords, Verdict>
    requires { length text.now ≤ JOURNAL_BYTES }
    ensures read { IfOk result (λ records. KeepsJournal records text.now) }
    ensures unread { IfErr result (λ verdict. verdict ≢ Verdict.NoMemory → IsUnread text.now verdict) }
{
    each_line_ends_once();
    let (line, behind) = first_line(text);
    match read_opening(line) {
        Some(_) => read_entries(alloc, behind),
        None => Err(Verdict::NoOpening),
    }
}

// The same, of what is behind the line of an opening.
fn read_entries(alloc: Global, text: &[u8]) -> Result<DutyRecords, Verdict>
    requires { length text.now + 2 < 2 ^ 32 }
    ensures read { IfOk result (λ records. (o : OpeningValue) → IsOpening o
        → KeepsJournal records (journal (opened o) ++ text.now)) }
    ensures unread { IfErr result (λ verdict. verdict ≢ Verdict.NoMemory
        → (o : OpeningValue) → IsOpening o → IsUnread (journal (opened o) ++ text.now) verdict) }
{
    each_line_ends_once();
    let mut records = DutyRecords::new(alloc);
    let mut left = text;
    let mut count: u32 = 0;
    let mut statement = Statement::new();
    let mut fields = Fields::new();
    let mut stated_last = LastMinute::new();
    let mut moment_last = LastMinute::new();
    while !left.is_empty() {
        let (line, behind) = first_line(left);
        let Some(entry) = &read_next_entry(
            &mut statement,
            &mut fields,
            &mut stated_last,
            &mut moment_last,
            line,
        ) else {
            return Err(Verdict::Unreadable(count + 2));
        };
        match records.read(entry) {
            Ok(()) => {
                count += 1;
                left = behind;
            }
            Err(_) => return Err(Verdict::NoMemory),
        }
    }
    Ok(records)
}

/// A text is the journal of one history at most, legal or not, or one line of it is the first that is no entry's, or its first is no
/// opening's; and never two of these. It does nothing: its clauses are the law.
pub fn a_text_is_read_in_one_way()
    ensures history { (text : List ℕ) (h i : History) → StartsWith text h [] → StartsWith text i [] → h ≡ i }
    ensures line { (text : List ℕ) (l m : ℕ) → HasNoEntry text l → HasNoEntry text m → l ≡ m }
    ensures no_line { (text : List ℕ) (h : History) (l : ℕ) → StartsWith text h [] → ¬ HasNoEntry text l }
    ensures opening { (text rest : List ℕ) (h : History) → StartsWith text h rest → ¬ HasNoOpening text }
{}
