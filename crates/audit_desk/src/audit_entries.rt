//! The lines behind the opening's, audited.
ghost use Rattle.std.specs.Prelude.{◌≡◌, ◌≢◌, ◌≤◌, ◌<◌, ◌+◌, ◌^◌, ◌++◌, ℕ, [], length, IfOk, IfErr};
ghost use Rattle.desk_model.specs.histories.History.{History};
ghost use Rattle.desk_model.specs.texts.Journal.{journal};
ghost use Rattle.audit_desk.specs.Found.{Finds, outcome_of};
ghost use Rattle.audit_desk.specs.Resumed.{Resumes};

use crate::lines::first_line;
use crate::{Outcome, Verdict};
use desk_model::{DeskCore, Entry};
use desk_text::{Statement, each_line_ends_once, put_statement, read_entry};
use line_writer::{LineText, is_outcome};
use record_rows::{Fields, LastMinute};

// What the desk answered by an entry.
fn outcome_of(entry: &Entry) -> Outcome
    ensures { result ≡ outcome_of entry.now }
{
    Outcome {
        moment: entry.moment(),
        reply: entry.reply(),
    }
}

/// Audits a journal, where this is behind the opening's line, and the desk was opened so and answered nothing yet: how many
/// entries it has, for which the desk stands then; or what is wrong in it.
pub(crate) fn audit_entries<C: DeskCore>(core: &mut C, text: &[u8]) -> Result<u32, Verdict>
    requires few { length text.now + 2 < 2 ^ 32 }
    requires room { length text.now ≤ C.room core.old }
    ensures legal { IfOk result (λ count. (h : History) → C.stands core.old h → h.entries ≡ []
        → Resumes (C.stands core.new) (journal h ++ text.now) count) }
    ensures room { C.room core.old ≤ C.room core.new + length text.now }
    ensures found { IfErr result (λ verdict. (h : History) → C.stands core.old h → h.entries ≡ []
        → Finds (journal h ++ text.now) verdict) }
    ensures wrong { IfErr result (λ verdict. (count : ℕ) → verdict ≢ Verdict.Legal count) }
{
    each_line_ends_once();
    let mut left = text;
    let mut count: u32 = 0;
    let mut room = LineText::new();
    let mut last = LastMinute::new();
    let mut fields = Fields::new();
    let mut statement = Statement::new();
    while !left.is_empty() {
        let (line, behind) = first_line(left);
        let Some(outcome) = put_statement(&mut statement, &mut fields, &mut last, line) else {
            return Err(Verdict::Unreadable(count + 2));
        };
        let right = core.answer(statement.caller, &statement.stated);
        if !is_outcome(outcome, &mut room, &mut last, &right) {
            let Some(entry) = &read_entry(line) else {
                return Err(Verdict::Unreadable(count + 2));
            };
            return Err(Verdict::Wrong {
                line: count + 2,
                written: outcome_of(entry),
                right: outcome_of(&right.to_entry()),
            });
        }
        count += 1;
        left = behind;
    }
    Ok(count)
}
