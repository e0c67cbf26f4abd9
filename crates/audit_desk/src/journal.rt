//! The audit of a journal.
ghost use Rattle.std.specs.Prelude.{◌≡◌, ◌≢◌, ◌⊎◌, ◌≤◌, ℕ, length, IfOk, IfErr};
ghost use Rattle.audit_desk.specs.declared.verdict.Verdict.{Verdict as VerdictValue};
ghost use Rattle.audit_desk.specs.declared.verdict.Verdict.TheVariants.{NoMemory};
ghost use Rattle.audit_desk.specs.Found.{Finds};
ghost use Rattle.audit_desk.specs.Resumed.{Resumes};

use crate::audit_entries::audit_entries;
use crate::lines::first_line;
use crate::verdict::an_audit_finds_one_verdict;
use crate::{Resumed, Verdict};
use desk_model::DeskCore;
use desk_text::{each_line_ends_once, read_opening};
use fast_core::FastCore;
use std::alloc::Global;

/// How many bytes a journal may have.
pub const JOURNAL_BYTES: usize = 268_435_456;

/// How many bytes a journal may have. It does nothing: its clause is the law.
pub fn the_most_bytes_of_a_journal()
    ensures { JOURNAL_BYTES ≡ 268_435_456 }
{}

/// What the audit of a journal of at most 268,435,456 bytes finds: each of its lines is read in turn, and a desk answers what
/// is stated there.
pub fn audit(alloc: Global, journal: &[u8]) -> Verdict
    requires { length journal.now ≤ JOURNAL_BYTES }
    ensures found { result ≢ Verdict.NoMemory → Finds journal.now result }
    ensures tells { (verdict : VerdictValue) → Finds journal.now verdict → (result ≡ verdict) ⊎ (result ≡ Verdict.NoMemory) }
{
    an_audit_finds_one_verdict();
    find(alloc, journal)
}

// The same, as it is read.
fn find(alloc: Global, journal: &[u8]) -> Verdict
    requires { length journal.now ≤ JOURNAL_BYTES }
    ensures { result ≢ Verdict.NoMemory → Finds journal.now result }
{
    match resume(alloc, journal, 0) {
        Ok(resumed) => Verdict::Legal(resumed.count),
        Err(verdict) => verdict,
    }
}

/// The desk as it stands behind a journal of at most 268,435,456 bytes, with so many steps more; where the journal isn't legal,
/// what an audit finds in it.
pub fn resume(alloc: Global, journal: &[u8], more: u32) -> Result<Resumed, Verdict>
    requires { length journal.now ≤ JOURNAL_BYTES }
    ensures legal { IfOk result (λ resumed.
        Resumes (⟦<FastCore as DeskCore>⟧.stands resumed.core) journal.now resumed.count) }
    ensures room { IfOk result (λ resumed. more ≤ ⟦<FastCore as DeskCore>⟧.room resumed.core) }
    ensures found { IfErr result (λ verdict. verdict ≢ Verdict.NoMemory → Finds journal.now verdict) }
    ensures wrong { IfErr result (λ verdict. (count : ℕ) → verdict ≢ Verdict.Legal count) }
{
    each_line_ends_once();
    let (line, behind) = first_line(journal);
    let Some(opening) = read_opening(line) else {
        return Err(Verdict::NoOpening);
    };
    let steps = behind.len() as u64 + u64::from(more);
    let Ok(mut core) = FastCore::new(alloc, opening, steps) else {
        return Err(Verdict::NoMemory);
    };
    let count = audit_entries(&mut core, behind)?;
    Ok(Resumed { core, count })
}
