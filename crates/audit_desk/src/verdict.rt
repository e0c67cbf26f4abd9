ghost use Rattle.std.specs.Prelude.{◌≡◌, ℕ, List};
ghost use Rattle.audit_desk.specs.declared.verdict.Verdict.{Verdict as VerdictValue};
ghost use Rattle.audit_desk.specs.Found.{Finds};

use crate::Outcome;
use desk_model::a_legal_history_fits;

/// What an audit finds. Lines count from 1; the opening's is line 1.
#[derive(Clone, Copy, Debug, PartialEq, Eq)]
pub enum Verdict {
    /// It is the journal of a legal history with so many entries.
    Legal(u32),
    /// The entry of a line has another moment or another reply than the rules give. All lines before it are right.
    Wrong {
        /// The line.
        line: u32,
        /// What is written there.
        written: Outcome,
        /// What the rules give.
        right: Outcome,
    },
    /// This line is the text of no entry. All lines before it are right.
    Unreadable(u32),
    /// The first line is the text of no opening.
    NoOpening,
    /// Memory was wanting.
    NoMemory,
}

/// Of a text an audit finds one verdict at most. It only names the law that it rests on: its clause is the law.
pub fn an_audit_finds_one_verdict()
    ensures { (text : List ℕ) (a b : VerdictValue) → Finds text a → Finds text b → a ≡ b }
{
    a_legal_history_fits();
}
