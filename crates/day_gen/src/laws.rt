//! The laws of generated days.
ghost use Rattle.std.specs.Prelude.{◌≡◌, ◌≤◌, ◌<◌, ◌+◌, ℕ, Some, length};
ghost use Rattle.std.specs.List.{All};
ghost use Rattle.desk_model.specs.declared.edition.Edition.{Edition as EditionValue};
ghost use Rattle.desk_model.specs.statements.Job.{JobValue};
ghost use Rattle.desk_model.specs.statements.Fits.{IsStated};
ghost use Rattle.desk_model.specs.histories.History.{opened, with_entry};
ghost use Rattle.desk_model.specs.histories.Legal.{next, IsLegal};
ghost use Rattle.day_gen.specs.declared.numbers.TheConstants.{COMMANDS};
ghost use Rattle.day_gen.specs.Due.{last_entry, due_by, job_due, planned_last};
ghost use Rattle.day_gen.specs.Day.{day_opening, generated_day, day_statement};

use desk_model::a_legal_history_fits;

/// A generated day begins as its desk was opened, and each entry more is the desk's answer to what is stated then by
/// caller 0. It does nothing: its clauses are the laws.
pub fn a_generated_day_grows()
    ensures begins { (edition : EditionValue) (number : ℕ)
        → generated_day edition number 0 ≡ opened (day_opening edition) }
    ensures grows { (edition : EditionValue) (number n : ℕ) → let h = generated_day edition number n in
        generated_day edition number (n + 1) ≡ with_entry h (next h 0 (day_statement edition number n)) }
    ensures last { (edition : EditionValue) (number n : ℕ) → let h = generated_day edition number n in
        last_entry (generated_day edition number (n + 1)) ≡ Some (next h 0 (day_statement edition number n)) }
    ensures opening { (edition : EditionValue) (number n : ℕ)
        → (generated_day edition number n).opening ≡ day_opening edition }
    ensures entries { (edition : EditionValue) (number n : ℕ)
        → length (generated_day edition number n).entries ≡ n }
    ensures callers { (edition : EditionValue) (number n : ℕ)
        → All (λ e. e.caller ≡ 0) (generated_day edition number n).entries }
{}

/// A generated day of at most 20,000 entries is a legal history, and what is stated at each of its entries has its form. It only
/// names the law that it rests on: its clauses are the laws.
pub fn a_generated_day_is_legal()
    ensures legal { (edition : EditionValue) (number n : ℕ) → n ≤ COMMANDS
        → IsLegal (generated_day edition number n) }
    ensures stated { (edition : EditionValue) (number n : ℕ) → n < COMMANDS
        → IsStated (day_statement edition number n) }
{
    a_legal_history_fits();
}

/// Whatever there is to do on a generated day is for the vacancy that was stated last. It does nothing: its clause is the law.
pub fn what_is_due_is_for_the_last_vacancy()
    ensures { (edition : EditionValue) (number n : ℕ) (job : JobValue) → let h = generated_day edition number n in
        job_due h (due_by (last_entry h)) ≡ Some job → planned_last h ≡ Some job }
{}
