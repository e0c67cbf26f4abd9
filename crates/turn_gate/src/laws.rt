ghost use Rattle.std.specs.Prelude.{◌≡◌, ◌≢◌, ℕ, List, [], ◌∷◌, ◌++◌};
ghost use mathlib.Core.List.{IsPrefix};
ghost use Rattle.desk_model.specs.statements.Entry.{EntryValue};
ghost use Rattle.turn_gate.specs.Told.{own};

/// Laws of a list with one entry more: a caller's own entries are one more where it is of this caller, and the same where it is
/// of another; and what began the list begins it still. It does nothing: its clauses are the laws.
pub fn what_one_entry_more_makes_known()
    ensures mine { (entries : List EntryValue) (e : EntryValue) (number : ℕ) → e.caller ≡ number
        → own (entries ++ e ∷ []) number ≡ own entries number ++ e ∷ [] }
    ensures other { (entries : List EntryValue) (e : EntryValue) (number : ℕ) → e.caller ≢ number
        → own (entries ++ e ∷ []) number ≡ own entries number }
    ensures begins { (known entries : List EntryValue) (e : EntryValue) → IsPrefix known entries
        → IsPrefix known (entries ++ e ∷ []) }
{}
