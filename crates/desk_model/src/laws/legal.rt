//! The laws of legal histories.
ghost use Rattle.std.specs.Prelude.{◌≡◌, ◌≤◌, ℕ, ◌+◌, List, [], ◌∷◌, ◌++◌, map, length, take};
ghost use Rattle.std.specs.List.{All};
ghost use mathlib.Core.List.{IsPrefix};
ghost use Rattle.desk_model.specs.declared.limits.TheConstants.{BOARD_LIMIT, CHAIN_LIMIT, MEMBER_LIMIT, PERSON_LIMIT, VACANCY_LIMIT};
ghost use Rattle.desk_model.specs.statements.Opening.{OpeningValue, IsOpening};
ghost use Rattle.desk_model.specs.statements.Statement.{StatedValue};
ghost use Rattle.desk_model.specs.statements.Entry.{EntryValue};
ghost use Rattle.desk_model.specs.histories.History.{History, history_of, opened, with_entry};
ghost use Rattle.desk_model.specs.histories.Register.{persons, boards, vacancies};
ghost use Rattle.desk_model.specs.boards.Boards.{order, chain};
ghost use Rattle.desk_model.specs.statements.Fits.{Fits};
ghost use Rattle.desk_model.specs.histories.Legal.{next, given, history_from, history, MayState, IsLegal};

use law_bars::what_a_bar_of_the_law_keeps;

/// For each opening and each list of commands with their callers, each value in its range, there is exactly one legal
/// history that has them in that order. It does nothing: its clauses are the laws.
pub fn one_history_is_legal()
    ensures empty { (o : OpeningValue) → IsOpening o → IsLegal (opened o) }
    ensures legal { (o : OpeningValue) (commands : List (ℕ × StatedValue)) → IsOpening o
        → All (λ c. MayState c.0 c.1) commands → IsLegal (history o commands) }
    ensures opening { (o : OpeningValue) (commands : List (ℕ × StatedValue))
        → (history o commands).opening ≡ o }
    ensures given { (o : OpeningValue) (commands : List (ℕ × StatedValue))
        → map given (history o commands).entries ≡ commands }
    ensures only { (h : History) → IsLegal h → h ≡ history h.opening (map given h.entries) }
    ensures grows { (h : History) (caller : ℕ) (s : StatedValue)
        → IsLegal h → MayState caller s → IsLegal (with_entry h (next h caller s)) }
{}

/// A history goes on with the entries that the rules give for commands: with none it stays, each further command adds the entry
/// that the rules give next, and commands behind others go on from the history of those. It has an entry for each beside its own,
/// and is legal where it was. It does nothing: its clauses are the laws.
pub fn a_history_goes_on_with_commands()
    ensures none { (h : History) → history_from h [] ≡ h }
    ensures next { (h : History) (commands : List (ℕ × StatedValue)) (caller : ℕ) (s : StatedValue)
        → history_from h (commands ++ (caller, s) ∷ [])
        ≡ with_entry (history_from h commands) (next (history_from h commands) caller s) }
    ensures behind { (h : History) (commands later : List (ℕ × StatedValue))
        → history_from h (commands ++ later) ≡ history_from (history_from h commands) later }
    ensures opening { (h : History) (commands : List (ℕ × StatedValue))
        → (history_from h commands).opening ≡ h.opening }
    ensures count { (h : History) (commands : List (ℕ × StatedValue))
        → length (history_from h commands).entries ≡ length h.entries + length commands }
    ensures legal { (h : History) (commands : List (ℕ × StatedValue)) → IsLegal h
        → All (λ c. MayState c.0 c.1) commands → IsLegal (history_from h commands) }
{}

/// A history is legal in one way at most: that it is legal is a proposition. So where it only is known that there is a way, the
/// history may be taken for legal. It does nothing: its clause is the law.
pub fn a_history_is_legal_in_one_way()
    ensures { (h : History) → IsProp (IsLegal h) }
{}

/// The first entries of a legal history are a legal one of a desk that was opened so. It does nothing: its clauses are the
/// laws.
pub fn the_first_entries_are_legal()
    ensures first { (h : History) (many : ℕ) → IsLegal h → IsLegal (history_of h.opening (take many h.entries)) }
    ensures begins { (o : OpeningValue) (front whole : List EntryValue) → IsPrefix front whole
        → IsLegal (history_of o whole) → IsLegal (history_of o front) }
{}

/// In a legal history each entry has its values in their ranges: the caller, what was stated, the moment, and each number,
/// code and minute of the reply. So its line can be read again. It only names the law that it rests on: its clause is the
/// law.
pub fn a_legal_history_fits()
    ensures { (h : History) → IsLegal h → All Fits h.entries }
{
    what_a_bar_of_the_law_keeps();
}

/// In a legal history at most 500 persons are on a board, and so a chain of at most 4 boards has at most 2,000 positions. It
/// does nothing: its clauses are the laws.
pub fn boards_and_chains_are_bounded()
    ensures boards { (h : History) (b : List ℕ) → IsLegal h → length (order h b) ≤ MEMBER_LIMIT }
    ensures chains { (h : History) (codes : List (List ℕ)) → IsLegal h → length codes ≤ CHAIN_LIMIT
        → length (chain h codes) ≤ 2_000 }
{}

/// In a legal history at most 1,000 persons are enrolled, at most 64 boards are set up and at most 20,000 vacancies are made. It
/// does nothing: its clauses are the laws.
pub fn persons_boards_and_vacancies_are_bounded()
    ensures persons { (h : History) → IsLegal h → length (persons h) ≤ PERSON_LIMIT }
    ensures boards { (h : History) → IsLegal h → length (boards h) ≤ BOARD_LIMIT }
    ensures vacancies { (h : History) → IsLegal h → length (vacancies h) ≤ VACANCY_LIMIT }
{}
