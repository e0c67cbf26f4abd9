//! What the second edition of the rules adds to the first, and what it leaves.
ghost use Rattle.std.specs.Prelude.{◌≡◌, ◌≢◌, ◌≤◌, ◌<◌, ◌+◌, ℕ, true, false, None, Some, List, [], ◌∷◌, max};
ghost use Rattle.std.specs.List.{All, Contains};
ghost use Rattle.desk_model.specs.declared.edition.Edition.TheVariants as edition;
ghost use Rattle.desk_model.specs.declared.person.Person.{Person};
ghost use Rattle.desk_model.specs.statements.Job.{JobValue};
ghost use Rattle.desk_model.specs.histories.History.{History, Step, steps};
ghost use Rattle.desk_model.specs.histories.Register.{vacancy_of};
ghost use Rattle.desk_model.specs.offers.Held.{held, hold_end, HasDeclined};
ghost use Rattle.desk_model.specs.offers.Bars.{facts_of, bar_of};
ghost use Rattle.desk_model.specs.answers.VacancyAnswer.{vacancy_answer};
ghost use Rattle.desk_model.specs.laws.FirstEdition.{first_bar_in_one, vacancy_answer_in_one};
ghost use Rattle.desk_model.specs.histories.Legal.{IsLegal};

/// In the first edition nobody is held, and in a legal history no relief vacancy was made; what bars someone is told by the table
/// without B8. And in either edition a vacancy that is no relief one is answered as the first edition answers it. It does
/// nothing: its clauses are the laws.
pub fn the_first_edition_stays_as_it_was()
    ensures held { (h : History) (m p : ℕ) (codes : List (List ℕ)) → h.opening.edition ≡ edition.One
        → held h m codes p ≡ None }
    ensures relief { (h : History) → IsLegal h → h.opening.edition ≡ edition.One
        → (v : ℕ) (job : JobValue) → vacancy_of h v ≡ Some job → job.relief ≡ false }
    ensures bars { (h : History) (m p : ℕ) (job : JobValue) (person : Person)
        → h.opening.edition ≡ edition.One
        → bar_of h m job p person ≡ first_bar_in_one (facts_of h m job p person) }
    ensures vacancies { (h : History) (m : ℕ) (job : JobValue) → job.relief ≡ false
        → vacancy_answer h m job ≡ vacancy_answer_in_one h m job }
{}

/// In a legal history each vacancy that was made plans at most 720 minutes on duty, 49 USC 21103(a)(2), or is a relief one and
/// plans at most 960, 21103(d). It does nothing: its clauses are the law.
pub fn no_vacancy_plans_too_long()
    ensures ordinary { (h : History) → IsLegal h → (v : ℕ) (job : JobValue) → vacancy_of h v ≡ Some job
        → job.relief ≡ false → job.duty ≤ 720 }
    ensures relief { (h : History) → IsLegal h → (v : ℕ) (job : JobValue) → vacancy_of h v ≡ Some job
        → job.relief ≡ true → job.duty ≤ 960 }
{}

/// In the second edition who declines an offer is held for 480 minutes from that moment, from every vacancy whose chain has the
/// board that the offer was made from, whether or not they still stand on it: the end that is told of a hold is 480 minutes
/// after such a decline; until 480 minutes after each such decline there is a hold, and the end that is told is not before
/// that; and whom one holds from a vacancy is barred from it. It does nothing: its clauses are the laws.
pub fn a_decline_holds_for_eight_hours()
    ensures ends { (h : History) (m p until : ℕ) (codes : List (List ℕ)) → held h m codes p ≡ Some until
        → (m < until) × ((s : Step) × (Contains (steps h) s
        × (HasDeclined codes p s × (until ≡ s.entry.moment + 480)))) }
    ensures holds { (h : History) (p : ℕ) (codes : List (List ℕ)) → h.opening.edition ≡ edition.Two
        → All (λ s. HasDeclined codes p s → (m : ℕ) → m < s.entry.moment + 480
        → (until : ℕ) × ((held h m codes p ≡ Some until) × (s.entry.moment + 480 ≤ until))) (steps h) }
    ensures bars { (h : History) (m p until : ℕ) (job : JobValue) (person : Person)
        → held h m job.chain p ≡ Some until → bar_of h m job p person ≢ None }
{}

/// A chain would hold a person, in the edition that knows holds, until the greatest of the ends by each of its boards alone. It does
/// nothing: its clauses are the laws.
pub fn a_hold_is_by_boards()
    ensures none { (h : History) (p : ℕ) → hold_end h [] p ≡ 0 }
    ensures more { (h : History) (p : ℕ) (b : List ℕ) (codes : List (List ℕ))
        → hold_end h (b ∷ codes) p ≡ max (hold_end h (b ∷ []) p) (hold_end h codes p) }
{}
