//! What one entry more makes of the desk, and what each legal history holds of boards, offers and events.
ghost use Rattle.std.specs.Prelude.{◌≡◌, ◌≤◌, ◌↔◌, ℕ, Some, true, false, ◌<◌, List, is_some};
ghost use Rattle.std.specs.List.{All, filter_map};
ghost use Rattle.desk_model.specs.declared.vac_state.VacState.TheVariants as state;
ghost use Rattle.desk_model.specs.statements.Entry.{EntryValue};
ghost use Rattle.desk_model.specs.histories.History.{History, with_entry, steps, said};
ghost use Rattle.desk_model.specs.histories.Duty.{tells, may_come, events, in_tour};
ghost use Rattle.desk_base.specs.Window.{Holds};
ghost use Rattle.duty_events.specs.declared.event.Event.{Event};
ghost use Rattle.duty_events.specs.Allowed.{first_minute, last_minute};
ghost use Rattle.desk_model.specs.offers.Offers.{open_offer, is_of, is_to, on_offer};
ghost use Rattle.desk_model.specs.offers.Assigned.{is_assigned, assigned, begun, is_annulled};
ghost use Rattle.desk_model.specs.offers.States.{state_of};
ghost use Rattle.desk_model.specs.laws.Comes.{Comes, on_offer_after, state_after};
ghost use Rattle.desk_model.specs.laws.Parts.{Part, Stays, touches};
ghost use Rattle.desk_model.specs.histories.Legal.{last_moment, IsNext, IsLegal};
ghost use Rattle.rest_rules.specs.Rest.{rest_end};
ghost use Rattle.desk_model.specs.declared.link.Link.{Link};
ghost use Rattle.desk_model.specs.declared.person.Person.{Person};
ghost use Rattle.desk_model.specs.declared.reply.Reply.TheVariants as reply;
ghost use Rattle.desk_model.specs.statements.Job.{JobValue};
ghost use Rattle.desk_model.specs.boards.Boards.{order, chain};
ghost use Rattle.desk_model.specs.boards.Rank.{IsByRank, IsOnce};
ghost use Rattle.desk_model.specs.offers.Bars.{bar_of};
ghost use Rattle.desk_model.specs.laws.Refusal.{changes, IsSameDesk};
ghost use Rattle.desk_model.specs.answers.NextAnswer.{next_answer};
ghost use Rattle.desk_model.specs.laws.Denials.{IsOpen, AreBarred, IsUnfilled, IsFirstClear, OffersRightly, IsUnfilledRightly, DeniesRightly, RunsAroundRightly};

/// What each definition of a history is with one entry more, from what it was and from what the entry says: persons,
/// qualifications, boards and vacancies, lists and orders, events, marks, offers, assignments and who turned which down, in
/// every history; and the state of a vacancy and the vacancy that is on offer to a person, in a legal one. It does nothing:
/// its clauses are the laws.
pub fn what_an_entry_makes_of_the_desk()
    ensures comes { (h : History) (e : EntryValue) → Comes h e }
    ensures state { (h : History) (e : EntryValue) (v : ℕ) → IsLegal h → IsNext h e
        → state_of (with_entry h e) v ≡ state_after v e (state_of h v) }
    ensures on_offer { (h : History) (e : EntryValue) (p : ℕ) → IsLegal h → IsNext h e
        → on_offer (with_entry h e) p ≡ on_offer_after p e (on_offer h p) }
    ensures moment { (h : History) (e : EntryValue) → last_moment (with_entry h e) ≡ e.moment }
{}

/// A command leaves every part of the desk that it may not change as it was, whatever is answered: the table of parts says
/// which it may. It does nothing: its clause is the law.
pub fn what_a_command_leaves()
    ensures { (h : History) (e : EntryValue) → IsLegal h → IsNext h e
        → (part : Part) → touches part e.stated.cmd ≡ false → Stays part h (with_entry h e) }
{}

/// In a legal history a vacancy is in one state, which tells all of it: it is on offer to a person exactly where its open
/// offer is to them, taken by one exactly where it is assigned to them, begun by one exactly where they reported for it,
/// and annulled exactly where it was. So a person is assigned to at most one vacancy, which is taken, and a vacancy to at
/// most one person. And in every history a vacancy is assigned to a person exactly where `assigned` names it. It does nothing:
/// its clauses are the laws.
pub fn a_vacancy_is_in_one_state()
    ensures offered { (h : History) → IsLegal h → (v p : ℕ)
        → (is_to p (open_offer h v) ≡ true) ↔ (state_of h v ≡ state.OnOffer p) }
    ensures taken { (h : History) → IsLegal h → (v p : ℕ)
        → (assigned h p ≡ Some v) ↔ (state_of h v ≡ state.Taken p) }
    ensures begun { (h : History) → IsLegal h → (v p : ℕ)
        → (begun h v ≡ Some p) ↔ (state_of h v ≡ state.Begun p) }
    ensures annulled { (h : History) → IsLegal h → (v : ℕ)
        → (is_annulled h v ≡ true) ↔ (state_of h v ≡ state.Annulled) }
    ensures has { (h : History) → (v p : ℕ) → is_assigned h p v ≡ is_of v (assigned h p) }
    ensures idle { (h : History) → IsLegal h → (v w p : ℕ) → is_to p (open_offer h v) ≡ true
        → is_assigned h p w ≡ false }
{}

/// In a legal history no entry is taken before the one before it, nor the first before the opening's minute. It does
/// nothing: its clause is the law.
pub fn moments_never_fall()
    ensures { (h : History) → IsLegal h → All (λ s. last_moment s.before ≤ s.entry.moment) (steps h) }
{}

/// In a legal history each entry is taken in the desk's window. It does nothing: its clause is the law.
pub fn each_moment_lies_in_the_window()
    ensures { (h : History) (e : EntryValue) → IsLegal h → IsNext h e → Holds h.opening.window e.moment }
{}

/// An event of a person that is told and accepted in a legal history may follow those that were told of them before, and
/// lies in the desk's window. It does nothing: its clauses are the laws.
pub fn what_is_told_may_follow()
    ensures follows { (h : History) (e : EntryValue) (p : ℕ) (t : Event) → IsNext h e
        → said (tells p) e ≡ Some t → may_come (events h p) t ≡ true }
    ensures first { (h : History) (e : EntryValue) (p : ℕ) (t : Event) → IsLegal h → IsNext h e
        → said (tells p) e ≡ Some t → Holds h.opening.window (first_minute t) }
    ensures last { (h : History) (e : EntryValue) (p : ℕ) (t : Event) → IsLegal h → IsNext h e
        → said (tells p) e ≡ Some t → Holds h.opening.window (last_minute t) }
{}

/// The order of a board is the one list of just those who are on it by rising rank: the number of the last entry that
/// sent each to its bottom. It does nothing: its clauses are the law.
pub fn order_is_by_rank()
    ensures by_rank { (h : History) (b : List ℕ) → IsByRank h b (order h b) }
    ensures only { (h : History) (b : List ℕ) (ps : List ℕ) → IsByRank h b ps → ps ≡ order h b }
    ensures once { (h : History) (b : List ℕ) → IsOnce (order h b) }
{}

/// An entry whose reply is neither `Done` nor `Offered` leaves persons, their qualifications, marks and events, boards,
/// lists, ranks, orders, chains, vacancies, their states, offers, assignments, who turned which down, bars and the first
/// choice as they were. It does nothing: its clause is the law.
pub fn a_refusal_changes_nothing()
    ensures { (h : History) (e : EntryValue) → changes e.reply ≡ false
        → IsSameDesk h (with_entry h e) }
{}

/// In a legal history at most one vacancy is on offer to a person. It does nothing: its clause is the law.
pub fn one_offer_to_a_person()
    ensures { (h : History) → IsLegal h → (v w p : ℕ) → is_to p (open_offer h v) ≡ true
        → is_to p (open_offer h w) ≡ true → v ≡ w }
{}

/// In a legal history no event that was told of a person and accepted is left out of the person's events. It does
/// nothing: its clause is the law.
pub fn no_event_is_left_out()
    ensures { (h : History) → IsLegal h
        → (p : ℕ) → events h p ≡ filter_map (said (tells p)) h.entries }
{}
