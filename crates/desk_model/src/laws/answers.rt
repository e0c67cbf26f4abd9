//! What holds before a command is done, and what each legal history holds of boards, vacancies and events for that.
ghost use Rattle.std.specs.Prelude.{◌≡◌, ◌≤◌, ◌+◌, ℕ, None, Some, true, unwrap_or, List, []};
ghost use Rattle.std.specs.List.{All};
ghost use Rattle.desk_base.specs.Window.{end_of};
ghost use Rattle.duty_events.specs.Lists.{latest};
ghost use Rattle.desk_model.specs.declared.person.Person.{Person};
ghost use Rattle.desk_model.specs.declared.reply.Reply.TheVariants as reply;
ghost use Rattle.desk_model.specs.statements.Entry.{EntryValue};
ghost use Rattle.desk_model.specs.statements.Job.{JobValue};
ghost use Rattle.desk_model.specs.histories.History.{History, is_done};
ghost use Rattle.desk_model.specs.histories.Register.{board_of, vacancy_of};
ghost use Rattle.desk_model.specs.boards.Boards.{is_on, order};
ghost use Rattle.desk_model.specs.histories.Duty.{events, place_at};
ghost use Rattle.desk_model.specs.offers.Offers.{asks_for};
ghost use Rattle.desk_model.specs.laws.RestsOn.{RestsOn, MayOffer, IsListed};
ghost use Rattle.desk_model.specs.histories.Legal.{last_moment, IsNext, IsLegal};

/// Some of what holds before an entry that is right and whose command is done: who is named is enrolled, who is enrolled and what
/// is set up or made by it is new, and there is room for it, and whose offer it settles has that offer. And before one that offers
/// a vacancy: it was made and has no open offer, and the person has none and is on the board that it is offered from. It does
/// nothing: its clauses are the laws.
pub fn what_is_done_rests_on()
    ensures done { (h : History) (e : EntryValue) → IsNext h e → is_done e.reply ≡ true → RestsOn h e.stated.cmd }
    ensures offered { (h : History) (e : EntryValue) (v p k : ℕ) (b : List ℕ) → IsLegal h → IsNext h e
        → asks_for e.stated.cmd ≡ Some v → e.reply ≡ reply.Offered p b k → MayOffer h v p b }
{}

/// In a legal history who is on a board is enrolled, and the board was set up; so each of those in its order is enrolled, and
/// nobody is on one that wasn't set up. It does nothing: its clauses are the laws.
pub fn who_is_on_a_board_is_listed()
    ensures listed { (h : History) → IsLegal h → (p : ℕ) (b : List ℕ) → is_on h p b ≡ true → IsListed h p b }
    ensures in_order { (h : History) → IsLegal h → (b : List ℕ) → All (λ p. IsListed h p b) (order h b) }
    ensures empty { (h : History) → IsLegal h → (b : List ℕ) → board_of h b ≡ None → order h b ≡ [] }
{}

/// In a legal history each vacancy that was made plans no minute behind the desk's window. It does nothing: its clause is the
/// law.
pub fn each_vacancy_ends_in_the_window()
    ensures { (h : History) → IsLegal h → (v : ℕ) (job : JobValue) → vacancy_of h v ≡ Some job
        → job.report + job.duty + job.limbo ≤ end_of h.opening.window }
{}

/// In a legal history nobody's latest minute is after the last moment. It does nothing: its clause is the law.
pub fn no_event_lies_ahead()
    ensures { (h : History) → IsLegal h → (p : ℕ) → unwrap_or (latest (events h p)) 0 ≤ last_moment h }
{}

/// From a person's latest minute on they stay where they are, till another event is told of them. It does nothing: its clause is
/// the law.
pub fn a_place_stays_from_the_latest_minute_on()
    ensures { (h : History) (p : ℕ) (person : Person) (from to : ℕ) → unwrap_or (latest (events h p)) 0 ≤ from
        → from ≤ to → place_at h to p person ≡ place_at h from p person }
{}
