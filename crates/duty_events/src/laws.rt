ghost use Rattle.std.specs.Prelude.{◌≡◌, ◌≢◌, ℕ, ◌+◌, ◌-◌, ◌<◌, ◌≤◌, if◌then◌else◌, true, false, Option, Some, List, [], ◌∷◌, ◌++◌, take};
ghost use Rattle.desk_base.specs.declared.minute.TheConstants.{YEARS_END};
ghost use Rattle.std.specs.Bool.{Decides};
ghost use Rattle.std.specs.Option.{option_or};
ghost use Rattle.duty_events.specs.declared.asked.Asked.{Asked};
ghost use Rattle.duty_events.specs.declared.asked.Asked.TheVariants as asked;
ghost use Rattle.duty_events.specs.declared.event.Event.{Event};
ghost use Rattle.duty_events.specs.declared.minute_kind.MinuteKind.TheVariants.{Off, Open, Other};
ghost use Rattle.duty_events.specs.declared.stage.Stage.{Stage};
ghost use Rattle.duty_events.specs.declared.stage.Stage.TheVariants as stage;
ghost use Rattle.duty_events.specs.declared.tour.Tour.{Tour};
ghost use Rattle.duty_events.specs.Allowed.{first_minute, last_minute};
ghost use Rattle.duty_events.specs.Asked.{asked_minutes, asked_between, asked_own};
ghost use Rattle.duty_events.specs.Between.{kind_until, kind_behind};
ghost use Rattle.duty_events.specs.During.{kind_during};
ghost use Rattle.duty_events.specs.EndedTours.{begun, ended, last_begun, last_tour};
ghost use Rattle.duty_events.specs.Lists.{Follows, may_follow, IsNext, IsLawful, stage_of, stage_after, last_event, reached};
ghost use Rattle.duty_events.specs.MinuteKind.{begins, kind_of, is_worked, is_off_duty};
ghost use Rattle.duty_events.specs.Places.{place_of, place_until, place_behind};
ghost use Rattle.duty_events.specs.Tours.{tour_start, starts, sum_so_far, tour_minutes, tour_minutes_between, more_until};

/// A lawful list and an event that may follow it are a lawful list. It does nothing: its clause is the law.
pub fn a_next_event_is_lawful()
    ensures { (es : List Event) (e : Event) → IsLawful es → IsNext es e → IsLawful (es ++ e ∷ []) }
{}

/// The test of whether an event may follow a stage and a latest minute tells just that. It does nothing: its clause is the
/// law.
pub fn may_follow_in_words()
    ensures { (s : Stage) (last : Option ℕ) (e : Event) → Decides (may_follow s last e) (Follows s last e) }
{}

/// The first events of a lawful list are one. It does nothing: its clause is the law.
pub fn the_first_events_are_lawful()
    ensures { (es : List Event) (many : ℕ) → IsLawful es → IsLawful (take many es) }
{}

/// The stage that a list with one event more ends in, and its last event. It does nothing: its clauses are the law.
pub fn where_an_event_leads()
    ensures stage { (es : List Event) (e : Event) → stage_of (es ++ e ∷ []) ≡ stage_after (stage_of es) e }
    ensures last { (es : List Event) (e : Event) → last_event (es ++ e ∷ []) ≡ Some e }
{}

/// What each minute counts as where one event more comes that may follow a lawful list. A minute before the list's
/// latest stays what it was. Those from there to the event's first count as the two events make them, and before the
/// very first event they are off. The event's own minutes are other service. Those from its last on are off, or counted
/// nowhere where it begins an interim. `kind_of` is a function, so a minute counts as one thing only. It does nothing:
/// its clauses are the law.
pub fn kinds_when_an_event_comes()
    ensures stay { (es : List Event) (e : Event) → IsLawful es → IsNext es e
        → (t : ℕ) → t < reached (last_event es) → kind_of (es ++ e ∷ []) t ≡ kind_of es t }
    ensures until { (es : List Event) (e : Event) → IsLawful es → IsNext es e
        → (t : ℕ) → reached (last_event es) ≤ t → t < first_minute e
        → kind_of (es ++ e ∷ []) t ≡ kind_until (last_event es) e }
    ensures own { (es : List Event) (e : Event) → IsLawful es → IsNext es e
        → (t : ℕ) → first_minute e ≤ t → t < last_minute e → kind_of (es ++ e ∷ []) t ≡ Other }
    ensures behind { (es : List Event) (e : Event) → IsLawful es → IsNext es e
        → (t : ℕ) → last_minute e ≤ t → kind_of (es ++ e ∷ []) t ≡ kind_behind (Some e) }
{}

/// Each minute before the latest of a lawful list has a kind: an interim that has not ended began at the latest. Those
/// from there on are of that interim, or off. It does nothing: its clauses are the law.
pub fn kinds_about_the_latest_minute()
    ensures before { (es : List Event) → IsLawful es
        → (t : ℕ) → t < reached (last_event es) → kind_of es t ≢ Open }
    ensures behind { (es : List Event) → IsLawful es
        → (t : ℕ) → reached (last_event es) ≤ t → kind_of es t ≡ kind_behind (last_event es) }
{}

/// What the minutes about the latest of a lawful list count as, by the stage alone: those up to an event that comes next, as
/// by the list's last event and it; and those behind the list where no tour runs, which are off. So whoever keeps a stage
/// and a latest minute needs no event. It does nothing: its clauses are the law.
pub fn kinds_by_the_stage()
    ensures until { (es : List Event) → IsLawful es
        → (e : Event) → kind_during (stage_of es) e ≡ kind_until (last_event es) e }
    ensures off { (es : List Event) → IsLawful es → stage_of es ≡ stage.Off
        → kind_behind (last_event es) ≡ Off }
{}

/// Where no tour runs, a minute that isn't worked is off. It does nothing: its clause is the law.
pub fn a_minute_that_is_not_worked_is_off()
    ensures { (es : List Event) → IsLawful es → stage_of es ≡ stage.Off
        → (t : ℕ) → is_worked (kind_of es t) ≡ false → is_off_duty (kind_of es t) ≡ true }
{}

/// How many minutes are asked about where one event more comes: those that were, those between the list's last event and
/// this one, and the event's own. It does nothing: its clause is the law.
pub fn counts_when_an_event_comes()
    ensures { (a : Asked) (es : List Event) (e : Event) → IsLawful es → IsNext es e → (first many : ℕ)
        → asked_minutes a (es ++ e ∷ []) first many ≡ asked_minutes a es first many
        + (asked_between a (last_event es) e first many + asked_own a e first many) }
{}

/// Where someone is where one event more comes: before the list's latest minute as before, then moved back by a final
/// release during an interim, and behind the event where that ended a tour or other service. It does nothing: its clauses
/// are the law.
pub fn places_when_an_event_comes()
    ensures stay { (es : List Event) (e : Event) → IsLawful es → IsNext es e
        → (home : List ℕ) (t : ℕ) → t < reached (last_event es)
        → place_of (es ++ e ∷ []) home t ≡ place_of es home t }
    ensures until { (es : List Event) (e : Event) → IsLawful es → IsNext es e
        → (home : List ℕ) (t : ℕ) → reached (last_event es) ≤ t → t < first_minute e
        → place_of (es ++ e ∷ []) home t ≡ place_until (stage_of es) e (place_of es home t) }
    ensures behind { (es : List Event) (e : Event) → IsLawful es → IsNext es e
        → (home : List ℕ) (t : ℕ) → last_minute e ≤ t
        → place_of (es ++ e ∷ []) home t ≡ place_behind e (place_of es home t) }
{}

/// The tours that have begun, the last one's start and the last that has ended, where one event more comes. It does
/// nothing: its clauses are the law.
pub fn tours_when_an_event_comes()
    ensures starts { (es : List Event) (e : Event) → starts (es ++ e ∷ [])
        ≡ starts es ++ (if begins (stage_of es) e then first_minute e ∷ [] else []) }
    ensures begun { (es : List Event) (e : Event)
        → last_begun (es ++ e ∷ []) ≡ begun (stage_of es) (last_begun es) e }
    ensures ended { (es : List Event) (e : Event) → last_tour (es ++ e ∷ [])
        ≡ option_or (ended (stage_of es) (last_begun es) e) (last_tour es) }
{}

/// What the last tour that has begun sums up where one event more comes, which is what it sums up where that event ends
/// it; and what a minute's tour does before it: a minute
/// before the list's latest stays as it was, and one from there to the event has the sum so far before it and more. It
/// does nothing: its clauses are the law.
pub fn sums_when_an_event_comes()
    ensures sum { (es : List Event) (e : Event) → IsLawful es → IsNext es e → sum_so_far (es ++ e ∷ [])
        ≡ (if begins (stage_of es) e then 0 else sum_so_far es + tour_minutes_between (last_event es) e) }
    ensures range { (es : List Event) → IsLawful es → sum_so_far es < YEARS_END }
    ensures ended { (es : List Event) (e : Event) → IsLawful es → IsNext es e
        → (tour : Tour) → ended (stage_of es) (last_begun es) e ≡ Some tour
        → asked_minutes asked.InTour (es ++ e ∷ []) tour.start (tour.end - tour.start)
        ≡ sum_so_far (es ++ e ∷ []) }
    ensures stay { (es : List Event) (e : Event) → IsLawful es → IsNext es e
        → (t : ℕ) → t < reached (last_event es) → tour_minutes (es ++ e ∷ []) t ≡ tour_minutes es t }
    ensures until { (es : List Event) (e : Event) → IsLawful es → IsNext es e
        → (t : ℕ) → reached (last_event es) ≤ t → t < first_minute e
        → tour_minutes (es ++ e ∷ []) t ≡ sum_so_far es + more_until (last_event es) e t }
{}

/// Each minute of the last tour that has ended belongs to it by the marks too: the tour of the minute began where that tour
/// did. So what is summed of a tour up to a minute, and of one that has ended, is of the same tour. It does nothing: its
/// clause is the law.
pub fn a_tour_is_one_by_events_and_by_marks()
    ensures { (es : List Event) (tour : Tour) → IsLawful es → last_tour es ≡ Some tour
        → (t : ℕ) → tour.start ≤ t → t < tour.end → tour_start es t ≡ tour.start }
{}

/// The last tour that has ended did so by the latest minute of a lawful list. It does nothing: its clause is the law.
pub fn the_last_tour_ends_by_the_latest_minute()
    ensures { (es : List Event) (tour : Tour) → IsLawful es → last_tour es ≡ Some tour
        → tour.end ≤ reached (last_event es) }
{}
