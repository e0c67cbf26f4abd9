ghost use Rattle.std.specs.Prelude.{◌≡◌, ℕ, ◌+◌, List, [], ◌∷◌, ◌++◌};
ghost use Rattle.duty_events.specs.declared.event.Event.{Event};
ghost use Rattle.duty_events.specs.Lists.{IsNext, IsLawful, last_event};
ghost use Rattle.duty_events.specs.Tours.{sum_so_far};
ghost use Rattle.month_hours.specs.Capped.{capped_minutes};
ghost use Rattle.month_hours.specs.Over.{HoursInWords, LimboInWords};
ghost use Rattle.month_hours.specs.Steps.{capped_between};

/// A plan brings no month over a limit just where each month that holds a minute of it keeps the limit, by any list of
/// events. It does nothing: its clauses are the law.
pub fn hours_in_words()
    ensures hours { HoursInWords }
    ensures limbo { LimboInWords }
{}

/// How many limbo minutes count against the limit where one event more comes that may follow: those that did, and those
/// between the list's last event and this one. It does nothing: its clause is the law.
pub fn limbo_when_an_event_comes()
    ensures { (es : List Event) (e : Event) → IsLawful es → IsNext es e → (first many : ℕ)
        → capped_minutes (es ++ e ∷ []) first many ≡ capped_minutes es first many
        + capped_between (last_event es) e (sum_so_far es) first many }
{}
