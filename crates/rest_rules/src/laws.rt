ghost use Rattle.std.specs.Prelude.{◌≡◌, ◌-◌, None, Some, List, [], ◌∷◌, ◌++◌};
ghost use Rattle.duty_events.specs.declared.limits.TheConstants.{DUTY_LIMIT};
ghost use Rattle.duty_events.specs.declared.event.Event.{Event};
ghost use Rattle.duty_events.specs.declared.tour.Tour.{Tour};
ghost use Rattle.duty_events.specs.EndedTours.{ended, last_begun};
ghost use Rattle.duty_events.specs.Lists.{IsNext, IsLawful, stage_of, last_event};
ghost use Rattle.duty_events.specs.Tours.{sum_so_far};
ghost use Rattle.rest_rules.specs.Excess.{excess};
ghost use Rattle.rest_rules.specs.OffFrom.{off_from, off_after, OffFromInWords};
ghost use Rattle.rest_rules.specs.Rest.{RestInWords};

use duty_events::{
    kinds_when_an_event_comes, sums_when_an_event_comes, the_last_tour_ends_by_the_latest_minute,
    tours_when_an_event_comes,
};

/// The test of rest tells its cases, and someone is off from one past the last worked minute on, by any lawful list of
/// events. It does nothing: its clauses are the law.
pub fn rest_in_words()
    ensures rest { RestInWords }
    ensures off { OffFromInWords }
{}

/// Since when someone is off where one event more comes that may follow. It does nothing: its clause is the law.
pub fn off_when_an_event_comes()
    ensures { (es : List Event) (e : Event) → IsLawful es → IsNext es e
        → off_from (es ++ e ∷ []) ≡ off_after (off_from es) (last_event es) e }
{}

/// The excess where one event more comes that may follow: where that ends a tour, what the tour sums up over twelve hours,
/// and else as before. It only names the laws that it rests on: its clauses are the law.
pub fn excess_when_an_event_comes()
    ensures stay { (es : List Event) (e : Event) → IsLawful es → IsNext es e
        → ended (stage_of es) (last_begun es) e ≡ None → excess (es ++ e ∷ []) ≡ excess es }
    ensures ended { (es : List Event) (e : Event) → IsLawful es → IsNext es e
        → (tour : Tour) → ended (stage_of es) (last_begun es) e ≡ Some tour
        → excess (es ++ e ∷ []) ≡ sum_so_far (es ++ e ∷ []) - DUTY_LIMIT }
{
    kinds_when_an_event_comes();
    tours_when_an_event_comes();
    sums_when_an_event_comes();
    the_last_tour_ends_by_the_latest_minute();
}
