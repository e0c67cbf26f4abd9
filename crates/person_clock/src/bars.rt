ghost use Rattle.std.specs.Prelude.{◌≡◌, ◌≤◌, List, [], ◌∷◌};
ghost use Rattle.denial_rules.specs.Table.{first_some};
ghost use Rattle.duty_events.specs.declared.event.Event.{Event};
ghost use Rattle.duty_events.specs.declared.stage.Stage.TheVariants as stage;
ghost use Rattle.duty_events.specs.Lists.{IsLawful, stage_of, last_event, reached};
ghost use Rattle.law_bars.specs.Law.{rest_row, more_rest_row, undisturbed_row, six_days_row, seven_days_row};
ghost use Rattle.person_clock.specs.Days.{IsDaysOf};
ghost use Rattle.person_clock.specs.Rest.{IsRestOf};

use crate::days_clock::DaysClock;
use crate::rest_clock::RestClock;
use consecutive_days::need;
use denial_rules::Bar;
use desk_base::{Code, Minute};
use law_bars::bar_of_days;

/// The first bar of rest at a moment, from a job with this report.
pub(crate) fn rest_bar(rest: &RestClock, moment: Minute, report: Minute) -> Option<Bar>
    requires { moment ≤ report }
    ensures { (es : List Event) → IsLawful es → stage_of es ≡ stage.Off
        → reached (last_event es) ≤ moment → IsRestOf rest.now es
        → result ≡ first_some (rest_row es report ∷ more_rest_row es report
        ∷ undisturbed_row es moment ∷ []) }
{
    if !rest.is_ok(report, 0) {
        return Some(Bar::Rest(rest.ten_hours()));
    }
    let excess = rest.excess();
    if !rest.is_ok(report, excess) {
        return Some(Bar::MoreRest(rest.end()));
    }
    if !rest.is_ok(moment, excess) {
        return Some(Bar::Undisturbed(rest.end()));
    }
    None
}

/// The first bar of days in a row, from a job with this report.
pub(crate) fn days_bar(days: &DaysClock, home: Code, report: Minute) -> Option<Bar>
    ensures { (es : List Event) → IsLawful es → stage_of es ≡ stage.Off
        → reached (last_event es) ≤ report → IsDaysOf home days.now es
        → result ≡ first_some (six_days_row es home report ∷ seven_days_row es home report ∷ []) }
{
    if days.is_ok(home, report) {
        return None;
    }
    bar_of_days(days.days(), need(days.days()))
}
