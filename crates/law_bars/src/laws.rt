//! What holds of the law's bars.
ghost use Rattle.std.specs.Prelude.{◌≡◌, ◌≤◌, ◌+◌, ℕ, None, IfSome, List};
ghost use Rattle.desk_base.specs.declared.minute.TheConstants.{YEARS_END};
ghost use Rattle.desk_base.specs.Minute.{IsInYears};
ghost use Rattle.denial_rules.specs.Bar.{FitsBar};
ghost use Rattle.duty_events.specs.declared.event.Event.{Event};
ghost use Rattle.duty_events.specs.declared.stage.Stage.TheVariants as stage;
ghost use Rattle.duty_events.specs.Lists.{IsLawful, stage_of};
ghost use Rattle.law_bars.specs.Law.{law_bar, LawInWords, WasOffTenHours};

use consecutive_days::days_in_words;
use duty_events::a_minute_that_is_not_worked_is_off;
use month_hours::hours_in_words;
use rest_rules::rest_in_words;

/// No section bars someone just where each is kept, by any lawful list of events. It only names the laws that it rests on:
/// its clause is the law.
pub fn no_bar_where_the_law_is_kept()
    ensures { LawInWords }
{
    rest_in_words();
    days_in_words();
    hours_in_words();
}

/// Whom no bar of the law keeps from a job was off in each minute of the ten hours before its report, 21103(a)(3). It only
/// names the laws that it rests on: its clause is the law.
pub fn who_is_rested_was_off_ten_hours()
    ensures { (es : List Event) (home : List ℕ) (moment report duty limbo : ℕ) → IsLawful es → stage_of es ≡ stage.Off
        → law_bar es home moment report duty limbo ≡ None → WasOffTenHours es report }
{
    no_bar_where_the_law_is_kept();
    rest_in_words();
    a_minute_that_is_not_worked_is_off();
}

/// Each value that a bar of the law keeps is in its range, by any lawful list of events, for a job of the years 2000 to 2099.
/// It does nothing: its clause is the law.
pub fn what_a_bar_of_the_law_keeps()
    ensures { (es : List Event) (home : List ℕ) (moment report duty limbo : ℕ) → IsLawful es → IsInYears report
        → report + duty + limbo ≤ YEARS_END → IfSome (law_bar es home moment report duty limbo) FitsBar }
{}
