ghost use Rattle.std.specs.Prelude.{◌≡◌, ◌==◌, None, Some, if◌then◌else◌, [], ◌∷◌};
ghost use Rattle.denial_rules.specs.declared.bar.Bar.TheVariants as bar;
ghost use Rattle.duty_events.specs.Lists.{IsLawful};
ghost use Rattle.denial_rules.specs.Table.{first_some};
ghost use Rattle.law_bars.specs.Law.{six_days_row, seven_days_row};

use consecutive_days::{OFF_AFTER_SEVEN_DAYS, OFF_AFTER_SIX_DAYS, days_ok, need, run_days};
use denial_rules::Bar;
use desk_base::{Code, Minute};
use duty_events::Event;

/// The first bar of days in a row, from a job with this report.
pub(crate) fn days_bar(events: &[Event], home: Code, report: Minute) -> Option<Bar>
    requires { IsLawful events.now }
    ensures { result ≡ first_some (six_days_row events.now home report
        ∷ seven_days_row events.now home report ∷ []) }
{
    if days_ok(events, home, report) {
        return None;
    }
    let run = run_days(events);
    bar_of_days(run, need(run))
}

/// The bar of so many days in a row that need so many minutes off, and these were not had; `None` where they need none.
pub fn bar_of_days(run: u32, need: u32) -> Option<Bar>
    ensures { result ≡ first_some (
        (if need == OFF_AFTER_SIX_DAYS then Some (bar.SixDays run need) else None)
        ∷ (if need == OFF_AFTER_SEVEN_DAYS then Some (bar.SevenDays run need) else None) ∷ []) }
{
    match need {
        OFF_AFTER_SIX_DAYS => Some(Bar::SixDays { run, need }),
        OFF_AFTER_SEVEN_DAYS => Some(Bar::SevenDays { run, need }),
        _ => None,
    }
}
