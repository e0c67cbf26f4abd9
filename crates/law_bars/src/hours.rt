ghost use Rattle.std.specs.Prelude.{◌≡◌, ◌+◌, ◌<◌, ◌^◌, [], ◌∷◌};
ghost use Rattle.duty_events.specs.Lists.{IsLawful};
ghost use Rattle.denial_rules.specs.Table.{first_some};
ghost use Rattle.law_bars.specs.Law.{month_row, limbo_row};

use denial_rules::Bar;
use desk_base::Minute;
use duty_events::Event;
use month_hours::{over_limbo, over_month};

/// The first bar of a month's hours, from a job of so many minutes on duty from the report on, and so many of limbo
/// behind them.
pub(crate) fn hours_bar(events: &[Event], report: Minute, duty: u32, limbo: u32) -> Option<Bar>
    requires lawful { IsLawful events.now }
    requires range { report + duty + limbo < 2 ^ 28 }
    ensures { result ≡ first_some (month_row events.now report duty limbo
        ∷ limbo_row events.now report duty limbo ∷ []) }
{
    if let Some(over) = over_month(events, report, duty, limbo) {
        return Some(Bar::MonthHours {
            month: over.month,
            total: over.total,
        });
    }
    match over_limbo(events, report, duty, limbo) {
        Some(over) => Some(Bar::LimboHours {
            month: over.month,
            total: over.total,
        }),
        None => None,
    }
}
