ghost use Rattle.std.specs.Prelude.{◌≡◌, ◌+◌, ◌<◌, ◌^◌, ◌↔◌, IsNone};
ghost use Rattle.duty_events.specs.declared.stage.Stage.TheVariants as stage;
ghost use Rattle.duty_events.specs.Lists.{IsLawful, stage_of};
ghost use Rattle.law_bars.specs.Law.{law_bar, KeepsLaw};

use crate::days::days_bar;
use crate::hours::hours_bar;
use crate::laws::no_bar_where_the_law_is_kept;
use crate::rest::rest_bar;
use denial_rules::Bar;
use desk_base::{Code, Minute};
use duty_events::Event;

/// The first section of 49 USC 21103 that keeps someone from a job, by a lawful list of their events after which no tour
/// runs: (a)(3), (c)(4) and (e) of rest, (a)(4)(A) of days in a row, (a)(1) and (c)(1) of a month's hours. The job has so
/// many minutes on duty from its report on, and so many of limbo behind them; someone calls at the moment. There is none
/// exactly where each section is kept.
pub fn law_bar(
    events: &[Event],
    home: Code,
    moment: Minute,
    report: Minute,
    duty: u32,
    limbo: u32,
) -> Option<Bar>
    requires lawful { IsLawful events.now }
    requires off { stage_of events.now ≡ stage.Off }
    requires range { report + duty + limbo < 2 ^ 28 }
    ensures value { result ≡ law_bar events.now home moment report duty limbo }
    ensures free { IsNone result ↔ KeepsLaw events.now home moment report duty limbo }
{
    no_bar_where_the_law_is_kept();
    if let Some(bar) = rest_bar(events, moment, report) {
        return Some(bar);
    }
    if let Some(bar) = days_bar(events, home, report) {
        return Some(bar);
    }
    hours_bar(events, report, duty, limbo)
}
