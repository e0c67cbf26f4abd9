ghost use Rattle.std.specs.Prelude.{◌≡◌, [], ◌∷◌};
ghost use Rattle.duty_events.specs.declared.stage.Stage.TheVariants as stage;
ghost use Rattle.duty_events.specs.Lists.{IsLawful, stage_of};
ghost use Rattle.denial_rules.specs.Table.{first_some};
ghost use Rattle.law_bars.specs.Law.{rest_row, more_rest_row, undisturbed_row};

use denial_rules::Bar;
use desk_base::Minute;
use duty_events::Event;
use rest_rules::{REST, excess, off_from, rest_end, rest_ok};

/// The first bar of rest at a moment, from a job with this report.
pub(crate) fn rest_bar(events: &[Event], moment: Minute, report: Minute) -> Option<Bar>
    requires lawful { IsLawful events.now }
    requires off { stage_of events.now ≡ stage.Off }
    ensures { result ≡ first_some (rest_row events.now report
        ∷ more_rest_row events.now report ∷ undisturbed_row events.now moment ∷ []) }
{
    if !rest_ok(events, report, 0) {
        return Some(Bar::Rest(off_from(events).after(REST)));
    }
    let excess = excess(events);
    if !rest_ok(events, report, excess) {
        return Some(Bar::MoreRest(rest_end(events)));
    }
    if !rest_ok(events, moment, excess) {
        return Some(Bar::Undisturbed(rest_end(events)));
    }
    None
}
