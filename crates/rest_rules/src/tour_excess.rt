ghost use Rattle.std.specs.Prelude.{◌≡◌, ◌<◌, ◌≤◌};
ghost use Rattle.desk_base.specs.declared.minute.TheConstants.{YEARS_END};
ghost use Rattle.duty_events.specs.Lists.{IsLawful, last_event, reached};
ghost use Rattle.rest_rules.specs.Excess.{tour_sum, excess};

use duty_events::{Asked, DUTY_LIMIT, Event, Tour, last_tour};

/// How many on-duty and limbo minutes the last tour has, of those that have ended, over twelve hours, 0 if it has no more
/// or there is none, 49 USC 21103(c)(4). The events are a lawful list.
#[tactic(auto, unfolding(crate::specs::Excess::excess))]
pub fn excess(events: &[Event]) -> u32
    requires { IsLawful events.now }
    ensures value { result ≡ excess events.now }
    ensures most { result ≤ reached (last_event events.now) }
    ensures range { result < YEARS_END }
{
    match last_tour(events) {
        Some(tour) => tour_sum(events, &tour).saturating_sub(DUTY_LIMIT),
        None => 0,
    }
}

// How many minutes of a tour are on duty or limbo.
fn tour_sum(events: &[Event], tour: &Tour) -> u32
    requires { IsLawful events.now }
    ensures value { result ≡ tour_sum events.now tour.now }
    ensures most { result ≤ tour.now.end }
{
    let first = tour.start.number();
    let many = tour.end.number().saturating_sub(first) as u32;
    Asked::InTour.count(events, first, many)
}
