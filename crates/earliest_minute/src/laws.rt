//! What holds of bars as time goes on.
ghost use Rattle.std.specs.Prelude.{◌≡◌, ◌↔◌, ℕ};
ghost use Rattle.desk_model.specs.histories.History.{History};
ghost use Rattle.desk_model.specs.histories.Legal.{IsLegal};
ghost use Rattle.earliest_minute.specs.declared.earliest.Earliest.{Earliest as EarliestValue};
ghost use Rattle.earliest_minute.specs.Least.{StaysGone};
ghost use Rattle.earliest_minute.specs.When.{IsWhen, when_of};

use desk_model::{a_place_stays_from_the_latest_minute_on, no_event_lies_ahead};
use law_bars::no_bar_where_the_law_is_kept;

/// From the last moment of a legal history on a bar that is gone stays gone: places don't change till something happens, holds
/// end, and rest goes on. So the minutes at which nothing bars a person from a vacancy are all those from one on. It only names the
/// laws that it rests on: its clause is the law.
pub fn a_bar_that_is_gone_stays_gone()
    ensures { StaysGone }
{
    no_event_lies_ahead();
    a_place_stays_from_the_latest_minute_on();
    no_bar_where_the_law_is_kept();
}

/// There is exactly one answer to from when on nothing bars a person from a vacancy: that which is found by looking at each minute
/// from the last moment to the report. It does nothing: its clause is the law.
pub fn the_earliest_minute_is_one()
    ensures { (h : History) (v p : ℕ) (told : EarliestValue) → IsWhen h v p told ↔ (told ≡ when_of h v p) }
{}
