//! What train employees do and when, as events after 49 CFR 228.11, what each minute counts as, and the longest stretch of minutes
//! of one kind.
#![tactic(auto)]

mod asked;
mod end;
mod ended_tours;
mod event;
mod event_fault;
mod gauge;
mod kind;
mod lawful;
mod laws;
mod limits;
mod minute_kind;
mod minutes;
mod places;
mod sequence;
mod spell;
mod stage;
mod tour;

pub use asked::Asked;
pub use ended_tours::last_tour;
pub use event::Event;
pub use event_fault::EventFault;
pub use gauge::{Gauge, a_stretch_is_found_where_there_is_one};
pub use kind::Kind;
pub use lawful::{is_lawful, may_follow};
pub use laws::{
    a_minute_that_is_not_worked_is_off, a_next_event_is_lawful,
    a_tour_is_one_by_events_and_by_marks, counts_when_an_event_comes,
    kinds_about_the_latest_minute, kinds_by_the_stage, kinds_when_an_event_comes,
    may_follow_in_words, places_when_an_event_comes, sums_when_an_event_comes,
    the_first_events_are_lawful, the_last_tour_ends_by_the_latest_minute,
    tours_when_an_event_comes, where_an_event_leads,
};
pub use limits::{DUTY_LIMIT, INTERIM_LIMIT, OFF_DUTY_INTERIM, the_numbers_of_a_tour};
pub use minute_kind::MinuteKind;
pub use minutes::shared;
pub use places::{place, place_behind, place_until};
pub use sequence::{allowed, stage_of};
pub use spell::{between, kind_behind, kind_during, kind_until};
pub use stage::Stage;
pub use tour::Tour;
