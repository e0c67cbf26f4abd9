//! Rest by scanning events, 49 USC 21103(a)(3), (c)(4) and (e): since when someone is off, what their last tour had over
//! twelve hours, and whether they have rested by a minute.
#![tactic(auto)]

mod laws;
mod off_since;
mod rest;
mod tour_excess;

pub use laws::{excess_when_an_event_comes, off_when_an_event_comes, rest_in_words};
pub use off_since::off_from;
pub use rest::{REST, rest_end, rest_ok, the_minutes_of_a_rest};
pub use tour_excess::excess;
