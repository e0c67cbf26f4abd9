//! Day files replayed: taken from a source, and their journal, their tally or what would be written to a sink.
#![tactic(auto)]

mod day_forecast;
mod day_form;
mod day_input;
mod day_kept;
mod day_tally;
mod day_when;
mod earliest_line;
mod from_day;
mod held_journal;
mod held_line;
mod journal;
mod lines;
mod replay;
mod replayed;

pub use day_form::DayForm;
pub use day_input::{DAY_BYTES, take_day, tell_wrong, the_most_bytes_of_a_day_file};
pub use journal::{PIECE_BYTES, write_entries, write_history};
pub use lines::gather;
pub use replay::replay_day;
