//! The lines of callers served at one desk, each by a session of its own.
#![tactic(auto)]

mod all_lines;
mod answer;
mod answered;
mod answered_watched;
mod crew_text;
mod day_book;
mod ended;
mod ended_watched;
mod entry_lines;
mod limits;
mod look_text;
mod one_line;
mod post;
mod put;
mod serving;
mod sessions;
mod texts;
mod watch_all;
mod watch_answer;
mod watch_crew;
mod watch_line;
mod why;

pub use all_lines::serve_lines;
pub use day_book::book_of_day;
pub use ended::Ended;
pub use ended_watched::EndedWatched;
pub use limits::{CALLS_PER_LINE, LINES_PER_CALLER, the_numbers_of_a_session};
pub use one_line::session;
pub use serving::{serve, serve_by, watch};
pub use sessions::Sessions;
pub use watch_all::watch_lines;
pub use watch_line::session_watched;
pub use why::Why;
