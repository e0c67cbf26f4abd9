//! The lines of the desk, written: a journal's opening and entries, replies, bars, wrong places and the tally.
#![tactic(auto)]

mod bar_line;
mod entry_line;
mod line_text;
mod opening_line;
mod outcome_line;
mod reply_line;
mod reply_sort;
mod stated_line;
mod tally;
mod wrong_line;

pub use bar_line::{put_bar, put_late};
pub use entry_line::{fill_with_entry, write_entry};
pub use line_text::{LineText, put, put_byte};
pub use opening_line::write_opening;
pub use outcome_line::{add_outcome, done_at, is_outcome, write_bar, write_outcome};
pub use tally::{Tally, a_tally_adds_up, put_count};
pub use wrong_line::write_wrong;
