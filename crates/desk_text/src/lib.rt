//! The texts of the desk: a journal's lines read, each exactly where it is the one spelling of its values; and, of the crates below,
//! what reads commands and writes lines.
#![tactic(auto)]

mod bar_head;
mod cut;
mod journal_opening;
mod laws;
mod reply_head;
mod spelled_bar;
mod spelled_entry;
mod spelled_part;
mod spelled_reply;
mod spelled_stage;
mod statement;

pub use command_parser::{
    DayFault, DayFile, MoreFault, ReadFail, read_command, read_day, read_more,
};
pub use journal_opening::read_opening;
pub use laws::{
    different_replies_have_different_texts, each_line_ends_once, no_line_begins_another,
};
pub use line_writer::{
    LineText, fill_with_entry, write_bar, write_entry, write_opening, write_outcome,
};
pub use spelled_entry::{put_statement, read_entry, read_next_entry};
pub use statement::Statement;
