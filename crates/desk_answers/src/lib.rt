//! What the desk answers to each command, over what a core can tell of its history.
#![tactic(auto)]

mod board_answers;
mod entry;
mod event_answer;
mod give_up_answer;
mod moment;
mod next_answer;
mod offer_answer;
mod person_answers;
mod question_answers;
mod reads;
mod settle_answer;
mod vacancy_answer;

pub use entry::next_entry;
pub use reads::Reads;
