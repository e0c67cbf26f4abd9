//! The records of tours of duty, read off a journal.
#![tactic(auto)]

mod assignments;
mod duty_records;
mod ended_tour;
mod journal;
mod json;
mod laws;
mod person_tours;
mod put;
mod relief_marks;
mod tour_book;
mod tour_record;

pub use duty_records::DutyRecords;
pub use journal::{excess_list, records};
pub use json::to_json;
pub use laws::{
    each_tour_has_one_record, no_records_are_an_empty_array, the_last_excess_is_owed_to_rest,
};
pub use tour_record::TourRecord;
