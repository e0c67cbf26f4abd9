//! Commands read: of records, of day files, of callers' lines and of lists that a journal goes on with; and the first wrong field
//! of what is none.
#![tactic(auto)]

mod command_line;
mod command_record;
mod command_records;
mod day_fault;
mod day_file;
mod event_word;
mod field;
mod field_form;
mod first_wrong;
mod limits;
mod more_commands;
mod more_fault;
mod open_day;
mod opening_record;
mod read_fail;
mod record_forms;
mod record_row;
mod spelled_command;
mod spelled_event;
mod spelled_offer;
mod spelled_person;
mod stated_record;
mod table_of_records;
mod word;

pub use command_line::{read_command, read_next_command};
pub use command_record::{a_record_states_one_command, put_stated, read_record};
pub use command_records::CommandRecords;
pub use day_fault::DayFault;
pub use day_file::{DayFile, bytes_are_one_day_file, read_day};
pub use field::{read_count, read_person, read_position, read_vac};
pub use limits::{COMMAND_LIMIT, RECORD_LIMIT, SHORTEST_RECORD, the_most_records_of_a_day_file};
pub use more_commands::{bytes_state_one_list_of_commands, read_more};
pub use more_fault::MoreFault;
pub use open_day::{OpenDay, an_open_day_is_read_by_its_commands};
pub use opening_record::opening_of;
pub use read_fail::ReadFail;
pub use spelled_event::read_kind;
pub use stated_record::{a_plain_record_is_its_statement, some_statement};
pub use table_of_records::{
    a_record_is_wrong_at_one_field, the_table_has_just_the_records_of_commands,
};
