//! Minutes, days and months of the desk's one civil time, its codes and numbers, and its one fault.
#![tactic(auto)]

mod civil;
mod code;
mod day;
mod decimal;
mod digits;
mod index_hints;
mod limits;
mod minute;
mod month;
mod no_memory;
mod parts;
mod person_no;
mod span;
mod vac_no;
mod window;

pub use code::Code;
pub use day::Day;
pub use decimal::read_decimal;
pub use index_hints::IndexHints;
pub use limits::NUMBER_LIMIT;
pub use minute::{Minute, YEARS_BEGIN, YEARS_END};
pub use month::{MONTHS_BEGIN, MONTHS_END, Month};
pub use no_memory::NoMemory;
pub use parts::split_once;
pub use person_no::PersonNo;
pub use span::Span;
pub use vac_no::VacNo;
pub use window::{WINDOW_MONTHS, Window};
