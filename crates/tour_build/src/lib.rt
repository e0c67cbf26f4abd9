//! The minutes of a tour of duty as it runs, summed by intervals.
#![tactic(auto)]

mod between;
mod interval;
mod month_sums;
mod running_tour;
mod tour_totals;

pub use between::{capped_between, tour_between, worked_between};
pub use interval::Interval;
pub use month_sums::MonthSums;
pub use running_tour::RunningTour;
pub use tour_totals::TourTotals;
