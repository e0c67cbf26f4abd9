//! What would be: the answers to commands that are only supposed, and from when on nothing bars somebody from a vacancy. The desk that is
//! asked stays as it is.
#![tactic(auto)]

mod earliest_time;
mod suppose_fault;
mod supposed;

pub use earliest_minute::Earliest;
pub use earliest_time::when;
pub use suppose_fault::SupposeFault;
pub use supposed::{a_history_goes_on_as_supposed, answer_each, suppose};
