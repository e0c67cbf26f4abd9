//! Slots in a row, each empty or filled by a person, and the first of them who is ready at a minute.
#![tactic(auto)]

mod counted_nodes;
mod filled_slots;
mod limits;
mod nodes;
mod search;
mod slot;
mod slot_tree;
mod slots;
mod steps;
mod word;

pub use limits::SLOT_LIMIT;
pub use slot::Slot;
pub use slot_tree::SlotTree;
pub use steps::Steps;
