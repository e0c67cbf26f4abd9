//! A desk that keeps its opening and its entries alone, and finds each answer by reading the entries from the first on.
#![tactic(auto)]

mod assigned;
mod boards;
mod duty;
mod held;
mod kept;
mod lists;
mod marks;
mod offers;
mod order;
mod plain_core;
mod register;
mod states;
mod turned_down;

pub use plain_core::PlainCore;
