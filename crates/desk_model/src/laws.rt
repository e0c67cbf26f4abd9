//! The laws of legal histories: empty functions, whose clauses they are.

pub mod answers;
pub mod calls;
pub mod commands;
pub mod editions;
pub mod entries;
pub mod legal;
pub mod offers;
