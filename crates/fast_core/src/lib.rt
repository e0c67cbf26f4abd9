//! A desk that keeps its boards, offers and clocks as they stand, and answers each command by looking them up.
#![tactic(auto)]

mod call;
mod candidate;
mod desk_reads;
mod fast_core;
mod job_asked;
mod kept_desk;
mod people;
mod touched;
mod unfilled;

pub use fast_core::FastCore;
