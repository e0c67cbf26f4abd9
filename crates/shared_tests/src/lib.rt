//! Cases of the desk that callers share, of its book, of the gate at which they take turns, and of the windows on its boards. Nothing
//! else is here: these tests need no second proof of `call_history`, `turn_gate`, `board_window` and `desk_shared`, as they would in
//! them.
#![tactic(auto)]

#[cfg(test)]
mod book_tests;
#[cfg(test)]
mod desk_tests;
#[cfg(test)]
mod gate_tests;
#[cfg(test)]
mod window_tests;
