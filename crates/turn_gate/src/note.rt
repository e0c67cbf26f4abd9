use desk_model::Entry;
use std::collections::LinkedList;

/// The number of a seat, the entries that it knows, and how many of them it knows as sure. No value of it is made.
pub struct Note {
    pub number: u64,
    pub known: LinkedList<Entry>,
    pub sure: u64,
}
