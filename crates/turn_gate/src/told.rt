use crate::wall::Wall;
use desk_model::{Entry, Opening};
use std::collections::LinkedList;

/// What contracts see of a book: its opening, its entries in order, how many there can be, its mark, and how
/// many entries are sure. No value of it is made.
pub struct Told {
    pub opening: Opening,
    pub entries: LinkedList<Entry>,
    pub room: u64,
    pub wall: Wall,
    pub sure: u64,
}
