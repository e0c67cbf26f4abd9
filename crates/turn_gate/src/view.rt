use crate::note::Note;
use crate::phase::Phase;
use crate::start::Start;
use std::collections::LinkedList;

/// What a seat knows: its notes, how many tickets were drawn for them, where it stands, and how the gate began. No value of
/// it is made.
pub struct View {
    pub notes: LinkedList<Note>,
    pub calls: u64,
    pub phase: Phase,
    pub start: Start,
}
