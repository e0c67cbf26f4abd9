use crate::told::Told;

/// Where a seat stands in its call: it has no ticket, or it waits with one, or the ticket is served, and the book was taken
/// as it is told. No value of it is made.
pub enum Phase {
    Idle,
    Waiting(u64),
    Turn(u64, Told),
}
