use crate::told::Told;

/// How a gate began: its seats, the calls of each seat, and its book. No value of it is made.
pub struct Start {
    pub seats: u64,
    pub quota: u64,
    pub book: Told,
}
