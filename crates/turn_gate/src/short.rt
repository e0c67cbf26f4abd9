use crate::{Gate, Lasting, Seat};

/// Seats are missing, so the gate stays open. It and the seats come back.
#[derive(Drop)]
pub struct Short<B: Lasting> {
    /// The gate, as it was.
    pub gate: Gate<B>,
    /// The seats that were given.
    pub seats: Vec<Seat<B>>,
}
