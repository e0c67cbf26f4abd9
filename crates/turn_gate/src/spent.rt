use crate::Seat;

/// The seat has had all its turns, and comes back unchanged.
#[derive(Drop)]
pub struct Spent<B> {
    /// The seat, as it was.
    pub seat: Seat<B>,
}
