use thiserror::Error;

/// A seat has too few calls left for a crew call.
#[derive(Clone, Copy, Debug, PartialEq, Eq, Error)]
#[error("a crew call takes up to 3 calls, and the seat has {left} left")]
pub struct TooFew {
    /// How many it has left, 0 to 2.
    pub left: u32,
}
