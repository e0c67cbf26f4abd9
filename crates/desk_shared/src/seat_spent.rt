use thiserror::Error;

/// A seat has made all its calls.
#[derive(Clone, Copy, Debug, PartialEq, Eq, Error)]
#[error("the seat has made all its calls")]
pub struct SeatSpent;
