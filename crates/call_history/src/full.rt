use thiserror::Error;

/// A book has no room for another entry.
#[derive(Clone, Copy, Debug, PartialEq, Eq, Error)]
#[error("the book is full")]
pub struct Full;
