use thiserror::Error;

/// The refusal of a board that has as many members as it may.
#[derive(Clone, Copy, Debug, PartialEq, Eq, Error)]
#[error("members full")]
pub struct MembersFull;
