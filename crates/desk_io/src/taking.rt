/// What a source answers when it is asked for bytes.
#[derive(Clone, Copy, Debug, PartialEq, Eq)]
pub enum Taking {
    /// So many bytes are at the front of the piece.
    Got(usize),
    /// No byte is left.
    End,
    /// The source had a fault, and moved nothing.
    Failed,
}
