/// What a line answers when it is asked for the next of it.
#[derive(Clone, Copy, Debug, PartialEq, Eq)]
pub enum Heard {
    /// A line of 512 bytes at most, which are in the buffer without their line feed.
    Line,
    /// A line of more than 512 bytes, which was skipped.
    TooLong,
    /// No line is left.
    End,
    /// The line had a fault.
    Failed,
}
