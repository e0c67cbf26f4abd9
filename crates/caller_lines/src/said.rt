use desk_model::Stated;

/// What a caller said with one line.
#[derive(Clone, Copy, Debug)]
pub enum Said {
    /// The command that the line states, with its minute.
    Command(Stated),
    /// The number of the line's first wrong field, from 1; 0 where it isn't just one record.
    Malformed(u8),
    /// A line of more than 512 bytes.
    TooLong,
    /// No line is left.
    End,
    /// The line had a fault.
    LineFault,
    /// Memory was wanting for the reading of the line.
    NoMemory,
}
