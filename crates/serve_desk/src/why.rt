/// Why a line's session ended.
#[derive(Clone, Copy, Debug, PartialEq, Eq)]
pub enum Why {
    /// The line had no more to give.
    End,
    /// The line had a fault.
    LineFault,
    /// The line gave a command when its seat had no call left.
    Spent,
    /// The line gave one line more than may be heard.
    TooManyLines,
    /// An entry of a call could not be kept in the journal.
    JournalFault,
}
