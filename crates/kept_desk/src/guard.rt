use crate::Offset;

/// How far ahead of its clock a desk hears minutes stated.
#[derive(Clone, Copy, Debug, PartialEq, Eq)]
pub struct Guard {
    /// The offset of the desk's civil time from UTC.
    pub offset: Offset,
    /// How many minutes ahead a line may be stated at most.
    pub ahead: u32,
}
