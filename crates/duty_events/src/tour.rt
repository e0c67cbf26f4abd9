use desk_base::{Code, Minute};

/// A tour of duty that has ended: from the ride or the duty with which it began to its final release, or to where the
/// interim began during which that came.
#[derive(Clone, Copy, Debug, PartialEq, Eq)]
pub struct Tour {
    /// Its first minute.
    pub start: Minute,
    /// The first minute behind it.
    pub end: Minute,
    /// The place of its final release.
    pub place: Code,
}
