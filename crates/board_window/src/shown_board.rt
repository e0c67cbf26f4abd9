use crate::members::Members;
use desk_base::Code;

/// A board as it is shown.
#[derive(Drop)]
pub(crate) struct ShownBoard {
    /// Its code.
    pub code: Code,
    /// Its place.
    pub place: Code,
    /// The persons on it, in its order.
    pub members: Members,
}
